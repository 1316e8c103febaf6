//! What follows from the program's answers.

ghost use Rattle.std.specs.Prelude.{◌≡◌};
ghost use Rattle.def_program.specs.Answers.{Answers};
ghost use Rattle.def_program.specs.Calls.{CallRecord};
ghost use Rattle.def_program.specs.declared.Status.{Status as StatusRow};
ghost use Rattle.def_program.specs.Deciding.{IsDecided};
ghost use Rattle.def_program.specs.Completing.{Completes, CompletesDemo, IsSteady, NoFault, RefusesMisuse};

/// Completeness: where no fault is counted, and the words are a form whose files the folder tells and
/// which stand for parts, a script or a policy among them where one is named, the status is Done, or
/// NoMemory. But where `why` is asked of names that stand for nothing the status is Name, and a policy
/// may be Denied (`files`). The same of `demo`: every number's firmware stands for parts (`demo`).
///
/// Words that are not a form are answered by Usage, or by WriteFault where the line could not be
/// written; never by want of memory (`words`). Where no fault is counted no status of a fault is answered
/// (`steady`); and a count that is the constant 0 did not rise (`counts`).
pub fn completes()
    ensures files { (e : CallRecord) (s : StatusRow) → Answers e s → Completes e s }
    ensures demo { (e : CallRecord) (s : StatusRow) → Answers e s → CompletesDemo e s }
    ensures words { (e : CallRecord) (s : StatusRow) → Answers e s → RefusesMisuse e s }
    ensures steady { (e : CallRecord) (s : StatusRow) → Answers e s → NoFault e → IsSteady s }
    ensures counts { (e : CallRecord)
        → e.folder.faults ≡ 0 → e.folder_after.faults ≡ 0
        → e.sink.faults ≡ 0 → e.sink_after.faults ≡ 0 → NoFault e }
{}

/// Where no fault is counted and the folder tells the files that are due, a call ends as the dialogue over
/// these files does, a refusal or not, or memory was wanted. A file that is told to be too large is
/// TooLarge; one that is told to be absent is ReadFault, unless its line could not be written.
pub fn told_files_decide()
    ensures { (e : CallRecord) (s : StatusRow) → Answers e s → IsDecided e s }
{}
