//! Laws of sources: how a line is cut and which fault is its least, how statements are written, and that each word of
//! an assembled text decodes to its statement's instruction. Functions with empty bodies, whose contracts are the laws.
#![tactic(auto)]

mod source;

ghost use Rattle.std.specs.Prelude.{◌≡◌, ◌↔◌, ℕ, ◌+◌, ◌*◌, ◌<◌, ◌^◌, None, Some, List, length};
ghost use Rattle.def_source.specs.Source.{Name, Row, Statements, IsLawful, statement_form, directive_form};
ghost use Rattle.def_source.specs.declared.words.Head.{Head};
ghost use Rattle.def_source.specs.declared.words.Directive.{Directive};
ghost use Rattle.def_source.specs.declared.parts.Part.{Part};
ghost use Rattle.def_object.specs.Object.{fault_in, label_in, start, number_instructions, text_instructions, global_instructions, import_instructions, slot_or_zero, slot_of};
ghost use Rattle.def_words.specs.Capability.{integer};
ghost use Rattle.def_machine.specs.State.{Thread, register};
ghost use Rattle.def_step.specs.Accesses.{MemoryAndDevices};
ghost use Rattle.def_assembly.specs.Decoding.{AllSay};
ghost use Rattle.def_assembly.specs.Loading.{after_instructions, MayWrite, SetsRegister, AreApart, LeadsTo, LeadsOver, LeadsToSlot, to_slot};
ghost use Rattle.def_assembly.specs.Written.{WritesStatement, WritesDirective};

pub use source::{faults_are_least, labels_are_offsets};

/// The tokens after a first word are read as a statement just where the word begins that statement and the tokens are
/// its operands, each written as its kind, with a comma between each two (`statements`). The same of directives
/// (`directives`).
pub fn forms_are_written()
    ensures statements { (h : Head) (ts : Row) (p : Part Name)
        → (statement_form h ts ≡ Some p) ↔ WritesStatement h ts p }
    ensures directives { (d : Directive) (ts : Row) (p : Part Name)
        → (directive_form d ts ≡ Some p) ↔ WritesDirective d ts p }
{}

/// The words of each statement of lawful statements that have no fault decode, one after another, to
/// the instructions that the statement stands for; no word of it is another instruction.
pub fn words_decode()
    ensures { (all : Statements) (slots : List Name) → IsLawful all → fault_in all ≡ None
        → AllSay (label_in all) slots start all }
{}

/// The pseudo `li` loads its number: after its instructions the register holds the 32-bit word, and
/// every other register is as it was.
pub fn numbers_are_loaded()
    ensures { (p : MemoryAndDevices) (w : Thread) (rd word : ℕ) → MayWrite w rd → word < 2 ^ 32
        → SetsRegister w (after_instructions p w (number_instructions rd word)) rd (integer word) }
{}

/// The two instructions of `cla`, `clg` and `cimport` lead to the place that is meant: from the
/// program counter or from c3, as far on as the label or the slot is from the place from which it
/// counts. The first word's address lies between the two places.
pub fn ways_lead_there()
    ensures between { (at to : ℕ) → AreApart at to → LeadsTo at to }
    ensures text { (p : MemoryAndDevices) (w : Thread) (rd at to : ℕ)
        → MayWrite w rd → AreApart at to
        → LeadsOver w (after_instructions p w (text_instructions at rd to)) rd w.pcc at to }
    ensures global { (p : MemoryAndDevices) (w : Thread) (rd to : ℕ) → MayWrite w rd → AreApart 0 to
        → LeadsOver w (after_instructions p w (global_instructions rd to)) rd (register w 3) 0 to }
    ensures slot { (p : MemoryAndDevices) (w : Thread) (rd at to : ℕ)
        → MayWrite w rd → AreApart at to
        → LeadsToSlot p w rd at to }
    ensures import { (slots : List Name) (at rd : ℕ) (name : Name)
        → import_instructions slots at rd name
        ≡ to_slot rd (8 * length slots + at) (8 * slot_or_zero (slot_of slots name)) }
{}
