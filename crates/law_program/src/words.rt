//! Words, lines and events, computed.

ghost use Rattle.std.specs.Prelude.{◌≡◌, codes, None, Some, [], ◌∷◌, ◌++◌};
ghost use Rattle.ct_entry.specs.declared.rows.Owner.TheVariants.{Compartment, Library};
ghost use Rattle.def_desc.specs.declared.faults.PartWord.TheVariants as part;
ghost use Rattle.def_link.specs.declared.LinkFault.TheVariants as fault;
ghost use Rattle.def_step.specs.declared.Event.TheVariants.{Input, Step, Sweep, Tick};
ghost use Rattle.def_program.specs.Commands.{command_form, Audit, Image, Run, RunImage, Why, Upgrade, Check, Demo};
ghost use Rattle.def_program.specs.Lines.{usage_line, read_line, large_line, description_line, link_text, image_line, name_line, script_line, policy_line, allow_line};
ghost use Rattle.def_program.specs.Runs.{round};
ghost use Rattle.law_desc.specs.Samples.{at};
ghost use Rattle.law_link_samples.specs.Samples.{lent};
ghost use Rattle.def_script.specs.Bytes.{two_bytes};

/// Each form of the words; and words that are none: a limit of 0, with a leading zero or past the
/// most, a number with a leading zero or past the most, a word too many or too few, and a command
/// that isn't one.
pub fn forms_of_words()
    ensures audit { command_form (codes "audit" ∷ codes "a.json" ∷ [])
        ≡ Some (Audit (codes "a.json")) }
    ensures image { command_form (codes "image" ∷ codes "a.json" ∷ [])
        ≡ Some (Image (codes "a.json")) }
    ensures run { command_form (codes "run" ∷ codes "a.json" ∷ codes "100" ∷ [])
        ≡ Some (Run (codes "a.json") 100 None) }
    ensures runimage { command_form (codes "runimage" ∷ codes "a.img" ∷ codes "4000000000" ∷ [])
        ≡ Some (RunImage (codes "a.img") 4000000000 None) }
    ensures why { command_form (codes "why" ∷ codes "a.json" ∷ codes "hex" ∷ codes "app" ∷ [])
        ≡ Some (Why (codes "a.json") (codes "hex") (codes "app")) }
    ensures script { command_form (codes "run" ∷ codes "a.json" ∷ codes "7" ∷ codes "a.script" ∷ [])
        ≡ Some (Run (codes "a.json") 7 (Some (codes "a.script"))) }
    ensures of_image { command_form
        (codes "runimage" ∷ codes "a.img" ∷ codes "7" ∷ codes "a.script" ∷ [])
        ≡ Some (RunImage (codes "a.img") 7 (Some (codes "a.script"))) }
    ensures upgrade { command_form (codes "upgrade" ∷ codes "a.img" ∷ [])
        ≡ Some (Upgrade (codes "a.img")) }
    ensures check { command_form (codes "check" ∷ codes "a.json" ∷ codes "a.policy" ∷ [])
        ≡ Some (Check (codes "a.json") (codes "a.policy")) }
    ensures demo { command_form (codes "demo" ∷ codes "62" ∷ []) ≡ Some (Demo 62) }
    ensures least { command_form (codes "demo" ∷ codes "0" ∷ []) ≡ Some (Demo 0) }
    ensures greatest { command_form (codes "demo" ∷ codes "4294967295" ∷ [])
        ≡ Some (Demo 4294967295) }
    ensures greater { command_form (codes "demo" ∷ codes "4294967296" ∷ []) ≡ None }
    ensures led { command_form (codes "demo" ∷ codes "062" ∷ []) ≡ None }
    ensures signed { command_form (codes "demo" ∷ codes "-1" ∷ []) ≡ None }
    ensures empty { command_form (codes "demo" ∷ [] ∷ []) ≡ None }
    ensures no_steps { command_form (codes "run" ∷ codes "a.json" ∷ codes "0" ∷ []) ≡ None }
    ensures leading { command_form (codes "run" ∷ codes "a.json" ∷ codes "01" ∷ []) ≡ None }
    ensures past { command_form (codes "runimage" ∷ codes "a.img" ∷ codes "4000000001" ∷ [])
        ≡ None }
    ensures few { command_form (codes "run" ∷ codes "a.json" ∷ []) ≡ None }
    ensures many { command_form (codes "audit" ∷ codes "a.json" ∷ codes "b.json" ∷ []) ≡ None }
    ensures other { command_form (codes "link" ∷ codes "a.json" ∷ []) ≡ None }
    ensures none { command_form [] ≡ None }
{}

/// Each line of a refusal, letter by letter.
pub fn refusal_lines()
    ensures usage { usage_line ≡ codes "refused 1 usage" ++ 10 ∷ [] }
    ensures read { read_line (codes "nosuch.json")
        ≡ codes "refused 2 read nosuch.json" ++ 10 ∷ [] }
    ensures large { large_line (codes "a.json") ≡ codes "refused 3 large a.json" ++ 10 ∷ [] }
    ensures no_text { description_line (at 1 part.Firmware 0 0)
        ≡ codes "refused 4 description F1 firmware 0 0" ++ 10 ∷ [] }
    ensures no_device { description_line (at 7 part.Import 0 0)
        ≡ codes "refused 4 description F7 import 0 0" ++ 10 ∷ [] }
    ensures inner { description_line (at 6 part.Lexport 3 12)
        ≡ codes "refused 4 description F6 lexport 3 12" ++ 10 ∷ [] }
    ensures mnemonic { link_text lent (fault.Asm (Compartment 0) 2 2)
        ≡ codes "refused 5 assembly A2 app 2" ++ 10 ∷ [] }
    ensures export { link_text lent (fault.Export (Compartment 0) 1)
        ≡ codes "refused 6 link L1 app 1" ++ 10 ∷ [] }
    ensures room { link_text lent (fault.NoRoom 656 640)
        ≡ codes "refused 6 link L2 656 640" ++ 10 ∷ [] }
    ensures import { link_text lent (fault.Import (Compartment 0) 1)
        ≡ codes "refused 6 link L3 app 1" ++ 10 ∷ [] }
    ensures initial { link_text lent (fault.Initial (Library 0))
        ≡ codes "refused 6 link L4 hex 0" ++ 10 ∷ [] }
    ensures cut { image_line 2 411 ≡ codes "refused 7 image I2 411" ++ 10 ∷ [] }
    ensures name { name_line ≡ codes "refused 11 name" ++ 10 ∷ [] }
    ensures script { script_line 3 2 ≡ codes "refused 8 script S3 2" ++ 10 ∷ [] }
    ensures policy { policy_line 2 17 ≡ codes "refused 13 policy P2 17" ++ 10 ∷ [] }
    ensures allow { allow_line ≡ codes "allow" ++ 10 ∷ [] }
{}

/// The events of a step: the script's bytes, a tick after each quantum, from the second step on, and a
/// slice of a sweep.
pub fn rounds()
    ensures first { round [] 100 1 ≡ Sweep ∷ Step ∷ [] }
    ensures full { round [] 20 20 ≡ Sweep ∷ Step ∷ [] }
    ensures next { round [] 20 21 ≡ Tick ∷ Sweep ∷ Step ∷ [] }
    ensures each { round [] 1 2 ≡ Tick ∷ Sweep ∷ Step ∷ [] }
    ensures inputs { round two_bytes 1 2 ≡ Input 1 65 ∷ Input 0 7 ∷ Tick ∷ Sweep ∷ Step ∷ [] }
{}
