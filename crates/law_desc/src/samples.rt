//! Descriptions that are judged by computing the definitions.

ghost use Rattle.std.specs.Prelude.{◌≡◌, ℕ, [], ◌∷◌, codes, None, Some};
ghost use Rattle.serde_json.specs.Data.{string};
ghost use Rattle.law_desc.specs.Samples.{at, empty, tiny, tiny_of, tiny_importing, tiny_on, tiny_in, tiny_run_by, altered, with, all, num, app, words, export, import, uart, ram, thread, text, service_of, board};
ghost use Rattle.def_desc.specs.declared.faults.PartWord.TheVariants as part;
ghost use Rattle.def_desc.specs.Reading.{at_of, description_of};
ghost use Rattle.def_desc.specs.WellFormed.{IsFaulty, fault_of};

/// Small descriptions, and what is wrong with them. A number from 2^32 on isn't cut before it is judged: an export may
/// begin anywhere, as far as a description goes, and a key's number is outside its limit before 0 is the second such
/// number; the place of an export is the file's number, whatever its size. What a description means that leaves a
/// number out: version 1, a rate of 64 granules, which the second version has too, and a quantum of 100 steps.
///
/// Of each other rule a description that breaks it, and where: an open brace alone, members that aren't listed, a name
/// with a capital letter, names that stand twice; rights of another kind, a service that isn't listed, a device at no
/// multiple of 16, two at one address, RAM over the native entries; and of two faults the one of the lesser number,
/// though it stands later. And the sample with an application, a driver, a library, two threads, a quota and code in
/// files is well-formed.
pub fn samples_are_judged()
    ensures well_formed { fault_of tiny ≡ None }
    ensures empty { fault_of empty ≡ Some (at 2 part.Firmware 0 0) }
    ensures no_device { fault_of
        (tiny_of
        (altered app (codes "imports")
        (all (altered import (codes "device") (string (codes "uart9")) ∷ []))))
        ≡ Some (at 7 part.Import 0 0) }
    ensures sweep { fault_of (with tiny (codes "sweep") (num 32)) ≡ Some (at 6 part.Firmware 0 0) }
    ensures at { fault_of
        (tiny_of
        (altered app (codes "exports")
        (all (altered export (codes "at") (num 4294967296) ∷ []))))
        ≡ None }
    ensures keys { fault_of
        (tiny_of (with app (codes "keys") (all (num 4294967296 ∷ num 0 ∷ []))))
        ≡ Some (at 6 part.Key 0 0) }
    ensures place { (n : ℕ) → (at_of (with empty (codes "at") (num n))).offset ≡ n }
    ensures left_out_version { (description_of empty).version ≡ 1 }
    ensures left_out_rate { (description_of empty).sweep ≡ 64 }
    ensures left_out_rate_2 { (description_of (with empty (codes "version") (num 2))).sweep ≡ 64 }
    ensures left_out_quantum { (description_of empty).quantum ≡ 100 }
    ensures no_text { IsFaulty (codes "{") (at 1 part.Firmware 0 0) }
    ensures unlisted { fault_of (with tiny (codes "colour") (num 1))
        ≡ Some (at 3 part.Firmware 0 0) }
    ensures beside_code { fault_of
        (tiny_of (altered app (codes "code") (with words (codes "size") (num 1))))
        ≡ Some (at 3 part.Compartment 0 0) }
    ensures rights_beside_a_service { fault_of
        (tiny_importing (with (service_of (codes "yield")) (codes "rights") (text (codes "W"))))
        ≡ Some (at 3 part.Import 0 0) }
    ensures capital { fault_of (tiny_on (altered uart (codes "name") (text (codes "Uart0")) ∷ []))
        ≡ Some (at 4 part.Device 0 0) }
    ensures thread_as_compartment { fault_of
        (tiny_run_by (altered thread (codes "name") (text (codes "app"))))
        ≡ Some (at 5 part.Thread 0 0) }
    ensures switch { fault_of
        (tiny_importing (altered import (codes "as") (text (codes "switch"))))
        ≡ Some (at 5 part.Import 0 0) }
    ensures rights { fault_of
        (tiny_importing (altered import (codes "rights") (text (codes "RC"))))
        ≡ Some (at 8 part.Import 0 0) }
    ensures service { fault_of (tiny_importing (service_of (codes "frob")))
        ≡ Some (at 9 part.Import 0 0) }
    ensures odd_device { fault_of (tiny_on (altered uart (codes "base") (num 268435464) ∷ []))
        ≡ Some (at 10 part.Device 0 0) }
    ensures two_devices { fault_of
        (tiny_on (uart ∷ altered uart (codes "name") (text (codes "uart1")) ∷ []))
        ≡ Some (at 10 part.Device 1 0) }
    ensures ram_over_native { fault_of (tiny_in (altered ram (codes "base") (num 65536)))
        ≡ Some (at 10 part.Ram 0 0) }
    ensures lesser_number { fault_of
        (with (tiny_run_by (with thread (codes "colour") (num 1))) (codes "sweep") (num 32))
        ≡ Some (at 3 part.Thread 0 0) }
    ensures board { fault_of board ≡ None }
{}
