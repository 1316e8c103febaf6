//! The program's own numbers.

ghost use Rattle.std.specs.Prelude.{◌≡◌, [], ◌∷◌, map};
ghost use Rattle.def_program.specs.declared.Status.TheVariants as status;
ghost use Rattle.def_program.specs.declared.TheConstants.{DEMO_STEPS, MOST_NUMBER};
ghost use Rattle.def_program.specs.Codes.{code_of};

/// The statuses in the order of their numbers, from 0; the greatest number that a firmware is generated from, and
/// the steps that `demo` makes of it at most.
pub fn numbers_of_the_program()
    ensures statuses { map code_of
        (status.Done ∷ status.Usage ∷ status.ReadFault ∷ status.TooLarge ∷ status.Description
        ∷ status.Assembly ∷ status.Link ∷ status.Image ∷ status.Script ∷ status.WriteFault
        ∷ status.NoMemory ∷ status.Name ∷ status.Denied ∷ status.Policy ∷ [])
        ≡ 0 ∷ 1 ∷ 2 ∷ 3 ∷ 4 ∷ 5 ∷ 6 ∷ 7 ∷ 8 ∷ 9 ∷ 10 ∷ 11 ∷ 12 ∷ 13 ∷ [] }
    ensures number { MOST_NUMBER ≡ 4294967295 }
    ensures steps { DEMO_STEPS ≡ 100000 }
{}
