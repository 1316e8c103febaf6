//! The numbers of the generated firmware.

ghost use Rattle.std.specs.Prelude.{◌≡◌, [], ◌∷◌, map, true, false};
ghost use Rattle.def_gen.specs.declared.TheConstants as gen;
ghost use Rattle.def_gen.specs.Numbers.{count_of, following, globals_of, passes_data, object_size};

/// How many compartments a number gives, the row of numbers, what a compartment has by its number, RAM,
/// quantum, serial port, quota, exports and threads.
pub fn numbers_of_demo()
    ensures counts { map count_of (0 ∷ 62 ∷ 63 ∷ []) ≡ 2 ∷ 64 ∷ 2 ∷ [] }
    ensures row { map following (0 ∷ 1 ∷ []) ≡ 1013904223 ∷ 1015568748 ∷ [] }
    ensures globals { map globals_of (0 ∷ 63 ∷ 64 ∷ []) ≡ 16 ∷ 1024 ∷ 16 ∷ [] }
    ensures passes { map passes_data (2147483647 ∷ 2147483648 ∷ []) ≡ false ∷ true ∷ [] }
    ensures sizes { map object_size (255 ∷ 256 ∷ 7936 ∷ 8192 ∷ []) ≡ 8 ∷ 16 ∷ 256 ∷ 8 ∷ [] }
    ensures ram { gen.RAM_BASE ∷ gen.RAM_SIZE ∷ [] ≡ 2147483648 ∷ 1048576 ∷ [] }
    ensures quantum { gen.QUANTUM ≡ 50 }
    ensures port { gen.PORT_BASE ≡ 268435456 }
    ensures quota { gen.QUOTA ≡ 4096 }
    ensures export { gen.ARGUMENTS ∷ gen.EXPORT_STACK ∷ [] ≡ 1 ∷ 64 ∷ [] }
    ensures thread { gen.PRIORITY ∷ gen.THREAD_STACK ∷ [] ≡ 1 ∷ 8192 ∷ [] }
{}
