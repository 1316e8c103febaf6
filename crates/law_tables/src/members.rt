//! The members of each part of a description: name, what stands there, and whether it must be there.

ghost use Rattle.std.specs.Prelude.{◌≡◌, [], ◌∷◌, true, false, codes};
ghost use Rattle.def_desc.specs.declared.faults.PartWord.TheVariants as part;
ghost use Rattle.def_desc.specs.declared.tables.Shape.TheVariants as shape;
ghost use Rattle.def_desc.specs.declared.tables.Choice.TheVariants as choice;
ghost use Rattle.def_desc.specs.Tables.{row, inner, members_of, outer_lists, inner_lists};

/// The members of the firmware, RAM and threads; of devices, shared and sealed objects; of compartments, their
/// imports, quotas and exports (a key is a number, and has none); of libraries, their imports and exports. And the
/// lists of a description after the firmware and RAM, and those of a compartment and of a library after it, in the
/// order in which they are judged.
#[tactic(auto, unfolding(def_desc::specs::Tables::members_of, def_desc::specs::Tables::outer_lists, def_desc::specs::Tables::inner_lists))]
pub fn members_of_descriptions()
    ensures firmware { members_of part.Firmware
        ≡ row (codes "firmware") shape.Text true
        ∷ row (codes "version") (shape.Number 1 2) false
        ∷ row (codes "sweep") (shape.Number 1 65536) false
        ∷ row (codes "ram") shape.Object true
        ∷ row (codes "quantum") (shape.Number 1 1000000) false
        ∷ row (codes "devices") (shape.List 16) false
        ∷ row (codes "shared") (shape.List 64) false
        ∷ row (codes "sealed") (shape.List 64) false
        ∷ row (codes "compartments") (shape.List 64) false
        ∷ row (codes "libraries") (shape.List 32) false
        ∷ row (codes "threads") (shape.List 64) false ∷ [] }
    ensures ram { members_of part.Ram
        ≡ row (codes "base") (shape.Multiple 0 4294967280) true
        ∷ row (codes "size") (shape.Multiple 256 67108864) true ∷ [] }
    ensures thread { members_of part.Thread
        ≡ row (codes "name") shape.Text true
        ∷ row (codes "entry") shape.Text true
        ∷ row (codes "priority") (shape.Number 0 15) true
        ∷ row (codes "stack") (shape.Multiple 256 32752) true
        ∷ row (codes "frames") (shape.Number 1 96) true ∷ [] }
    ensures device { members_of part.Device
        ≡ row (codes "name") shape.Text true
        ∷ row (codes "kind") (shape.Among choice.Kind) true
        ∷ row (codes "base") (shape.Number 0 4294967295) true ∷ [] }
    ensures shared { members_of part.Shared
        ≡ row (codes "name") shape.Text true
        ∷ row (codes "size") (shape.Number 1 1048576) true ∷ [] }
    ensures sealed { members_of part.Sealed
        ≡ row (codes "name") shape.Text true
        ∷ row (codes "type") (shape.Number 13 15) true
        ∷ row (codes "bytes") (shape.Bytes 1 1048576) true ∷ [] }
    ensures compartment { members_of part.Compartment
        ≡ row (codes "name") shape.Text true
        ∷ row (codes "code") shape.Code true
        ∷ row (codes "globals") (shape.Number 0 1048576) false
        ∷ row (codes "imports") (shape.List 128) false
        ∷ row (codes "quotas") (shape.List 16) false
        ∷ row (codes "keys") (shape.List 3) false
        ∷ row (codes "exports") (shape.List 64) false ∷ [] }
    ensures import { members_of part.Import
        ≡ row (codes "as") shape.Text true
        ∷ row (codes "device") shape.Text false
        ∷ row (codes "shared") shape.Text false
        ∷ row (codes "sealed") shape.Text false
        ∷ row (codes "call") shape.Text false
        ∷ row (codes "service") shape.Text false
        ∷ row (codes "library") shape.Text false ∷ [] }
    ensures quota { members_of part.Quota
        ≡ row (codes "name") shape.Text true
        ∷ row (codes "limit") (shape.Number 0 2147483647) true ∷ [] }
    ensures key { members_of part.Key ≡ [] }
    ensures export { members_of part.Export
        ≡ row (codes "name") shape.Text true
        ∷ row (codes "at") shape.Offset true
        ∷ row (codes "posture") (shape.Among choice.Posture) false
        ∷ row (codes "args") (shape.Number 0 6) false
        ∷ row (codes "stack") (shape.Number 0 32752) false
        ∷ row (codes "passes") (shape.Among choice.Passes) false ∷ [] }
    ensures library { members_of part.Library
        ≡ row (codes "name") shape.Text true
        ∷ row (codes "code") shape.Code true
        ∷ row (codes "imports") (shape.List 128) false
        ∷ row (codes "exports") (shape.List 64) false ∷ [] }
    ensures library_import { members_of part.Limport
        ≡ row (codes "as") shape.Text true
        ∷ row (codes "library") shape.Text true ∷ [] }
    ensures library_export { members_of part.Lexport
        ≡ row (codes "name") shape.Text true
        ∷ row (codes "at") shape.Offset true
        ∷ row (codes "posture") (shape.Among choice.LibraryPosture) false ∷ [] }
    ensures firmware_lists { outer_lists
        ≡ inner part.Device (codes "devices")
        ∷ inner part.Shared (codes "shared")
        ∷ inner part.Sealed (codes "sealed")
        ∷ inner part.Compartment (codes "compartments")
        ∷ inner part.Library (codes "libraries")
        ∷ inner part.Thread (codes "threads") ∷ [] }
    ensures compartment_lists { inner_lists part.Compartment
        ≡ inner part.Import (codes "imports")
        ∷ inner part.Quota (codes "quotas")
        ∷ inner part.Key (codes "keys")
        ∷ inner part.Export (codes "exports") ∷ [] }
    ensures library_lists { inner_lists part.Library
        ≡ inner part.Limport (codes "imports")
        ∷ inner part.Lexport (codes "exports") ∷ [] }
{}
