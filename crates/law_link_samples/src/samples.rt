//! Descriptions that are linked by computing the definition.

ghost use Rattle.std.specs.Prelude.{◌≡◌, [], ◌∷◌, Err, Ok};
ghost use Rattle.ct_entry.specs.declared.rows.Owner.TheVariants.{Compartment, Library};
ghost use Rattle.def_link.specs.declared.LinkFault.TheVariants as fault;
ghost use Rattle.def_link.specs.Linked.{linked};
ghost use Rattle.law_image_samples.specs.Board.{board};
ghost use Rattle.law_image_samples.specs.Tiny.{tiny};
ghost use Rattle.law_link_samples.specs.Samples.{tiny_rows, tiny_in, tiny_at, filed, lent, tiny_source, unknown_mnemonic, undeclared_import, undefined_label, no_main, only_main, stray_bytes, filed_in, import_then_mnemonic, label_then_import, bytes_alone, board_rows, board_sources, but_texts};

/// The smallest sample is linked to the parts of its image, from its words and from their source; in 656 bytes of RAM
/// there is room for its regions, in 640 there isn't. The larger sample and its sources are linked to the parts of its
/// image, all but the texts, which stand there as zeros: its slots, exports, entry numbers, regions and threads.
///
/// And one case of each fault: a mnemonic that isn't one, an import that isn't declared, a label that isn't defined,
/// exports without a place in the text, a library with initial bytes; and of two owners the first one's.
pub fn samples_are_linked()
    ensures words { linked tiny_rows [] ≡ Ok tiny }
    ensures source { linked filed (tiny_source ∷ []) ≡ Ok tiny }
    ensures room { linked (tiny_in 656) [] ≡ Ok (record tiny { size = 656 }) }
    ensures no_room { linked (tiny_in 640) [] ≡ Err (fault.NoRoom 656 640) }
    ensures board { but_texts (linked board_rows board_sources) ≡ Ok board }
    ensures mnemonic { linked filed (unknown_mnemonic ∷ []) ≡ Err (fault.Asm (Compartment 0) 2 2) }
    ensures import { linked filed (undeclared_import ∷ []) ≡ Err (fault.Import (Compartment 0) 1) }
    ensures label { linked filed (undefined_label ∷ []) ≡ Err (fault.Asm (Compartment 0) 6 1) }
    ensures past_the_text { linked (tiny_at 20) [] ≡ Err (fault.Export (Compartment 0) 0) }
    ensures odd_offset { linked (tiny_at 2) [] ≡ Err (fault.Export (Compartment 0) 0) }
    ensures no_label { linked filed (no_main ∷ []) ≡ Err (fault.Export (Compartment 0) 0) }
    ensures text_first { linked filed (import_then_mnemonic ∷ [])
        ≡ Err (fault.Asm (Compartment 0) 2 2) }
    ensures import_next { linked filed (label_then_import ∷ [])
        ≡ Err (fault.Import (Compartment 0) 2) }
    ensures export_next { linked lent (only_main ∷ bytes_alone ∷ [])
        ≡ Err (fault.Export (Library 0) 0) }
    ensures room_last { linked (filed_in 640) (no_main ∷ [])
        ≡ Err (fault.Export (Compartment 0) 0) }
    ensures initial { linked lent (only_main ∷ stray_bytes ∷ []) ≡ Err (fault.Initial (Library 0)) }
    ensures first_owner { linked lent (no_main ∷ stray_bytes ∷ [])
        ≡ Err (fault.Export (Compartment 0) 0) }
{}
