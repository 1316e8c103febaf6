//! Laws of the audit report: its edges are exactly the pairs of neighbours in the sharing graph; and
//! the report lines of three images, computed. Functions with empty bodies whose contracts are the
//! laws.
#![tactic(auto)]

ghost use Rattle.std.specs.Prelude.{ℕ, ◌≡◌, ◌<◌, true, false, [], ◌∷◌, Contains};
ghost use Rattle.ct_entry.specs.Listed.{Listed};
ghost use Rattle.ct_entry.specs.declared.rows.Owner.TheVariants.{Compartment};
ghost use Rattle.def_reach.specs.Route.{Neighbours};
ghost use Rattle.def_boot.specs.Gates.{entries_of};
ghost use Rattle.def_report.specs.Edges.{edges};
ghost use Rattle.def_report.specs.Report.{report_line};
ghost use Rattle.law_image_samples.specs.Tiny.{tiny};
ghost use Rattle.law_image_samples.specs.Board.{board};
ghost use Rattle.law_image_samples.specs.Whole.{whole};
ghost use Rattle.law_report.specs.Written.{board_call, board_data_export, board_frame, board_library, board_library_export, board_quota, board_service, board_stack, board_switch, tiny_line, whole_frame, whole_handler, whole_key, whole_sealed, whole_shared};
ghost use Rattle.def_report.specs.Parts.{entry_text, frame_text};
ghost use Rattle.def_report.specs.Listing.{IsAscending};
ghost use Rattle.law_report.specs.Sharing.{sharing, with_c, without_c};

/// The edges of the report are exactly the pairs of neighbours among the first n compartments, each
/// once, the lesser index first, in ascending order.
pub fn edges_are_the_pairs()
    ensures sound { (e : Listed) (n a b : ℕ) → Contains (edges e n) (a, b)
        → (a < b) × (b < n) × Neighbours e (Compartment a) (Compartment b) }
    ensures complete { (e : Listed) (n a b : ℕ) → a < b → b < n
        → Neighbours e (Compartment a) (Compartment b) → Contains (edges e n) (a, b) }
    ensures order { (e : Listed) (n : ℕ) → IsAscending (edges e n) }
{}

/// Two compartments that import one shared object with letter C have an edge, and no other; with
/// `RW` alone there is none. A call that passes capabilities makes one more.
pub fn edges_of_three()
    ensures shared { edges (entries_of (sharing with_c false)) 3 ≡ (0, 1) ∷ [] }
    ensures plain { edges (entries_of (sharing without_c false)) 3 ≡ [] }
    ensures passing { edges (entries_of (sharing with_c true)) 3 ≡ (0, 1) ∷ (1, 2) ∷ [] }
{}

/// The report line of the smallest sample. Of the larger sample the members beside the entries, and entries of eight
/// kinds. The same of an image with a slot of each kind: a shared and a sealed object, a key, and an export with
/// posture disabled.
pub fn samples_are_reported()
    ensures tiny { report_line tiny ≡ tiny_line }
    ensures board_frame { frame_text board ≡ board_frame }
    ensures board_switch { entry_text board 2 ≡ board_switch }
    ensures board_library { entry_text board 3 ≡ board_library }
    ensures board_call { entry_text board 4 ≡ board_call }
    ensures board_service { entry_text board 5 ≡ board_service }
    ensures board_quota { entry_text board 6 ≡ board_quota }
    ensures board_data_export { entry_text board 12 ≡ board_data_export }
    ensures board_library_export { entry_text board 14 ≡ board_library_export }
    ensures board_stack { entry_text board 16 ≡ board_stack }
    ensures whole_frame { frame_text whole ≡ whole_frame }
    ensures whole_shared { entry_text whole 4 ≡ whole_shared }
    ensures whole_sealed { entry_text whole 5 ≡ whole_sealed }
    ensures whole_key { entry_text whole 9 ≡ whole_key }
    ensures whole_handler { entry_text whole 12 ≡ whole_handler }
{}
