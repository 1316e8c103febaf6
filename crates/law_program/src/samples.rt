//! What is due on the smallest sample.

ghost use Rattle.std.specs.Prelude.{◌≡◌, codes, List, None, ℕ, [], ◌∷◌, ◌++◌};
ghost use Rattle.def_desc.specs.WellFormed.{WellFormed};
ghost use Rattle.def_image.specs.Accepted.{IsImage};
ghost use Rattle.def_image.specs.Parts.{PartsRow};
ghost use Rattle.def_image.specs.Spelling.{image_bytes};
ghost use Rattle.def_report.specs.Report.{report_line};
ghost use Rattle.def_program.specs.declared.Status.TheVariants as status;
ghost use Rattle.def_program.specs.Commands.{Command, Audit, Image, Run, RunImage, file_of, generated_by};
ghost use Rattle.def_program.specs.Runs.{run_text};
ghost use Rattle.def_program.specs.Turns.{Asks, Ends, Follows};
ghost use Rattle.law_image_samples.specs.Tiny.{tiny};
ghost use Rattle.law_link_samples.specs.Samples.{tiny_rows, tiny_in, filed, tiny_source, unknown_mnemonic};

use law_link_samples::samples_are_linked;

/// First the command's file is due, if it has one. Of the smallest sample's description then, by its words, the
/// report, the image and the run; with too little RAM the refusal; of its form with a source first
/// that file, and then the same run, or the refusal of the source. Of bytes that are an image, its run.
pub fn samples_are_told()
    ensures first { (c : Command) → generated_by c ≡ None → Follows c [] (Asks (file_of c)) }
    ensures audit { (name bytes : List ℕ) → WellFormed bytes tiny_rows
        → Follows (Audit name) (bytes ∷ []) (Ends status.Done (report_line tiny)) }
    ensures image { (name bytes : List ℕ) → WellFormed bytes tiny_rows
        → Follows (Image name) (bytes ∷ []) (Ends status.Done (image_bytes tiny)) }
    ensures run { (name bytes : List ℕ) (limit : ℕ) → WellFormed bytes tiny_rows
        → Follows (Run name limit None) (bytes ∷ []) (Ends status.Done (run_text tiny [] limit)) }
    ensures no_room { (name bytes : List ℕ) → WellFormed bytes (tiny_in 640)
        → Follows (Audit name) (bytes ∷ [])
        (Ends status.Link (codes "refused 6 link L2 656 640" ++ 10 ∷ [])) }
    ensures source { (name bytes : List ℕ) (limit : ℕ) → WellFormed bytes filed
        → Follows (Run name limit None) (bytes ∷ []) (Asks (codes "app.s")) }
    ensures by_source { (name bytes : List ℕ) (limit : ℕ) → WellFormed bytes filed
        → Follows (Run name limit None) (bytes ∷ tiny_source ∷ [])
        (Ends status.Done (run_text tiny [] limit)) }
    ensures mnemonic { (name bytes : List ℕ) → WellFormed bytes filed
        → Follows (Audit name) (bytes ∷ unknown_mnemonic ∷ [])
        (Ends status.Assembly (codes "refused 5 assembly A2 app 2" ++ 10 ∷ [])) }
    ensures by_image { (name bytes : List ℕ) (limit : ℕ) (p : PartsRow) → IsImage bytes p
        → Follows (RunImage name limit None) (bytes ∷ []) (Ends status.Done (run_text p [] limit)) }
{
    samples_are_linked();
}
