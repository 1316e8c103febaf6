//! What a source's labels and sections are, said of the whole list of statements at once: sums of
//! lengths; and what its fault is, by what each number stands for. Functions with empty bodies, whose
//! contracts are the laws.

ghost use Rattle.std.specs.Prelude.{ℕ, ◌≡◌, List, Bool, false, None, Some, Ok, Err, length, slice_get};
ghost use Rattle.def_source.specs.Source.{Name, Statements, line_of, lines_of, program_of};
ghost use Rattle.def_source.specs.declared.AsmFault.{AsmFault};
ghost use Rattle.def_source.specs.declared.AsmFault.TheVariants.{At};
ghost use Rattle.def_source.specs.declared.parts.Line.{Line};
ghost use Rattle.def_source.specs.declared.parts.Section.{Section};
ghost use Rattle.def_source.specs.declared.parts.Section.TheVariants as section;
ghost use Rattle.def_source.specs.declared.parts.Statement.{Statement};
ghost use Rattle.def_object.specs.declared.Label.{Label};
ghost use Rattle.def_object.specs.Object.{label_in, is_label, text_of, initial_of};
ghost use Rattle.def_assembly.specs.Faults.{LineBreaks, IsLineFault, IsSourceFault, NoneBreaks};
ghost use Rattle.def_assembly.specs.Sums.{AreSizes, IsPlaced, section_at, total_before};

/// A label's value is the sum of the lengths of the statements before it that stand in its section; it is the first of
/// its name. A name has none exactly where no statement is a label of that name.
///
/// Each list of statements has lengths, one list of them, and the bytes of each section are as many as the lengths of
/// its statements add up to.
pub fn labels_are_offsets()
    ensures label_some { (all : Statements) (sizes : ℕ → ℕ) (name : Name) (l : Label)
        → AreSizes all sizes → label_in all name ≡ Some l → IsPlaced all sizes name l }
    ensures label_none { (all : Statements) (name : Name) → label_in all name ≡ None
        → (k : ℕ) (x : Statement Name) → slice_get all k ≡ Some x → is_label name x.part ≡ false }
    ensures section_some { (all : Statements) → (sizes : ℕ → ℕ) × AreSizes all sizes }
    ensures section_one { (all : Statements) (sizes others : ℕ → ℕ) → AreSizes all sizes
        → AreSizes all others → (k : ℕ) (x : Statement Name) → slice_get all k ≡ Some x
        → sizes k ≡ others k }
    ensures section_text { (all : Statements) (sizes : ℕ → ℕ) (slots : List Name)
        → AreSizes all sizes
        → length (text_of all slots)
        ≡ total_before (section_at all) sizes section.Text (length all) }
    ensures section_initial { (all : Statements) (sizes : ℕ → ℕ) (slots : List Name)
        → AreSizes all sizes
        → length (initial_of all slots)
        ≡ total_before (section_at all) sizes section.Data (length all) }
{}

/// A line's fault is the least number that it breaks, each by its own condition, and a line that is
/// read, with a statement on it or without one, breaks nothing; a source's fault is that of the first
/// line that breaks anything, and where a source has statements no line does.
pub fn faults_are_least()
    ensures line { (s : Section) (line : List ℕ) (n : ℕ) → line_of s line ≡ Err n
        → IsLineFault s line n }
    ensures lawful { (s : Section) (line : List ℕ) (l : Line Name) → line_of s line ≡ Ok l
        → (n : ℕ) → LineBreaks s line n → ⊥ }
    ensures source { (text : List ℕ) (e : AsmFault) → program_of text ≡ Err e
        → (number : ℕ) × (line : ℕ) × (e ≡ At number line) × IsSourceFault text number line }
    ensures statements { (text : List ℕ) (all : Statements) → program_of text ≡ Ok all
        → NoneBreaks section.Text (lines_of text) (length (lines_of text)) }
{}
