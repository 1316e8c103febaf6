//! The law of a report's labels: no entry is left out of it for want of one.

ghost use Rattle.std.specs.Prelude.{◌≡◌, length, map};
ghost use Rattle.ct_entry.specs.declared.rows.Entry.{Entry};
ghost use Rattle.def_boot.specs.Entries.{entry_rows};
ghost use Rattle.def_image.specs.Parts.{PartsRow};
ghost use Rattle.def_program.specs.Owners.{owner_name};
ghost use Rattle.def_report.specs.Labels.{Label, labels_of};

/// An image has as many labels as entries, so that the report, which numbers entry and label together,
/// has a line for each entry; and the owner's name in each label is that of its entry's owner.
pub fn labels_fit_rows()
    ensures count { (p : PartsRow) → length (labels_of p) ≡ length (entry_rows p) }
    ensures owners { (p : PartsRow) → map (λ (l : Label). l.owner) (labels_of p)
        ≡ map (λ (e : Entry). owner_name p e.owner) (entry_rows p) }
{}
