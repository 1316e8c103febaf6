//! The names of a description's sources.

ghost use Rattle.std.specs.Prelude.{◌≡◌, ◌++◌, [], map, IfOk, OnOk};
ghost use Rattle.def_desc.specs.Rows as row;
ghost use Rattle.def_program.specs.Turns as spec;
ghost use Rattle.ct_commands.specs.Whole.{texts};

use ct_desc_rows::{Code, Compartment, Desc, Library};
use std::alloc::{AllocError, Global};

/// Adds the file of a code that has one.
fn add_file<'a>(names: &mut Vec<&'a str>, code: &'a Code) -> Result<(), AllocError>
    ensures { OnOk result
        (texts names.new.items ≡ texts names.old.items ++ spec.with_file code.now.file []) }
{
    if let Some(name) = &code.file {
        names.push(name.as_str())?;
    }
    Ok(())
}

/// Adds the files of compartments.
#[tactic(auto, using(crate::proofs::Named::file_next))]
fn add_own<'a>(names: &mut Vec<&'a str>, rows: &'a [Compartment]) -> Result<(), AllocError>
    ensures { OnOk result
        (texts names.new.items ≡ texts names.old.items
        ++ spec.files_in (map (λ (c : row.DescCompartment). c.code) rows.now)) }
{
    for row in rows {
        add_file(names, &row.code)?;
    }
    Ok(())
}

/// Adds the files of libraries.
#[tactic(auto, using(crate::proofs::Named::file_next))]
fn add_lent<'a>(names: &mut Vec<&'a str>, rows: &'a [Library]) -> Result<(), AllocError>
    ensures { OnOk result
        (texts names.new.items ≡ texts names.old.items
        ++ spec.files_in (map (λ (l : row.LibraryRow). l.code) rows.now)) }
{
    for row in rows {
        add_file(names, &row.code)?;
    }
    Ok(())
}

/// The names of a description's sources, those of compartments first. An error is want of memory.
#[tactic(auto, using(crate::proofs::Named::both_files))]
pub(crate) fn source_names<'a>(alloc: Global, desc: &'a Desc) -> Result<Vec<&'a str>, AllocError>
    ensures { IfOk result (λ v. texts v.items ≡ spec.source_names desc.now) }
{
    let mut names = Vec::new(alloc);
    add_own(&mut names, desc.compartments.as_slice())?;
    add_lent(&mut names, desc.libraries.as_slice())?;
    Ok(names)
}
