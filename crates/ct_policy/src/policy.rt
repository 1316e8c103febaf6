//! A policy, and what denies it.

ghost use Rattle.std.specs.Prelude.{◌≡◌, ◌<◌, ◌^◌, IfOk, MatchResult, length, string_bytes};
ghost use Rattle.def_boot.specs.Gates.{entries_of};
ghost use Rattle.def_policy.specs.Denials.{AllDenied};
ghost use Rattle.def_policy.specs.Texts.{IsPolicyCause, ReadsAsPolicy};

use crate::index::index_of;
use crate::judging::add_ruling;
use crate::reading::read_lines;
use crate::rulings::Ruling;
use ct_entry::Entries;
use ct_graph::Graph;
use ct_image::Image;
use def_policy::PolicyFault;
use def_refusals::NoMemory;
use std::alloc::Global;
use std::marker::Model;

/// The rules of a policy, in the order of its lines, by what their names stand for in an image.
#[derive(Drop)]
pub struct Rules {
    rows: Vec<Ruling>,
}

impl Model for Rules {
    ghost use Rattle.std.specs.Prelude.{List};
    ghost use Rattle.def_policy.specs.Rulings.{Ruling as RulingRow};
    ghost use Rattle.ct_policy.specs.Kept.{AreKept};

    ghost Value = { List RulingRow };

    ghost view = { λ r. r.rows.items };

    ghost invariant = { λ r. AreKept r.rows.items };
}

/// Reads the policy of an image (docs/use/policies.md). The answer `At` names the least line that is
/// at fault, and on it the least fault: 1 where the line has no form, 2 where a name of it stands for
/// nothing in the image; `NoMemory` wants memory.
pub fn read(alloc: Global, bytes: &[u8], image: &Image) -> Result<Rules, PolicyFault>
    requires { length bytes.now < 2 ^ 32 }
    ensures { MatchResult result (λ r. ReadsAsPolicy image.now bytes.now r)
        (λ fault. IsPolicyCause image.now bytes.now fault) }
{
    let parts = image.parts();
    let rows = read_lines(alloc, bytes, parts)?;
    Ok(Rules { rows })
}

/// The lines that deny a policy (docs/use/policies.md): for each rule, in order, one for each entry
/// that breaks it, by the entry's number; or the path of an owner that is to be apart from a compartment
/// and reaches it. It is empty exactly where the policy holds. `NoMemory`: want of memory.
///
/// Condition: `entries` are the image's, and `graph` is their graph. Rules are judged by the indexes and
/// numbers that their names stood for where they were read, so they are to be of this image.
#[tactic(auto, using(crate::proofs::Denying::begins, crate::proofs::Denying::next_rule, crate::proofs::Denying::all_denied, crate::proofs::Denying::kept_at))]
pub fn broken(
    alloc: Global,
    rules: &Rules,
    image: &Image,
    entries: &Entries,
    graph: &Graph,
) -> Result<String, NoMemory>
    requires entries { entries.now ≡ entries_of image.now }
    requires few { length entries.now.rows < 2 ^ 32 }
    requires graph { graph.now ≡ entries_of image.now }
    ensures { IfOk result (λ s. AllDenied image.now 1 rules.now (string_bytes s)) }
{
    let parts = image.parts();
    let index = index_of(alloc, entries)?;
    let mut text = String::new(alloc);
    for place in 0..rules.rows.len() {
        let line = place as u32 + 1;
        let ruling = &rules.rows[place];
        add_ruling(
            alloc, &mut text, line, ruling, parts, entries, &index, graph,
        )?;
    }
    Ok(text)
}
