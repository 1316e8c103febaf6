//! The object of statements.

ghost use Rattle.std.specs.Prelude.{◌≡◌, ◌<◌, [], IfOk, IfErr};
ghost use Rattle.def_source.specs.Source.{IsLawful};
ghost use Rattle.ct_source.specs.Views.{statements_view};
ghost use Rattle.def_object.specs.Object.{text_offset};
ghost use Rattle.ct_asm.specs.Labels.{label_named, IsAssembled, RefusesStatements};

use crate::bytes::section_bytes;
use crate::faults::least_fault;
use crate::labels::Labels;
use crate::names::Names;
use crate::tables::labels_of;
use ct_keyed::HashKey;
use ct_source::compact::CompactStatement;
use def_source::AsmFault;
use def_source::parts::Section;
use std::alloc::Global;
use std::marker::Model;

/// The bytes of the text, the initial bytes of the globals, and the labels, which `find` reads.
#[derive(Drop)]
pub struct Object {
    pub text: Vec<u8>,
    pub init: Vec<u8>,
    labels: Labels,
}

impl Model for Object {
    ghost use Rattle.ct_asm.specs.Labels.{Assembled, AreWithin};

    ghost Value = { Assembled };

    ghost view = { λ o. record { text = o.text.items; init = o.init.items; labels = o.labels } };

    ghost invariant = { λ o. AreWithin o.labels };
}

impl Object {
    /// The object of a text alone, with no initial bytes and no labels.
    pub fn of_text(alloc: Global, text: Vec<u8>) -> Object
        ensures { result ≡ record { text = text.items; init = []; labels = [] } }
    {
        Object {
            text,
            init: Vec::new(alloc),
            labels: Labels::new(alloc, HashKey::of(&[])),
        }
    }

    /// The offset of a label of the text; None exactly where the text has none of that name.
    pub fn find(&self, label: &str) -> Option<u32>
        ensures { result ≡ text_offset (label_named label.now self.now.labels) }
    {
        match self.labels.get(label.as_bytes()) {
            Some(l) => {
                if l.section.is_text() {
                    return Some(l.offset as u32);
                }
                None
            }
            None => None,
        }
    }
}

/// The object of lawful statements, or their least fault.
pub(crate) fn assembled(
    alloc: Global,
    statements: &[CompactStatement<'_>],
    slots: &Names,
) -> Result<Object, AsmFault>
    requires { IsLawful (statements_view statements.now) }
    ensures ok { IfOk result (λ o. IsAssembled (statements_view statements.now) slots.now o) }
    ensures err { IfErr result (λ e. RefusesStatements e (statements_view statements.now)) }
{
    let Ok(found) = labels_of(alloc, statements) else {
        return Err(AsmFault::NoMemory);
    };
    let labels = found.labels;
    if let Some(fault) = least_fault(&labels, found.distinct, statements) {
        return Err(AsmFault::At {
            number: fault.number,
            line: fault.line,
        });
    }
    let Ok(text) = section_bytes(alloc, Section::Text, &labels, slots, statements) else {
        return Err(AsmFault::NoMemory);
    };
    let Ok(init) = section_bytes(alloc, Section::Data, &labels, slots, statements) else {
        return Err(AsmFault::NoMemory);
    };
    Ok(Object { text, init, labels })
}
