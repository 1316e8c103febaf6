//! What an import names.

ghost use Rattle.std.specs.Prelude.{◌≡◌, option_map, string_bytes};
ghost use Rattle.ct_json.specs.Values.{data_of};
ghost use Rattle.def_desc.specs.References as spec;
ghost use Rattle.ct_desc_rows.specs.Named.{named};

use crate::parts::Import;
use ct_desc_value::members::text_at;
use ct_json::Json;
use def_desc::Form;

/// What an import names: by which member, and the text there.
#[derive(Clone, Copy, PartialEq, Eq, Drop)]
pub struct Target<'a> {
    pub form: Form,
    pub name: &'a str,
}

fn target_or<'a>(form: Form, name: Option<&'a str>, rest: Option<Target<'a>>) -> Option<Target<'a>>
    ensures { option_map named result
        ≡ spec.target_or form (option_map (λ s. s.now) name.entry) (option_map named rest.entry) }
{
    match name {
        Some(name) => Some(Target { form, name }),
        None => rest,
    }
}

/// What the import that a value stands for names, by the first of its members that is there.
pub fn target_at<'a>(value: &Json<'_, 'a>) -> Option<Target<'a>>
    ensures { option_map named result ≡ spec.target_of (spec.import_of (data_of value.now)) }
{
    let library = target_or(Form::Library, text_at(value, "library"), None);
    let service = target_or(Form::Service, text_at(value, "service"), library);
    let call = target_or(Form::Call, text_at(value, "call"), service);
    let sealed = target_or(Form::Sealed, text_at(value, "sealed"), call);
    let shared = target_or(Form::Shared, text_at(value, "shared"), sealed);
    target_or(Form::Device, text_at(value, "device"), shared)
}

fn text_in(text: &Option<String>) -> Option<&str>
    ensures { option_map (λ s. s.now) result ≡ option_map string_bytes text.now }
{
    match text {
        Some(text) => Some(text.as_str()),
        None => None,
    }
}

impl Import {
    /// What it names, by the first of its members that is there; a well-formed import has one.
    pub fn target(&self) -> Option<Target<'_>>
        ensures { option_map named result ≡ spec.target_of self.now }
    {
        let library = target_or(Form::Library, text_in(&self.library), None);
        let service = target_or(Form::Service, text_in(&self.service), library);
        let call = target_or(Form::Call, text_in(&self.call), service);
        let sealed = target_or(Form::Sealed, text_in(&self.sealed), call);
        let shared = target_or(Form::Shared, text_in(&self.shared), sealed);
        target_or(Form::Device, text_in(&self.device), shared)
    }
}
