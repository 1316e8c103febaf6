//! What a rule means in an image.

ghost use Rattle.std.specs.Prelude.{◌≡◌, IfOk, option_map};
ghost use Rattle.def_image.specs.Sound.{Sound};
ghost use Rattle.def_policy.specs.Names as name;
ghost use Rattle.def_policy.specs.Rulings as spec;
ghost use Rattle.ct_policy.specs.Forms.{resource_row, rule_row};
ghost use Rattle.ct_policy.specs.Words.{texts};

use crate::forms::{ResourceName, Rule};
use crate::names::{
    compartment_named, device_named, export_named, owner_named, owners_named, shared_named,
};
use ct_desc_value::tables::service_of;
use ct_entry::Owner;
use ct_image_parts::Parts;
use def_policy::{Resource, Subject};
use std::alloc::{AllocError, Global};
use std::marker::Model;

/// A rule by what its names stand for: what it is about, and the owners that it lists.
#[derive(Drop)]
pub(crate) struct Ruling {
    pub subject: Subject,
    pub owners: Vec<Owner>,
}

impl Model for Ruling {
    ghost use Rattle.def_policy.specs.Rulings.{Ruling as RulingRow};

    ghost Value = { RulingRow };

    ghost view = { λ r. record { subject = r.subject; owners = r.owners.items } };
}

/// A rule that lists owners.
fn only(
    alloc: Global,
    parts: &Parts,
    subject: Option<Subject>,
    names: &[&[u8]],
) -> Result<Option<Ruling>, AllocError>
    requires { Sound parts.now }
    ensures { IfOk result
        (λ found. found ≡ spec.only subject (name.owners_named parts.now (texts names.now))) }
{
    let subject = match subject {
        Some(subject) => subject,
        None => return Ok(None),
    };
    match owners_named(alloc, parts, names)? {
        Some(owners) => Ok(Some(Ruling { subject, owners })),
        None => Ok(None),
    }
}

/// A rule that lists none.
fn alone(alloc: Global, subject: Option<Subject>) -> Option<Ruling>
    ensures { result ≡ spec.alone subject }
{
    match subject {
        Some(subject) => Some(Ruling {
            subject,
            owners: Vec::new(alloc),
        }),
        None => None,
    }
}

/// An owner and a compartment that are to be apart.
fn apart(owner: Option<Owner>, compartment: Option<u32>) -> Option<Subject>
    ensures { result ≡ spec.apart owner compartment }
{
    match owner {
        Some(owner) => match compartment {
            Some(compartment) => Some(Subject::Apart(owner, compartment)),
            None => None,
        },
        None => None,
    }
}

/// The kind of what has a name.
fn resource_of(name: ResourceName) -> Resource
    ensures { result ≡ spec.resource_of (resource_row name.entry) }
{
    match name {
        ResourceName::Device(_) => Resource::Device,
        ResourceName::Shared(_) => Resource::Shared,
        ResourceName::Service(_) => Resource::Service,
        ResourceName::Call(_, _) => Resource::Call,
    }
}

/// The number of what a name stands for.
fn resource_named(parts: &Parts, name: ResourceName) -> Option<u32>
    requires { Sound parts.now }
    ensures { result ≡ spec.resource_named parts.now (resource_row name.entry) }
{
    match name {
        ResourceName::Device(name) => device_named(parts, name),
        ResourceName::Shared(name) => shared_named(parts, name),
        ResourceName::Service(name) => service_of(name),
        ResourceName::Call(compartment, export) => export_named(parts, compartment, export),
    }
}

fn about_resource(resource: Resource, found: Option<u32>) -> Option<Subject>
    ensures { result ≡ option_map (λ n. Subject.Only resource n) found }
{
    match found {
        Some(number) => Some(Subject::Only(resource, number)),
        None => None,
    }
}

fn about_data(found: Option<u32>) -> Option<Subject>
    ensures { result ≡ option_map (λ n. Subject.Data n) found }
{
    match found {
        Some(entry) => Some(Subject::Data(entry)),
        None => None,
    }
}

fn about_quota(found: Option<Owner>, limit: u64) -> Option<Subject>
    ensures { result ≡ option_map (λ o. Subject.Quota o limit) found }
{
    match found {
        Some(owner) => Some(Subject::Quota(owner, limit)),
        None => None,
    }
}

/// What a rule means; none where a name stands for nothing.
#[tactic(auto, unfolding(def_policy::specs::Rulings::meant))]
pub(crate) fn ruling_of(
    alloc: Global,
    parts: &Parts,
    rule: Rule,
) -> Result<Option<Ruling>, AllocError>
    requires { Sound parts.now }
    ensures { IfOk result (λ found. found ≡ spec.meant parts.now (rule_row rule.entry)) }
{
    match rule {
        Rule::Only(name, owners) => {
            let subject = about_resource(resource_of(name), resource_named(parts, name));
            only(alloc, parts, subject, owners)
        }
        Rule::Disabled(owners) => only(alloc, parts, Some(Subject::Disabled), owners),
        Rule::Data(compartment, export) => {
            let entry = export_named(parts, compartment, export);
            Ok(alone(alloc, about_data(entry)))
        }
        Rule::Total(limit) => Ok(alone(alloc, Some(Subject::Total(limit)))),
        Rule::Quota(owner, limit) => {
            Ok(alone(alloc, about_quota(owner_named(parts, owner), limit)))
        }
        Rule::Apart(owner, compartment) => {
            let from = owner_named(parts, owner);
            let to = compartment_named(parts, compartment);
            Ok(alone(alloc, apart(from, to)))
        }
    }
}
