//! Owners and kinds of entries.

ghost use Rattle.std.specs.Prelude.{◌≡◌};
ghost use Rattle.ct_entry.specs.Kinds as kinds;
ghost use Rattle.def_policy.specs.Breaking as spec;
ghost use Rattle.def_policy.specs.Resources.{imports};

use ct_entry::{Kind, Owner};
use ct_graph::same;
use def_policy::Resource;

/// Whether an owner is one of these.
pub(crate) fn is_listed(owners: &[Owner], owner: Owner) -> bool
    ensures { result ≡ spec.lists_owner owners.now owner }
{
    owners.iter().any(|x| same(*x, owner))
}

/// Whether an entry's kind is that of a resource's imports.
pub(crate) fn imports(resource: Resource, kind: Kind) -> bool
    ensures { result ≡ imports resource kind }
{
    match (resource, kind) {
        (Resource::Device, Kind::Device) => true,
        (Resource::Shared, Kind::Shared) => true,
        (Resource::Service, Kind::Service) => true,
        (Resource::Call, Kind::Call) => true,
        _ => false,
    }
}

pub(crate) fn is_quota(kind: Kind) -> bool
    ensures { result ≡ kinds.is_quota kind }
{
    match kind {
        Kind::Quota => true,
        _ => false,
    }
}

pub(crate) fn is_export(kind: Kind) -> bool
    ensures { result ≡ kinds.is_export kind }
{
    match kind {
        Kind::Export => true,
        _ => false,
    }
}
