//! The rule that the words of a line say.

ghost use Rattle.std.specs.Prelude.{◌≡◌, bytes_eq, option_map};
ghost use Rattle.ct_policy.specs.Forms as spec;
ghost use Rattle.ct_policy.specs.Forms.{resource_row, rule_row};
ghost use Rattle.ct_policy.specs.Words.{texts};

use crate::parts::sides_of;
use ct_texts::number_of;
use def_policy::MOST_TOTAL;

/// What a rule keeps to some owners, by its name.
#[derive(Clone, Copy)]
pub(crate) enum ResourceName<'a> {
    Device(&'a [u8]),
    Shared(&'a [u8]),
    Service(&'a [u8]),
    Call(&'a [u8], &'a [u8]),
}

/// A rule, by names.
#[derive(Clone, Copy)]
pub(crate) enum Rule<'a> {
    Only(ResourceName<'a>, &'a [&'a [u8]]),
    Disabled(&'a [&'a [u8]]),
    Data(&'a [u8], &'a [u8]),
    Total(u64),
    Quota(&'a [u8], u64),
    Apart(&'a [u8], &'a [u8]),
}

/// Whether a word is this one.
fn is(word: &[u8], text: &str) -> bool
    ensures { result ≡ bytes_eq word.now text.now }
{
    word == text.as_bytes()
}

/// `only OWNER..`
fn owners_of<'a>(words: &'a [&'a [u8]]) -> Option<&'a [&'a [u8]]>
    ensures { option_map (λ o. texts o.now) result ≡ spec.owners_in (texts words.now) }
{
    match words {
        [only, owners @ ..] => {
            if is(*only, "only") && !owners.is_empty() {
                Some(owners)
            } else {
                None
            }
        }
        _ => None,
    }
}

/// An export, where the name is `COMP.EXPORT`.
fn export_of(name: &[u8]) -> Option<ResourceName<'_>>
    ensures { option_map resource_row result ≡ spec.export_in name.now }
{
    match sides_of(name) {
        Some(sides) => Some(ResourceName::Call(sides.compartment, sides.export)),
        None => None,
    }
}

/// What has this name, by the word of its kind.
fn resource_in<'a>(word: &[u8], name: &'a [u8]) -> Option<ResourceName<'a>>
    ensures { option_map resource_row result ≡ spec.resource_in word.now name.now }
{
    if is(word, "device") {
        return Some(ResourceName::Device(name));
    }
    if is(word, "shared") {
        return Some(ResourceName::Shared(name));
    }
    if is(word, "service") {
        return Some(ResourceName::Service(name));
    }
    if is(word, "call") {
        return export_of(name);
    }
    None
}

/// `device NAME only OWNER..`, and so for each kind of resource, after its first word.
fn only_of<'a>(word: &[u8], words: &'a [&'a [u8]]) -> Option<Rule<'a>>
    ensures { option_map rule_row result ≡ spec.only_in word.now (texts words.now) }
{
    let (name, rest) = match words {
        [name, rest @ ..] => (*name, rest),
        _ => return None,
    };
    let resource = match resource_in(word, name) {
        Some(resource) => resource,
        None => return None,
    };
    match owners_of(rest) {
        Some(owners) => Some(Rule::Only(resource, owners)),
        None => None,
    }
}

/// `disabled only OWNER..`
fn disabled_of<'a>(words: &'a [&'a [u8]]) -> Option<Rule<'a>>
    ensures { option_map rule_row result ≡ spec.disabled_in (texts words.now) }
{
    match owners_of(words) {
        Some(owners) => Some(Rule::Disabled(owners)),
        None => None,
    }
}

/// `data COMP.EXPORT`
fn data_of<'a>(words: &'a [&'a [u8]]) -> Option<Rule<'a>>
    ensures { option_map rule_row result ≡ spec.data_in (texts words.now) }
{
    match words {
        [name] => match sides_of(*name) {
            Some(sides) => Some(Rule::Data(sides.compartment, sides.export)),
            None => None,
        },
        _ => None,
    }
}

/// `quota total N`, `quota OWNER N`
fn quota_of<'a>(words: &'a [&'a [u8]]) -> Option<Rule<'a>>
    ensures { option_map rule_row result ≡ spec.quota_in (texts words.now) }
{
    match words {
        [owner, number] => match number_of(*number, MOST_TOTAL) {
            Some(limit) => {
                if is(*owner, "total") {
                    Some(Rule::Total(limit))
                } else {
                    Some(Rule::Quota(*owner, limit))
                }
            }
            None => None,
        },
        _ => None,
    }
}

/// `apart OWNER COMP`
fn apart_of<'a>(words: &'a [&'a [u8]]) -> Option<Rule<'a>>
    ensures { option_map rule_row result ≡ spec.apart_in (texts words.now) }
{
    match words {
        [owner, compartment] => Some(Rule::Apart(*owner, *compartment)),
        _ => None,
    }
}

/// The rule that these words say; none where they say none.
pub(crate) fn rule_of<'a>(words: &'a [&'a [u8]]) -> Option<Rule<'a>>
    ensures { option_map rule_row result ≡ spec.form_of (texts words.now) }
{
    match words {
        [head, rest @ ..] => rule_by(*head, rest),
        _ => None,
    }
}

/// The rule after its first word.
fn rule_by<'a>(head: &[u8], words: &'a [&'a [u8]]) -> Option<Rule<'a>>
    ensures { option_map rule_row result ≡ spec.form_by head.now (texts words.now) }
{
    if is(head, "disabled") {
        return disabled_of(words);
    }
    if is(head, "data") {
        return data_of(words);
    }
    if is(head, "quota") {
        return quota_of(words);
    }
    if is(head, "apart") {
        return apart_of(words);
    }
    only_of(head, words)
}
