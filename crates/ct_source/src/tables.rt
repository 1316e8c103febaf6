//! The tables of words.

ghost use Rattle.std.specs.Prelude.{◌≡◌};
ghost use Rattle.def_source.specs.Source.{first_named};
ghost use Rattle.def_source.specs.Source as source;

use def_source::words::{DIRECTIVES, Directive, HEADS, Head, REGISTERS};

/// What the first row of that name says.
fn find<T: Copy>(table: &[(&'static str, T)], name: &[u8]) -> Option<T>
    ensures { result ≡ first_named (λ row. row.0.now) (λ row. row.1) name.now table.now }
{
    for (known, value) in table {
        if name == known.as_bytes() {
            return Some(*value);
        }
    }
    None
}

/// The directive of a name.
#[tactic(auto, unfolding(def_source::specs::Source::directive_of))]
pub(crate) fn directive(name: &[u8]) -> Option<Directive>
    ensures { result ≡ source.directive_of name.now }
{
    find(&DIRECTIVES, name)
}

/// What a statement of text begins with, by its word.
#[tactic(auto, unfolding(def_source::specs::Source::statement_head))]
pub(crate) fn head(name: &[u8]) -> Option<Head>
    ensures { result ≡ source.statement_head name.now }
{
    find(&HEADS, name)
}

/// The number of a register, by its name.
#[tactic(auto, unfolding(def_source::specs::Source::register_of))]
pub(crate) fn register(name: &[u8]) -> Option<u32>
    ensures { result ≡ source.register_of name.now }
{
    find(&REGISTERS, name)
}
