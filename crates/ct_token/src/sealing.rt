//! The seal of a token taken off.

ghost use Rattle.std.specs.Prelude.{◌≡◌};
ghost use Rattle.def_step.specs.Tokens.{opened_token};
ghost use Rattle.def_words.specs.Capability.{cap_of};

use ct_cap::{Cap, Live, expand, open};

/// A capability without its seal; tag, root and source stay.
pub fn opened(c: Live) -> Live
    ensures { result ≡ opened_token c }
{
    with_word(c, open(c).cap.word)
}

/// Another word, with the tag and the shadow of a capability; an untagged one comes from nowhere.
fn with_word(c: Live, word: u64) -> Live
    ensures { result ≡ cap_of c.tag word c.shadow }
{
    if !c.cap.tag {
        return Live::plain(word);
    }
    expand(Cap {
        tag: true,
        word,
        shadow: c.cap.shadow,
    })
}
