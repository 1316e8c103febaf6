//! The row *keys open their tokens*.

use crate::seen::is;
use ct_token::Tokens;

#[test]
fn keys_open_their_tokens(rt: HostRuntime) {
    let mut tokens = Tokens::new(rt.alloc(), 64).expect(&rt, "tokens");
    tokens.add_key(1);
    tokens.add_token(2, 1);
    tokens.add_key(3);
    is(&rt, tokens.opens(1, 2), "its key");
    is(&rt, !tokens.opens(3, 2), "another key");
    is(&rt, !tokens.opens(2, 2), "itself as key");
    tokens.drop_row(2);
    is(&rt, !tokens.opens(1, 2), "without its row");
}
