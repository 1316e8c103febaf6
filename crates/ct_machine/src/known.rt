//! A value that only proofs know.

ghost use Rattle.std.specs.Prelude.{◌≡◌};
ghost use Rattle.std.specs.Borrow.{ftrue};

use std::marker::{Model, PhantomData};

/// A value as contracts see it. It takes no memory, and nothing of it is there at run time.
#[derive(Drop)]
pub struct Known<A> {
    of: PhantomData<A>,
    pub ghost value: { A },
}

impl<A> Model for Known<A> {
    ghost also_owns = { λ _. ftrue };
}

impl<A> Known<A> {
    /// What is known of a value, as it is now.
    pub fn of(_value: &A) -> Known<A>
        ensures { result.value ≡ _value.now }
    {
        Known { of: PhantomData }
    }
}
