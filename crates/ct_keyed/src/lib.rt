//! Hash keys of texts, for sets of names that a text's writer chooses.
//!
//! With a fixed hash a writer can choose names that all fall in one place of a set's table, and each look-up then
//! walks them all. Here a set hashes by SipHash-1-3 with a key from a SHA-256 digest. Of what the digest is, is the
//! caller's to choose: of a text that has all the names, who changes a name changes the key too. No random number is
//! drawn: the same text has the same key.
#![tactic(auto)]

ghost use Rattle.std.specs.Prelude.{◌≡◌};
ghost use Rattle.ct_keyed.specs.Keys.{key_of, key_of_digest, first_hasher};

use core::hash::{DefaultHasher, keyed_hasher};
use sha2::{Digest, Sha256};
use std::hash::BuildHasher;

/// The two numbers of a SipHash key.
#[derive(Clone, Copy, Drop)]
pub struct HashKey {
    pub first: u64,
    pub second: u64,
}

impl HashKey {
    /// The key of a text: the first sixteen bytes of its SHA-256 digest, the lowest byte first.
    pub fn of(bytes: &[u8]) -> HashKey
        ensures { result ≡ key_of bytes.now }
    {
        HashKey::of_digest(Sha256::digest(bytes))
    }

    /// The key of a digest: its first sixteen bytes, the lowest byte first.
    pub fn of_digest(digest: [u8; 32]) -> HashKey
        ensures { result ≡ key_of_digest digest }
    {
        let (words, _) = digest.as_chunks::<8>();
        HashKey {
            first: u64::from_le_bytes(words[0]),
            second: u64::from_le_bytes(words[1]),
        }
    }
}

impl BuildHasher for HashKey {
    type Hasher = DefaultHasher;

    ghost build_hasher = { first_hasher };

    fn build_hasher(&self) -> DefaultHasher {
        keyed_hasher(self.first, self.second)
    }
}
