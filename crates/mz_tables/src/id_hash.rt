//! How ids are hashed.
use std::hash::{BuildHasher, FoldHasher, Hasher};

/// The hash of ids under a key. Under a key that is known beforehand, ids can be chosen that
/// share a hash, and reading them takes time with the square of their number.
#[derive(Clone, Copy)]
pub(crate) struct IdHash {
    keyed: FoldHasher,
}

impl IdHash {
    pub(crate) fn new(key: u64) -> IdHash {
        let mut keyed = FoldHasher::default();
        keyed.write_u64(key);
        IdHash { keyed }
    }
}

impl BuildHasher for IdHash {
    type Hasher = FoldHasher;

    ghost build_hasher = { λ hash. hash.keyed };

    fn build_hasher(&self) -> FoldHasher {
        self.keyed
    }
}
