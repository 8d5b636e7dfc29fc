//! How a jar's tables hash names.
ghost use Rattle.cookie.specs.NameHash as names;

use std::hash::{BuildHasher, DefaultHasher, FoldHasher, Hash, Hasher, RandomState};

// A fast function that is fixed, or a slower one with keys that nobody knows.
#[derive(Clone, Copy)]
pub(crate) enum NameHash {
    Fixed,
    Keyed(RandomState),
}

// The state of either function.
#[derive(Clone, Copy)]
pub(crate) enum NameHasher {
    Fixed(FoldHasher),
    Keyed(DefaultHasher),
}

impl Hasher for NameHasher {
    ghost write = { names.state_after };

    ghost finish = { names.hash_of };

    fn finish(&self) -> u64 {
        match self {
            NameHasher::Fixed(state) => state.finish(),
            NameHasher::Keyed(state) => state.finish(),
        }
    }

    fn write(&mut self, bytes: &[u8]) {
        match self {
            NameHasher::Fixed(state) => state.write(bytes),
            NameHasher::Keyed(state) => state.write(bytes),
        }
    }
}

impl BuildHasher for NameHash {
    type Hasher = NameHasher;

    ghost build_hasher = { names.first_state };

    fn build_hasher(&self) -> NameHasher {
        match self {
            NameHash::Fixed => NameHasher::Fixed(FoldHasher::default()),
            NameHash::Keyed(keys) => NameHasher::Keyed(keys.build_hasher()),
        }
    }

    // It checks once which function it is, but the trait's own body checks at each write.
    fn hash_one<T: Hash + Drop>(&self, x: T) -> u64 {
        match self {
            NameHash::Fixed => {
                let mut state = FoldHasher::default();
                x.hash(&mut state);
                state.finish()
            }
            NameHash::Keyed(keys) => keys.hash_one(x),
        }
    }
}
