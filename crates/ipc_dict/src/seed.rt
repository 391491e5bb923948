//! The seed of the hashes of values.
ghost use Rattle.ipc_dict.specs.Seeds.{first_hasher};

use std::hash::{BuildHasher, DefaultHasher, RandomState};

/// The seed of the hashes of distinct values. No result depends on it, only the time.
#[derive(Clone, Copy, Debug)]
pub enum Seed {
    /// A constant seed. Whoever chooses the values can make their hashes collide; each new value is
    /// then compared with all earlier ones.
    Fixed,
    /// A seed that the program drew at random. Nobody who does not know it can make hashes collide.
    Random(RandomState),
}

impl BuildHasher for Seed {
    type Hasher = DefaultHasher;

    ghost build_hasher = { first_hasher };

    fn build_hasher(&self) -> DefaultHasher {
        match self {
            Seed::Fixed => DefaultHasher::new(),
            Seed::Random(state) => state.build_hasher(),
        }
    }
}
