//! The hashers of collections whose types name none: std's default, and std's with a random seed.
pub use bucket_table::key_hash::{KeyHash, StdHash};
pub use std::hash::{BuildHasherDefault, FoldHasher, RandomState};

/// std's default hasher, which a collection uses if its type names none.
pub type DefaultHash = StdHash<BuildHasherDefault<FoldHasher>>;
