//! The codes that calls return.

/// Done.
pub const OK: u32 = 0;

/// The key is absent.
pub const ABSENT: u32 = 1;

/// The key is present.
pub const PRESENT: u32 = 2;

/// Allocation failed.
pub const NO_MEMORY: u32 = 3;

/// The handle is closed.
pub const CLOSED: u32 = 4;

/// The handle to be opened is open already.
pub const OPEN: u32 = 5;

/// The handle holds a collection of another kind.
pub const OTHER_KIND: u32 = 6;

/// Done, and another pair was evicted.
pub const EVICTED: u32 = 7;

/// The value is longer than the room for it; its first bytes were output.
pub const TOO_LONG: u32 = 8;
