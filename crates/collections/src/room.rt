//! A token which states that a table fits in memory: made with the collection, and kept in it.
//!
//! A table's calls require that its type is smaller than 2^63 bytes. Generic code whose signature
//! doesn't name the table's type has to prove that. A collection therefore keeps a token of it.
use bucket_slots::lru::LruList;
use bucket_table::key_hash::KeyHash;
use std::marker::{Model, PhantomData};

/// The statement that a type fits in memory.
pub(crate) trait Room {
    /// States that the type fits in memory.
    ghost Fits: { Type 0 };
}

/// A token that a type fits in memory.
#[derive(Drop)]
pub(crate) struct Fits<R: Room> {
    of: PhantomData<R>,
}

impl<R: Room> Model for Fits<R> {
    ghost Value = { Unit {0} };

    ghost view = { λ _. tt };

    ghost invariant = { λ _. R.Fits };
}

impl<R: Room> Fits<R> {
    /// Returns a token.
    pub(crate) fn new() -> Self
        requires { R.Fits }
    {
        Fits { of: PhantomData }
    }

    /// States that the type fits in memory. Does nothing at run time.
    pub(crate) fn fact_fits(&self)
        ensures { R.Fits }
    {
        let _ = &self.of;
    }
}

/// The statement that the table of a collection fits in memory.
pub(crate) struct TableRoom<K, V, H, L, const TYPE: u8>(PhantomData<(K, V, H, L)>);

impl<K: Eq, V, H: KeyHash<K>, L: LruList, const TYPE: u8> Room for TableRoom<K, V, H, L, TYPE> {
    ghost use Rattle.std.specs.Mem.{FitsInMemory};
    ghost use Rattle.bucket_table.specs.Views.TableRow.{table_row};

    ghost Fits = { FitsInMemory (table_row K.row V.row H.row L.row TYPE.row K.PartialEq H.KeyHash
        (record { KEEPS = L.KEEPS; listed = L.listed; IsTail = L.IsTail }) L.Default) };
}
