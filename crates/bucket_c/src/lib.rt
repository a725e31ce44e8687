//! Maps, sets, a store and caches of the library `collections` for C: a handle that C carries, and
//! a code for each answer.
//!
//! A call that changes the table takes it out of its handle, makes one call of `bucket_calls`, and
//! puts it back; a call that only reads borrows the table in place. A call requires nothing of its
//! caller: on a closed handle, and on one of another kind, it returns a code. `specs/Tables.antt`
//! defines what a clause means there. The codes and the seed are those of `bucket_calls`.
//!
//! `held.rt` keeps the table's block as a pointer, and `parts.rt` takes a box apart: only their
//! proofs follow the pointer. `bindings/bucket.h` declares the calls for C.
//!
//! SPDX-License-Identifier: Apache-2.0
#![tactic(auto)]

// Makes a call on what a handle holds, if that is of the call's kind, and puts it back.
macro_rules! on_table {
    ($handle:ident, $alloc:ident, $kind:ident($held:ident) => $call:expr) => {{
        let Some(mut table) = $handle.take($alloc) else {
            return CLOSED;
        };
        let code = match &mut *table {
            Table::$kind($held) => $call,
            _ => OTHER_KIND,
        };
        $handle.put(table);
        code
    }};
}

// Makes a call that only reads what a handle holds, if that is of the call's kind.
macro_rules! on_shared {
    ($handle:ident, $kind:ident($held:ident) => $call:expr) => {{
        if !$handle.live {
            return CLOSED;
        }
        match &*$handle.held.table() {
            Table::$kind($held) => $call,
            _ => OTHER_KIND,
        }
    }};
}

mod any;
mod cache;
mod handle;
mod held;
mod map;
mod parts;
mod pieces;
mod set;
mod store;
mod tables;
mod text_cache;
mod text_map;
mod text_set;
