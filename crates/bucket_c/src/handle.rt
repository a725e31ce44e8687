//! A handle of a table, open or closed.
ghost use Rattle.std.specs.Prelude.{◌≡◌, Some, None, is_some, MatchOption};
ghost use Rattle.bucket_c.specs.Tables.{Opens};

use crate::held::Held;
use crate::tables::Table;
use bucket_calls::codes::{NO_MEMORY, OK, OPEN};
use std::alloc::Global;
use std::marker::Send;
use std::mem::replace;

/// A handle to a table, opaque to C. All zero bytes are a closed handle.
#[repr(C)]
#[derive(Drop)]
pub struct Handle {
    pub held: Held,
    pub live: bool,
    ghost same: { live ≡ is_some held.table },
}

impl Handle {
    /// Takes the table out, and leaves the handle closed; `None` if it was closed.
    pub fn take(&mut self, alloc: Global) -> Option<Box<Table>>
        ensures taken { MatchOption result (self.old.held.table ≡ None)
            (λ table. self.old.held.table ≡ Some table.value) }
        ensures closed { self.new.held.table ≡ None }
    {
        let closed = Handle {
            held: Held::none(alloc),
            live: false,
        };
        let Handle { held, live } = replace(self, closed);
        if live {
            return Some(held.into_box());
        }
        None
    }

    /// Puts a table into a closed handle.
    pub fn put(&mut self, table: Box<Table>)
        requires { self.old.held.table ≡ None }
        ensures { self.new.held.table ≡ Some table.value }
    {
        *self = Handle {
            held: Held::of(table),
            live: true,
        };
    }

    /// Opens a closed handle on a table; an open one stays as it is.
    pub fn open(&mut self, alloc: Global, table: Table) -> u32
        ensures { Opens table self.old.held.table result self.new.held.table }
    {
        if self.live {
            return OPEN;
        }
        match Box::new(alloc, table) {
            Ok(table) => {
                self.put(table);
                OK
            }
            Err(_) => NO_MEMORY,
        }
    }
}

/// Compile-time check that a handle may be sent to another thread.
pub fn handles_cross(handle: &Handle) {
    crosses(handle);
}

fn crosses<T: Send>(_value: &T) {}
