//! A table on the heap, held by a pointer that C can carry.
ghost use Rattle.std.specs.Prelude.{◌≡◌, true, Option, Some, None, is_some};
ghost use Rattle.std.specs.Borrow.{sem};
ghost use Rattle.bucket_c.specs.declared.tables.Table.{Table};
ghost use Rattle.bucket_c.specs.Owning.{table_coded};

use crate::parts::Parts;
use crate::tables::Table;
use std::alloc::Global;
use std::marker::{Model, Send};
use std::ptr::null_mut;

/// The pointer to a table's block, or null.
#[repr(C)]
#[derive(Drop)]
pub struct Held {
    at: *mut u8,
    alloc: Global,
    pub ghost table: { Option Table } by { table_coded },
}

impl Model for Held {
    ghost use Rattle.bucket_c.specs.Owning.{owned};

    ghost also_owns = { λ h. owned h.alloc h.at h.table };
}

/// A `Held` is the only owner of its table, and each kind of table may be sent to another thread.
unsafe impl Send for Held {}

impl Held {
    ghost use Rattle.bucket_c.specs.Lending.{lends_table};

    /// Returns a `Held` without a table.
    pub fn none(alloc: Global) -> Held
        ensures { result.table ≡ None }
    {
        Held {
            at: null_mut(),
            alloc,
        }
    }

    /// Returns a `Held` of a boxed table.
    pub fn of(table: Box<Table>) -> Held
        ensures { result.table ≡ Some table.value }
    {
        Held::of_parts(Parts::of(table))
    }

    /// Returns the boxed table.
    pub fn into_box(self) -> Box<Table>
        requires { is_some self.table ≡ true }
        ensures { self.table ≡ Some result.value }
    {
        self.into_parts().into_box()
    }

    /// Lends the table. It takes `&mut self` even for a reader, since an export can't take a struct
    /// with `also_shares`.
    pub fn table(&mut self) -> &mut Table
        requires { is_some self.old.table ≡ true }
        ensures* writes_back { sem 𝓛 (lends_table self.entry result) }
        ensures value { self.old.table ≡ Some result.now }
    {
        unsafe { &mut *(self.at as *mut Table) }
    }

    fn of_parts(parts: Parts<Table, Global>) -> Held
        ensures { result.table ≡ Some parts.value }
    {
        let Parts { ptr, alloc } = parts;
        Held {
            at: ptr as *mut u8,
            alloc,
        }
    }

    fn into_parts(self) -> Parts<Table, Global>
        requires { is_some self.table ≡ true }
        ensures { self.table ≡ Some result.value }
    {
        let Held { at, alloc } = self;
        Parts {
            ptr: at as *mut Table,
            alloc,
        }
    }
}
