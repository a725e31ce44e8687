//! The measured calls on a map of numbers, and the two maps: a table, and the standard library's.
use crate::hashes::{MapHash, TableHash};
use bucket_slots::bucket::{Bucket, MAP};
use bucket_table::hash_table::{HashTable, ResizeRule};
use std::alloc::Global;
use std::collections::HashMap;
use std::io;

/// A map of numbers. Each value is its key.
pub(crate) trait Measured: Drop {
    /// Returns a map without pairs, with room for at least that many.
    fn with_room(alloc: Global, pairs: u64) -> io::Result<Self>
    where
        Self: Sized;

    /// Inserts a key that the map does not contain, and returns whether it was inserted.
    fn put(&mut self, key: u64) -> bool;

    /// Returns whether the map contains a key.
    fn has(&self, key: u64) -> bool;

    /// Removes a key, and returns whether the map contained it.
    fn take(&mut self, key: u64) -> bool;

    /// Returns the sum of all values, wrapping.
    fn sum(&mut self) -> u64;

    /// Returns that sum by the map's iterator.
    fn iterated(&self) -> u64;

    /// Removes each odd key, and returns how many were removed.
    fn drop_odd(&mut self) -> u64;
}

/// A table.
pub(crate) type Table = HashTable<u64, u64, TableHash, (), MAP>;

/// The standard library's map.
pub(crate) type Map = HashMap<u64, u64, MapHash>;

impl Measured for Table {
    fn with_room(alloc: Global, pairs: u64) -> io::Result<Table> {
        let minimum = (pairs as usize).saturating_mul(2).min(1 << 40);
        Ok(HashTable::new(alloc, TableHash, minimum, 1 << 63))
    }

    #[inline(always)]
    fn put(&mut self, key: u64) -> bool {
        self.insert_pair(key, key, &(), ResizeRule::Sampled).is_ok()
    }

    #[inline(always)]
    fn has(&self, key: u64) -> bool {
        self.peek_entry(&key).is_some()
    }

    #[inline(always)]
    fn take(&mut self, key: u64) -> bool {
        HashTable::take(self, &key, ResizeRule::Sampled).is_some()
    }

    #[inline(never)]
    fn sum(&mut self) -> u64 {
        let mut sum: u64 = 0;
        let mut reads = |bucket: &Bucket<u64, u64, (), MAP>| -> bool {
            sum = sum.wrapping_add(sum_of(bucket));
            true
        };
        match self.for_each_reader_sync(&mut reads) {
            Ok(()) => sum,
            Err(_) => 0,
        }
    }

    #[inline(never)]
    fn iterated(&self) -> u64 {
        let mut sum: u64 = 0;
        for (_, value) in self.pairs() {
            sum = sum.wrapping_add(*value);
        }
        sum
    }

    #[inline(never)]
    fn drop_odd(&mut self) -> u64 {
        match self.sweep(&|_key: &u64, value: &u64| -> bool { value % 2 == 0 }, &()) {
            Ok(count) => count as u64,
            Err(_) => 0,
        }
    }
}

/// Returns the sum of a bucket's values.
#[inline(always)]
fn sum_of(bucket: &Bucket<u64, u64, (), MAP>) -> u64 {
    let mut sum: u64 = 0;
    let mut add = |_key: &u64, value: &u64| {
        sum = sum.wrapping_add(*value);
    };
    bucket.for_each(&mut add);
    sum
}

impl Measured for Map {
    fn with_room(alloc: Global, pairs: u64) -> io::Result<Map> {
        Ok(HashMap::with_capacity_and_hasher(alloc, pairs as usize, MapHash)?)
    }

    #[inline(always)]
    fn put(&mut self, key: u64) -> bool {
        self.insert(key, key).is_ok()
    }

    #[inline(always)]
    fn has(&self, key: u64) -> bool {
        self.contains_key(&key)
    }

    #[inline(always)]
    fn take(&mut self, key: u64) -> bool {
        self.remove(&key).is_some()
    }

    #[inline(never)]
    fn sum(&mut self) -> u64 {
        let mut sum: u64 = 0;
        for (_, value) in self.iter() {
            sum = sum.wrapping_add(*value);
        }
        sum
    }

    #[inline(never)]
    fn iterated(&self) -> u64 {
        let mut sum: u64 = 0;
        for (_, value) in self.iter() {
            sum = sum.wrapping_add(*value);
        }
        sum
    }

    #[inline(never)]
    fn drop_odd(&mut self) -> u64 {
        let before = self.len();
        self.retain(|_key, value| *value % 2 == 0);
        before.saturating_sub(self.len()) as u64
    }
}
