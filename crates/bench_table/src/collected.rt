//! A map of the crate `collections`, which is built on the table.
use crate::hashes::TableHash;
use crate::measured::Measured;
use collections::hash_map::HashMap;
use std::alloc::Global;
use std::io;

/// A map of the collections.
pub(crate) type Collected = HashMap<u64, u64, TableHash>;

impl Measured for Collected {
    fn with_room(alloc: Global, pairs: u64) -> io::Result<Collected> {
        let minimum = (pairs as usize).saturating_mul(2).min(1 << 40);
        Ok(HashMap::with_minimum(alloc, TableHash, minimum))
    }

    #[inline(always)]
    fn put(&mut self, key: u64) -> bool {
        self.insert(key, key).is_ok()
    }

    #[inline(always)]
    fn has(&self, key: u64) -> bool {
        self.contains(&key)
    }

    #[inline(always)]
    fn take(&mut self, key: u64) -> bool {
        self.remove(&key).is_some()
    }

    #[inline(never)]
    fn sum(&mut self) -> u64 {
        let mut sum: u64 = 0;
        let mut add = |_key: &u64, value: &u64| {
            sum = sum.wrapping_add(*value);
        };
        self.for_each(&mut add);
        sum
    }

    #[inline(never)]
    fn iterated(&self) -> u64 {
        let mut sum: u64 = 0;
        for (_, value) in self.iter() {
            sum = sum.wrapping_add(*value);
        }
        sum
    }

    #[inline(never)]
    fn drop_odd(&mut self) -> u64 {
        let before = self.len();
        let mut keep = |_key: &u64, value: &mut u64| -> bool { *value % 2 == 0 };
        self.retain(&mut keep);
        before.saturating_sub(self.len()) as u64
    }
}
