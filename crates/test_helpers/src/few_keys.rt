//! A reference model of a map with few keys. It is an array and allocates nothing, so programs can
//! use it while allocations fail.

/// The number of keys: they are the numbers below it.
pub const KEYS: u64 = 512;

/// The value under each key.
#[derive(Drop)]
pub struct FewKeys {
    values: [Option<u64>; 512],
}

impl FewKeys {
    /// No key has a value.
    pub fn new() -> Self {
        FewKeys {
            values: [None; 512],
        }
    }

    /// The value under a key.
    pub fn value(&self, key: u64) -> Option<u64> {
        *self.values.get(key as usize)?
    }

    /// How many keys have a value.
    pub fn len(&self) -> usize {
        let mut len: usize = 0;
        for value in &self.values {
            len = len.saturating_add(usize::from(value.is_some()));
        }
        len
    }

    /// Sets the value of a key, or removes it.
    pub fn set(&mut self, key: u64, value: Option<u64>) {
        if let Some(place) = self.values.get_mut(key as usize) {
            *place = value;
        }
    }

    /// Removes the values of the keys below a bound, and returns how many there were.
    pub fn drop_below(&mut self, bound: u64) -> usize {
        let len = self.len();
        for key in 0..bound.min(KEYS) {
            self.set(key, None);
        }
        len.saturating_sub(self.len())
    }
}
