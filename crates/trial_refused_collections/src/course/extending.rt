//! Pairs inserted into a map or a set in one call, some of them present already.
use super::Course;
use crate::collection::Collection;
use test_helpers::{gather, spread};

// How many pairs are inserted: those of the first numbers.
const MANY: u64 = 64;

impl Course {
    /// Extends a map or a set, and returns whether the result is right.
    pub(super) fn extend(&mut self) -> bool {
        match &mut self.collection {
            Collection::Map(map) => {
                let mut pairs = (0..MANY).map(|number: u64| (spread(number), number));
                let refused = match map.try_extend(&mut pairs) {
                    Ok(()) => None,
                    Err(back) => Some(back.value.0),
                };
                let left = pairs.next().map(|pair: (u64, u64)| pair.0);
                self.extends(true, refused, left)
            }
            Collection::Set(set) => {
                let mut keys = (0..MANY).map(spread);
                let refused = match set.try_extend(&mut keys) {
                    Ok(()) => None,
                    Err(back) => Some(back.value),
                };
                let left = keys.next();
                self.extends(false, refused, left)
            }
            _ => true,
        }
    }

    /// Records what was inserted before the key whose insertion failed. Returns whether that key
    /// was absent, and whether the iterator continues with the next one.
    fn extends(&mut self, has_values: bool, refused: Option<u64>, left: Option<u64>) -> bool {
        let end = match refused {
            Some(key) => gather(key),
            None => MANY,
        };
        for number in 0..end.min(MANY) {
            let value = number.wrapping_mul(u64::from(has_values));
            if self.beside.value(number).is_none() {
                self.puts(number, value);
            } else {
                self.beside.set(number, Some(value));
            }
        }
        if refused.is_none() {
            return left.is_none();
        }
        self.counts.refused = self.counts.refused.saturating_add(1);
        let next = end.saturating_add(1);
        let wanted = (next < MANY).then_some(spread(next));
        end < MANY && self.beside.value(end).is_none() && left == wanted
    }
}
