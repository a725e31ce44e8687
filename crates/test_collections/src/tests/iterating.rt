//! What the iterators of a map, an index and a cache yield. The stories of each compare it wherever
//! they count pairs.
ghost use Rattle.std.specs.Iterator.{IsFinite};

/// The numbers that an iterator yielded, in its order, up to 256 of them; and how many there were.
#[derive(Drop)]
pub(super) struct Walk {
    numbers: [u64; 256],
    len: usize,
}

impl Walk {
    fn new() -> Self {
        Walk {
            numbers: [0; 256],
            len: 0,
        }
    }

    fn add(&mut self, number: u64) {
        if let Some(place) = self.numbers.get_mut(self.len) {
            *place = number;
        }
        self.len = self.len.saturating_add(1);
    }

    // Whether another iterator yielded the same in the same order.
    fn is_as(&self, other: &Walk) -> bool {
        self.len == other.len && self.numbers == other.numbers
    }

    // Whether each number is below 256 and was yielded once, so that none was left out.
    fn is_distinct(&self) -> bool {
        let mut is_met = [false; 256];
        for number in self.numbers.iter().take(self.len) {
            match is_met.get_mut(*number as usize) {
                Some(place) if !*place => *place = true,
                _ => return false,
            }
        }
        self.len <= 256
    }
}

/// The keys and the values of the pairs that an iterator yielded.
#[derive(Drop)]
pub(super) struct Pairs {
    keys: Walk,
    values: Walk,
}

impl Pairs {
    pub(super) fn new() -> Self {
        Pairs {
            keys: Walk::new(),
            values: Walk::new(),
        }
    }

    pub(super) fn add(&mut self, key: u64, value: u64) {
        self.keys.add(key);
        self.values.add(value);
    }

    // The pair after this many.
    pub(super) fn get(&self, place: usize) -> Option<(u64, u64)> {
        match (self.keys.numbers.get(place), self.values.numbers.get(place)) {
            (Some(key), Some(value)) => Some((*key, *value)),
            _ => None,
        }
    }

    pub(super) fn len(&self) -> usize {
        self.keys.len
    }

    // Whether another iterator yielded the same in the same order.
    pub(super) fn is_as(&self, other: &Pairs) -> bool {
        self.keys.is_as(&other.keys) && self.values.is_as(&other.values)
    }

    // Whether each key is below 256 and was yielded once.
    pub(super) fn are_distinct(&self) -> bool {
        self.keys.is_distinct()
    }

    // Whether these keys were yielded, in this order.
    pub(super) fn has_keys(&self, keys: &[u64]) -> bool {
        self.len() == keys.len() && self.keys.numbers.iter().take(self.len()).eq(keys.iter())
    }
}

// The pairs that an iterator yields.
pub(super) fn walk_pairs<'a, I: Iterator<Item = (&'a u64, &'a u64)> + Drop>(pairs: I) -> Pairs
    requires can { I.can_next pairs }
    requires finite { IsFinite (I.remaining pairs) }
{
    let mut met = Pairs::new();
    for (key, value) in pairs {
        met.add(*key, *value);
    }
    met
}

// The numbers that an iterator yields.
pub(super) fn walk_numbers<'a, I: Iterator<Item = &'a u64> + Drop>(numbers: I) -> Walk
    requires can { I.can_next numbers }
    requires finite { IsFinite (I.remaining numbers) }
{
    let mut walk = Walk::new();
    for number in numbers {
        walk.add(*number);
    }
    walk
}

// How many pairs were yielded, if other iterators yielded the same pairs, keys and values in the
// same order: keys below 256, each once, and as many values; else none.
pub(super) fn same_pairs(met: &Pairs, pairs: &Pairs, keys: &Walk, values: &Walk) -> Option<usize> {
    let are_as = met.is_as(pairs) && met.keys.is_as(keys) && met.values.is_as(values);
    if are_as && met.keys.is_distinct() && keys.len == values.len {
        Some(keys.len)
    } else {
        None
    }
}

/// More buckets than any collection has whose pairs `gone_over` counts.
pub(super) const MOST_BUCKETS: usize = 10_000;

// How many pairs a collection yields: keys below 256, each once and with the value that a look-up
// finds. `for_each`, `for_each_in` of one bucket after the other, the iterator of pairs, and those
// of keys and of values yield the same in the same order; else none.
macro_rules! gone_over {
    ($collection:expr, $look:ident) => {{
        let mut met = Pairs::new();
        $collection.for_each(&mut |key: &u64, value: &u64| met.add(*key, *value));
        for place in 0..met.len() {
            match met.get(place) {
                Some((key, value)) if $collection.$look(&key) == Some(&value) => {}
                _ => return None,
            }
        }
        let (mut in_turn, mut is_over) = (Pairs::new(), false);
        for bucket in 0..MOST_BUCKETS {
            let mut meet = |key: &u64, value: &u64| in_turn.add(*key, *value);
            if !$collection.for_each_in(bucket, &mut meet) {
                is_over = true;
                break;
            }
        }
        if !is_over || !met.is_as(&in_turn) {
            return None;
        }
        let pairs = walk_pairs($collection.into_iter());
        let (keys, values) = (walk_numbers($collection.keys()), walk_numbers($collection.values()));
        same_pairs(&met, &pairs, &keys, &values)
    }};
}

pub(super) use gone_over;
