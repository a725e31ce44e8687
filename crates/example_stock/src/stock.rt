//! The stock, and what was shown last.
use collections::hash_cache::HashCache;
use collections::hash_map::HashMap;
use example_callers::ledger::{self, NotMoved};
use std::alloc::{AllocError, Global};

/// How many of each item there are, and when each of the last ones was shown.
#[derive(Drop)]
pub struct Stock {
    counts: HashMap<String, u64>,
    recent: HashCache<String, u64>,
    shown: u64,
}

impl Stock {
    /// Returns an empty stock.
    pub fn new(alloc: Global) -> Self {
        Stock {
            counts: HashMap::new(alloc),
            recent: HashCache::new(alloc),
            shown: 0,
        }
    }

    /// Answers a line: `add ITEM COUNT`, `take ITEM COUNT`, `show ITEM`, `list`, `recent`, `empty`
    /// or `forget ITEM`.
    pub fn answer(&mut self, alloc: Global, line: &str) -> Result<String, AllocError> {
        let mut words = line.split_whitespace();
        let verb = words.next();
        let item = words.next();
        let count = words.next();
        match (verb, item, count) {
            (Some("add"), Some(item), Some(count)) => self.add(alloc, item, count),
            (Some("take"), Some(item), Some(count)) => self.take(alloc, item, count),
            (Some("show"), Some(item), None) => self.show(alloc, item),
            (Some("list"), None, None) => self.list(alloc),
            (Some("recent"), None, None) => self.recent(alloc),
            (Some("empty"), None, None) => {
                format!(in alloc; "{} of {}", self.empty_items(), self.counts.len())
            }
            (Some("forget"), Some(item), None) => self.forget(alloc, item),
            _ => format!(in alloc; "bad line {line:?}"),
        }
    }

    /// Adds to an item.
    fn add(&mut self, alloc: Global, item: &str, count: &str) -> Result<String, AllocError> {
        let Ok(count) = count.parse::<u64>() else {
            return format!(in alloc; "bad count {count:?}");
        };
        match ledger::add(&mut self.counts, String::from_str(alloc, item)?, count) {
            Ok(sum) => format!(in alloc; "{item} {sum}"),
            Err(NotMoved::NoMemory) => Err(AllocError),
            Err(why) => format!(in alloc; "{item}: {why:?}"),
        }
    }

    /// Takes from an item.
    fn take(&mut self, alloc: Global, item: &str, count: &str) -> Result<String, AllocError> {
        let Ok(count) = count.parse::<u64>() else {
            return format!(in alloc; "bad count {count:?}");
        };
        match ledger::take(&mut self.counts, &String::from_str(alloc, item)?, count) {
            Ok(left) => format!(in alloc; "{item} {left}"),
            Err(why) => format!(in alloc; "{item}: {why:?}"),
        }
    }

    /// Shows an item, and makes it the one shown last.
    fn show(&mut self, alloc: Global, item: &str) -> Result<String, AllocError> {
        let Some(count) = self.counts.get(item) else {
            return format!(in alloc; "no {item}");
        };
        let key = String::from_str(alloc, item)?;
        self.shown = self.shown.wrapping_add(1);
        self.recent.upsert(key, self.shown)?;
        format!(in alloc; "{item} {count}")
    }

    /// How many items have none left.
    fn empty_items(&self) -> usize {
        let mut none = 0usize;
        for count in self.counts.values() {
            if *count == 0 {
                none = none.saturating_add(1);
            }
        }
        none
    }

    /// Lists the items in order.
    fn list(&self, alloc: Global) -> Result<String, AllocError> {
        let mut pairs: Vec<(&String, &u64)> = self.counts.iter().collect(alloc)?;
        pairs.sort()?;
        let mut text = String::new(alloc);
        for (item, count) in &pairs {
            text.push_str(format!(in alloc; "{item} {count}\n")?.as_str())?;
        }
        Ok(text)
    }

    /// Lists the 32 items that were shown last, the last one first.
    fn recent(&self, alloc: Global) -> Result<String, AllocError> {
        let mut pairs = Vec::new(alloc);
        let mut is_ok = true;
        self.recent.for_each(&mut |item: &String, shown: &u64| {
            let pushed = match item.clone() {
                Ok(item) => pairs.push((*shown, item)).is_ok(),
                Err(_) => false,
            };
            is_ok = is_ok && pushed;
        });
        if !is_ok {
            return Err(AllocError);
        }
        pairs.sort()?;
        let mut text = String::new(alloc);
        for (_, item) in pairs.iter().rev().take(32) {
            text.push_str(item.as_str())?;
            text.push_str("\n")?;
        }
        Ok(text)
    }

    /// Drops an item.
    fn forget(&mut self, alloc: Global, item: &str) -> Result<String, AllocError> {
        let key = String::from_str(alloc, item)?;
        let _ = self.recent.remove(&key);
        match self.counts.remove(&key) {
            Some((item, count)) => format!(in alloc; "{item} had {count}"),
            None => format!(in alloc; "no {item}"),
        }
    }
}
