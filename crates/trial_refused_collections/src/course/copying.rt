//! Copies of a map or a set.
use super::Course;

impl Course {
    /// Copies a map or a set, and returns whether the copy has the pairs of the collection, or
    /// allocation failed and there are pairs.
    pub(super) fn copy(&mut self, cloned: bool) -> bool {
        match self.collection.try_copied(cloned) {
            Ok(None) => true,
            Ok(Some(copy)) => {
                self.counts.copied = self.counts.copied.saturating_add(1);
                self.agrees_with(&copy)
            }
            Err(_) => {
                self.counts.uncopied = self.counts.uncopied.saturating_add(1);
                self.beside.len() > 0
            }
        }
    }
}
