//! Tests of buckets, of arrays of buckets, of tables and of scripts, in one crate at the top,
//! since a crate with tests is proved twice. The functions that aren't tests show that generic
//! code reaches a bucket behind a vector, and what a caller can state about calls of a table.
#![tactic(auto)]

#[cfg(test)]
mod arrays;
#[cfg(test)]
mod buckets;
#[cfg(test)]
mod by_key;
#[cfg(test)]
mod by_lock;
#[cfg(test)]
mod caches;
#[cfg(test)]
mod checks;
#[cfg(test)]
mod comparisons;
#[cfg(test)]
mod courses;
#[cfg(test)]
mod cursors;
#[cfg(test)]
mod data_blocks;
#[cfg(test)]
mod digests;
#[cfg(test)]
mod drops;
#[cfg(test)]
mod emptied;
#[cfg(test)]
mod epochs;
pub mod going_on;
#[cfg(test)]
mod growth;
#[cfg(test)]
mod indexes;
#[cfg(test)]
mod maps;
#[cfg(test)]
mod matching;
#[cfg(test)]
mod pointers;
pub mod probe;
#[cfg(test)]
mod recency_lists;
#[cfg(test)]
mod retains;
#[cfg(test)]
mod sizes;
#[cfg(test)]
mod stage;
#[cfg(test)]
mod steps;
#[cfg(test)]
mod tables;
pub mod taking;
#[cfg(test)]
mod updating;
#[cfg(test)]
mod walks;
#[cfg(test)]
mod words;
