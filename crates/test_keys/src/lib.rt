//! Tests of the collections with keys and values of many types, in a crate of their own, since a
//! crate with tests is proved twice.
#![tactic(auto)]

#[cfg(test)]
mod tests;
