//! Calls on the collections, each of which returns a code: the exports of `bucket_c` make them on
//! what a handle holds. Nothing here depends on handles.
//!
//! `specs/Codes.antt` defines which answer of the library has which code, and `specs/Views.antt`
//! how clauses see the collections. Keys are hashed with a seed, `seed.rt`. A key is made from the
//! form that a call is given, `copied_key.rt`, only if the collection does not contain it.
//! `copying.rt`, `buckets.rt` and `texts_in.rt` copy pairs into buffers of C, encoded by
//! `words.rt`.
//!
//! SPDX-License-Identifier: Apache-2.0
#![tactic(auto)]

pub mod buckets;
mod bytes;
pub mod caches;
pub mod codes;
pub mod copied_key;
pub mod copies;
pub mod copying;
pub mod maps;
pub mod seed;
pub mod stores;
pub mod texts;
pub mod texts_in;
pub mod words;
