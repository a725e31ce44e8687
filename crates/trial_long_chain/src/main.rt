//! Buckets with long chains: blocks that are reserved and freed, and pairs with one hash. It prints
//! a line for each part.
//!
//! Nothing here is recursive or keeps an array on the stack, so only the chain can need much stack:
//! `trials/long_chain.sh` runs the program on a small one.
#![tactic(auto)]

mod blocks;
mod by_key;
mod one_hash;

use std::io;

fn main(rt: HostRuntime) -> io::Result<()> {
    blocks::drop_them(&rt)?;
    blocks::kill_them(&rt)?;
    blocks::clear_them(&rt)?;
    one_hash::come_and_go(&rt)
}
