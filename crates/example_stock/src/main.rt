//! Keeps how many of each item are in stock. Each line of input is a command.
//!
//! SPDX-License-Identifier: Apache-2.0
#![tactic(auto)]

mod stock;

use std::io;
use std::io::{BufRead, BufReader};
use stock::Stock;

fn main(rt: HostRuntime) -> io::Result<()> {
    answer_lines(&rt, &mut Stock::new(rt.alloc()))
}

fn answer_lines(rt: &HostRuntime, stock: &mut Stock) -> io::Result<()> {
    for line in BufReader::new(rt.alloc(), rt.reader())?.lines(rt.alloc()) {
        let reply = stock.answer(rt.alloc(), line?.as_str())?;
        println!(rt; "{reply}")?;
    }
    Ok(())
}
