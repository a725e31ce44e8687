//! Keeps the sessions of users. Each line of input is a command, answered by a line of output.
//!
//! SPDX-License-Identifier: Apache-2.0
#![tactic(auto)]

mod command;
mod store;

use crate::command::{Command, command_in};
use crate::store::{NotLoggedIn, Store};
use std::io::{self, BufRead, BufReader, ErrorKind};

const USAGE: &str =
    "not one of: login TOKEN USER NOW, find TOKEN NOW, touch TOKEN NOW, logout TOKEN, expire NOW, \
     count";

/// How many slots the store has.
const SLOTS: usize = 64;

/// How long a session lasts after each use.
const LIFETIME: u64 = 60;

fn main(rt: HostRuntime) -> io::Result<()> {
    let mut store = Store::new(rt.alloc(), SLOTS, LIFETIME);
    let mut input = BufReader::new(rt.alloc(), rt.reader())?;
    let mut line = Vec::new(rt.alloc());
    for _ in 0..u64::MAX {
        line.clear();
        match input.read_until(b'\n', &mut line) {
            Ok(0) => break,
            Ok(_) => answer(&rt, &mut store, line.as_slice())?,
            // Allocation failed for the line: the rest of it is skipped.
            Err(error) if error.kind() == ErrorKind::OutOfMemory => {
                input.skip_until(b'\n')?;
                println!(rt; "no memory")?;
            }
            Err(error) => return Err(error),
        }
    }
    Ok(())
}

// Executes a command, and prints the answer. Only a login allocates.
fn answer(rt: &HostRuntime, store: &mut Store, line: &[u8]) -> io::Result<()> {
    match command_in(line) {
        Some(Command::Login(token, user, now)) => login(rt, store, token, user, now),
        Some(Command::Find(token, now)) => match store.find(token, now) {
            Some(session) => println!(rt; "{} until {}", session.user, session.deadline),
            None => println!(rt; "no session"),
        },
        Some(Command::Touch(token, now)) => match store.touch(token, now) {
            Some(deadline) => println!(rt; "until {deadline}"),
            None => println!(rt; "no session"),
        },
        Some(Command::Logout(token)) => match store.logout(token) {
            Some(session) => println!(rt; "dropped {} until {}", session.user, session.deadline),
            None => println!(rt; "no session"),
        },
        Some(Command::Expire(now)) => println!(rt; "dropped {}", store.expire(now)),
        Some(Command::Count) => println!(rt; "{}", store.len()),
        None => println!(rt; "bad line, {USAGE}"),
    }
}

fn login(rt: &HostRuntime, store: &mut Store, token: u64, user: &str, now: u64) -> io::Result<()> {
    let Ok(user) = String::from_str(rt.alloc(), user) else {
        return println!(rt; "no memory");
    };
    match store.login(token, user, now) {
        Ok(None) => println!(rt; "until {}", store.deadline(now)),
        Ok(Some((gone, session))) => {
            println!(rt;
                "until {}, evicted {gone} of {}",
                store.deadline(now),
                session.user
            )
        }
        Err(NotLoggedIn::Taken) => println!(rt; "token taken"),
        Err(NotLoggedIn::NoMemory) => println!(rt; "no memory"),
    }
}
