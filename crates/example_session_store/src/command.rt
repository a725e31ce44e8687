//! The lines of the input.
use std::str::SplitWhitespace;

/// A command. Tokens and times are numbers.
#[derive(Clone, Copy)]
pub enum Command<'a> {
    Login(u64, &'a str, u64),
    Find(u64, u64),
    Touch(u64, u64),
    Logout(u64),
    Expire(u64),
    Count,
}

/// Returns the command of a line; `None` if it has none.
pub fn command_in(line: &[u8]) -> Option<Command<'_>> {
    let mut words = str::from_utf8(line).ok()?.split_whitespace();
    let command = match words.next()? {
        "login" => Command::Login(number(&mut words)?, words.next()?, number(&mut words)?),
        "find" => Command::Find(number(&mut words)?, number(&mut words)?),
        "touch" => Command::Touch(number(&mut words)?, number(&mut words)?),
        "logout" => Command::Logout(number(&mut words)?),
        "expire" => Command::Expire(number(&mut words)?),
        "count" => Command::Count,
        _ => return None,
    };
    if words.next().is_some() {
        return None;
    }
    Some(command)
}

fn number(words: &mut SplitWhitespace<'_>) -> Option<u64> {
    words.next()?.parse::<u64>().ok()
}
