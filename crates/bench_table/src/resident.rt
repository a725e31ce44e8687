//! The memory of the process.
use std::{fs, io};

/// The number of bytes of a page.
const PAGE: u64 = 4096;

/// Returns how many bytes of the process are in memory; 0 unless `wanted`.
pub(crate) fn resident_bytes(rt: &HostRuntime, wanted: bool) -> io::Result<u64> {
    if !wanted {
        return Ok(0);
    }
    let sizes = fs::read_to_string(rt, "/proc/self/statm")?;
    let Some(word) = sizes.split_whitespace().nth(1) else {
        return Err(io::Error::from(io::ErrorKind::InvalidData));
    };
    match word.parse::<u64>() {
        Ok(pages) => Ok(pages.saturating_mul(PAGE)),
        Err(_) => Err(io::Error::from(io::ErrorKind::InvalidData)),
    }
}
