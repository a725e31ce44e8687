//! The mask of the bytes that equal one byte.
ghost use Rattle.std.specs.Prelude.{◌≤◌};

use crate::checks::check_same;
use bucket_slots::matcher::match_partial_hash;
use std::process::Abort;

// Thirty-two bytes, all zero except the last.
const LAST_IS_NINE: [u8; 32] = [
    0, 0, 0, 0, 0, 0, 0, 0, 0, 0, 0, 0, 0, 0, 0, 0, 0, 0, 0, 0, 0, 0, 0, 0, 0, 0, 0, 0, 0, 0, 0, 9,
];

// Four bytes, the byte that is looked for, and the sum of 2^i over each i whose byte equals it.
const BLOCKS: [([u8; 4], u8, u32); 5] = [
    ([7, 7, 0, 7], 7, 11),
    ([7, 7, 0, 7], 0, 4),
    ([7, 7, 0, 7], 1, 0),
    ([255, 0, 255, 0], 255, 5),
    ([3, 3, 3, 3], 3, 15),
];

// The same of thirty-two bytes.
const WHOLE_ROWS: [([u8; 32], u8, u32); 4] = [
    ([0; 32], 0, 4294967295),
    (LAST_IS_NINE, 9, 2147483648),
    (LAST_IS_NINE, 0, 2147483647),
    (LAST_IS_NINE, 1, 0),
];

// Sets of places in a row, a bit each: none, all, and those of each residue modulo 2 and 3.
const PLACES: [u32; 7] = [
    0, 0xFFFFFFFF, 0x55555555, 0xAAAAAAAA, 0x49249249, 0x92492492, 0x24924924,
];

#[test]
fn sets_the_bit_of_each_equal_byte_of_a_block_and_of_a_whole_row(rt: HostRuntime) {
    for (bytes, byte, mask) in &BLOCKS {
        check_row(&rt, bytes, *byte, *mask);
    }
    for (bytes, byte, mask) in &WHOLE_ROWS {
        check_row(&rt, bytes, *byte, *mask);
    }
}

#[test]
fn agrees_with_a_loop_on_every_byte_at_each_place(rt: HostRuntime) {
    for byte in 0..=255u8 {
        for places in &PLACES {
            check_row(&rt, &row_with::<4>(byte, *places), byte, *places % 16);
            check_row(&rt, &row_with::<32>(byte, *places), byte, *places);
        }
        for place in 0..32u32 {
            let places = 1u32 << place;
            check_row(&rt, &row_with::<4>(byte, places), byte, places % 16);
            check_row(&rt, &row_with::<32>(byte, places), byte, places);
        }
    }
}

// Checks that the matcher and a loop return the mask of the places.
fn check_row<const LEN: usize>(rt: &impl Abort, bytes: &[u8; LEN], byte: u8, places: u32)
    requires { LEN ≤ 32 }
{
    let found = (match_partial_hash(bytes, byte), mask_by_loop(bytes, byte));
    if found != (places, places) {
        check_same(rt, found, (places, places), (LEN, byte));
    }
}

// A row with the byte at these places. Each other byte differs from it in one bit.
fn row_with<const LEN: usize>(byte: u8, places: u32) -> [u8; LEN] {
    let mut bytes = [byte; LEN];
    for i in 0..LEN {
        if i < 32 && places >> i as u32 & 1 == 0 {
            bytes[i] = byte ^ 1 << (i % 8) as u32;
        }
    }
    bytes
}

// The mask of the bytes that equal one byte, found by looking at each.
fn mask_by_loop(bytes: &[u8], byte: u8) -> u32 {
    let mut mask = 0;
    for (i, own) in bytes.iter().enumerate() {
        if i < 32 && *own == byte {
            mask |= 1u32 << i as u32;
        }
    }
    mask
}
