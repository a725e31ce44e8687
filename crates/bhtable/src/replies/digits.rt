//! Numbers in decimal digits, and lines of a word and numbers.
ghost use Rattle.std.specs.Prelude.{◌≡◌, ◌≤◌, [], ◌∷◌, ◌++◌, OnErr, OnOk, codes, drop};
ghost use Rattle.std.specs.Fmt.{decimal};
ghost use Rattle.std.specs.Io.{StartsWith};
ghost use Rattle.bhtable.specs.OutputLines.{line_of};

use std::alloc::AllocError;

/// Appends a line with a word, the blank after it, and two numbers.
///
/// # Errors
///
/// Allocation failure: the text still begins with its earlier bytes.
///
/// O(bytes of the word).
pub(crate) fn append_pair(
    text: &mut Vec<u8>,
    word: &[u8],
    first: u64,
    second: u64,
) -> Result<(), AllocError>
    ensures appended { OnOk result (text.new.items
        ≡ text.old.items ++ line_of (word.now ++ decimal first ++ codes " " ++ decimal second)) }
    ensures kept { OnErr result (StartsWith text.new.items text.old.items) }
{
    text.extend_from_slice(word)?;
    append_number(text, first, b' ')?;
    append_number(text, second, b'\n')
}

/// Appends a line with a word, the blank after it, and a number.
///
/// # Errors
///
/// Allocation failure: the text still begins with its earlier bytes.
///
/// O(bytes of the word).
#[inline(always)]
pub(crate) fn append_numbered(
    text: &mut Vec<u8>,
    word: &[u8],
    number: u64,
) -> Result<(), AllocError>
    ensures appended { OnOk result (text.new.items
        ≡ text.old.items ++ line_of (word.now ++ decimal number)) }
    ensures kept { OnErr result (StartsWith text.new.items text.old.items) }
{
    text.extend_from_slice(word)?;
    append_number(text, number, b'\n')
}

/// Appends a number's decimal digits, and one byte after them.
///
/// # Errors
///
/// Allocation failure: the text is unchanged.
#[inline(always)]
pub(crate) fn append_number(text: &mut Vec<u8>, number: u64, end: u8) -> Result<(), AllocError>
    ensures appended { OnOk result (text.new.items ≡ text.old.items ++ decimal number ++ end ∷ []) }
    ensures kept { OnErr result (text.new.items ≡ text.old.items) }
{
    let mut digits = [end; 21];
    let start = write_digits(&mut digits, number);
    text.extend_from_slice(&digits[start..])
}

// Writes a number's decimal digits before the last byte, and returns where they start. They are
// made from the last to the first, two at a time.
#[inline(always)]
fn write_digits(digits: &mut [u8; 21], number: u64) -> usize
    ensures start { result ≤ 20 }
    ensures written { drop result digits.new ≡ decimal number ++ drop 20 digits.old }
{
    let mut last = 19;
    let mut rest = number;
    while rest >= 100 {
        let two = (rest % 100) as u8;
        digits[last] = b'0' + two % 10;
        digits[last - 1] = b'0' + two / 10;
        rest /= 100;
        last -= 2;
    }
    if rest < 10 {
        digits[last] = b'0' + rest as u8;
        return last;
    }
    digits[last] = b'0' + (rest % 10) as u8;
    digits[last - 1] = b'0' + (rest / 10) as u8;
    last - 1
}
