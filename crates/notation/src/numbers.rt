// Numbers, read from digits.
ghost use Rattle.notation.specs.Left.{Took, left};
ghost use Rattle.notation.specs.Numbers.{number};
ghost use Rattle.std.specs.Prelude.{◌≡◌};

use crate::pieces::Pieces;

// The number that 1 to 10 digits write, if it is at most 4,294,967,295.
// One pass over the digits: a test that all are digits, then `from_utf8` and `parse`, would be three.
pub fn read_number(bytes: &[u8]) -> Option<u32>
    ensures { result ≡ number bytes.now }
{
    if bytes.is_empty() || bytes.len() > 10 {
        return None;
    }
    let mut value = 0u64;
    for b in bytes {
        if !b.is_ascii_digit() {
            return None;
        }
        value = value * 10 + u64::from(*b - b'0');
    }
    u32::try_from(value).ok()
}

// The next piece, read as a number.
// Not one function with `next_part`: one that takes the reader, and requires that it may be called, is longer than both.
pub fn next_number(source: &mut Pieces) -> Option<u32>
    ensures { Took number (left source.old) result (left source.new) }
{
    read_number(source.next_piece()?)
}
