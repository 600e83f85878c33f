//! Numbers as bytes.
ghost use Rattle.std.specs.Prelude.{◌≤◌, IfOk, IfErr};
ghost use Rattle.name_table.specs.{BeginsNumber, WhyUnread};

use crate::error::NameFault;

/// A number is below this.
pub const NUMBER_LIMIT: usize = 4_294_967_296;

/// The most bytes of a number.
pub const MOST_BYTES: u8 = 5;

/// Each byte of a number has a digit below this, and its high bit, which has this value, set if another byte follows.
pub const BASE: usize = 128;

/// Reads the number of at most `room` bytes that the bytes begin with, however large, and returns it with the bytes after it.
/// An error is that of the number at the offset `at`.
pub fn number_within(bytes: &[u8], room: u8, at: usize) -> Result<(usize, &[u8]), NameFault>
    requires { room ≤ MOST_BYTES }
    ensures ok { IfOk result (λ read. BeginsNumber bytes.now room read.0 read.1.now) }
    ensures error { IfErr result (λ error. WhyUnread error at room bytes.now) }
{
    if room == 0 {
        return Err(NameFault::NumberTooLarge { at });
    }
    let Some((first, rest)) = bytes.split_first() else {
        return Err(NameFault::Truncated { at });
    };
    let low = usize::from(*first);
    if low < BASE {
        return Ok((low, rest));
    }
    let (high, rest) = number_within(rest, room - 1, at)?;
    Ok((low % BASE + BASE * high, rest))
}
