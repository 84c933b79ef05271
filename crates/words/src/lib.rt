// Lent areas: big-endian words, and blocks of bytes that are cleared, copied and moved in place.
#![tactic(auto)]

pub mod raw;

ghost use Rattle.std.specs.Prelude.{◌≡◌, length, replicate};
ghost use Rattle.words.specs.Areas.{Zero};
ghost use Rattle.words.specs.Choice.{Tells};

use crate::raw::blocks_are_zero;

// Clears an area.
pub fn zero(s: &mut [u8])
    ensures { s.new ≡ replicate (length s.old) 0 }
{
    s.fill(0);
}

// Whether every byte is zero: 128 at a time, 8 where there are fewer, or each by itself.
pub fn is_zero(s: &[u8]) -> bool
    ensures { Tells (Zero s.now) result }
{
    if s.len() < 8 {
        return bytes_are_zero(s);
    }
    if s.len() < 128 {
        return blocks_are_zero(s, 8);
    }
    blocks_are_zero(s, 128)
}

// Whether every byte is zero: each by itself.
fn bytes_are_zero(s: &[u8]) -> bool
    ensures { Tells (Zero s.now) result }
{
    s.iter().all(|x| *x == 0)
}
