// No call of document 01: each function here requires that what it touches lies within the area, and
// serves the crates above, which have tested that.
ghost use Rattle.std.specs.Prelude.{◌≡◌, ◌+◌, ◌*◌, ◌≤◌, ◌<◌, length};
ghost use Rattle.words.specs.Be.{be64, get64, bes};
ghost use Rattle.words.specs.Areas.{put_at, Zero};
ghost use Rattle.words.specs.Choice.{Tells};
ghost use Rattle.words.specs.Inside.Moves.{ZeroIn, moved_up, moved_down};

// The big-endian word at `at`. It compiles to one load, which eight bytes copied by `copy_from_slice` do not always.
pub fn get_word(s: &[u8], at: usize) -> u64
    requires { at + 8 ≤ length s.now }
    ensures { result ≡ get64 s.now at }
{
    u64::from_be_bytes([
        s[at],
        s[at + 1],
        s[at + 2],
        s[at + 3],
        s[at + 4],
        s[at + 5],
        s[at + 6],
        s[at + 7],
    ])
}

// Writes v at `at` as a big-endian word.
pub fn put_word(s: &mut [u8], at: usize, v: u64)
    requires { at + 8 ≤ length s.old }
    ensures { s.new ≡ put_at s.old at (be64 v) }
{
    copy(s, at, &v.to_be_bytes());
}

// Writes words one after the other from `at` on.
pub fn put_words(s: &mut [u8], at: usize, ws: &[u64])
    requires { at + 8 * length ws.now ≤ length s.old }
    ensures { s.new ≡ put_at s.old at (bes ws.now) }
{
    for (i, w) in ws.iter().enumerate() {
        put_word(s, at + 8 * i, *w);
    }
}

// Whether every byte is zero: n at a time, and the last n as a block that may overlap the one before it.
pub fn blocks_are_zero(s: &[u8], n: usize) -> bool
    requires { (0 < n) × (n ≤ length s.now) }
    ensures { Tells (Zero s.now) result }
{
    for i in (0..s.len() - n).step_by(n) {
        if !block_is_zero(s, i, n) {
            return false;
        }
    }
    block_is_zero(s, s.len() - n, n)
}

// Whether the n bytes at `at` are zero: all of them are looked at, so that a constant n compiles to wide loads.
fn block_is_zero(s: &[u8], at: usize, n: usize) -> bool
    requires { at + n ≤ length s.now }
    ensures { Tells (ZeroIn s.now at (at + n)) result }
{
    let mut zero = true;
    for x in &s[at..at + n] {
        if *x != 0 {
            zero = false;
        }
    }
    zero
}

// Copies all of s to d, from `at` on. A loop: `copy_from_slice` compiles to a call of `memmove`, which the library for C would
// then need from outside.
pub fn copy(d: &mut [u8], at: usize, s: &[u8])
    requires { at + length s.now ≤ length d.old }
    ensures { d.new ≡ put_at d.old at s.now }
{
    for (i, x) in s.iter().enumerate() {
        d[at + i] = *x;
    }
}

// Moves the bytes from `from` up to `to` up by `by`, in place.
pub fn move_up(s: &mut [u8], from: usize, to: usize, by: usize)
    requires { (from ≤ to) × (to + by ≤ length s.old) }
    ensures { s.new ≡ moved_up from to by s.old }
{
    s.copy_within(from..to, from + by);
}

// Moves the bytes from `from` up to `to` down by `by`, in place.
pub fn move_down(s: &mut [u8], from: usize, to: usize, by: usize)
    requires { (by ≤ from) × (from ≤ to) × (to ≤ length s.old) }
    ensures { s.new ≡ moved_down from to by s.old }
{
    s.copy_within(from..to, from - by);
}
