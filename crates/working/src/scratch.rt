// The words of the scratch area: entry i has the i-th working reference and, behind it, the i-th logged one.
ghost use Rattle.std.specs.Prelude.{◌+◌, ◌*◌, ◌≤◌, ◌<◌, length};
ghost use Rattle.working.specs.Inside.Columns.{Written, TakenOut, Pushed, PutIn};

use words::raw::{get_word, put_word};

pub(crate) fn put_ref(scratch: &mut [u8], at: usize, k: u64)
    requires { at + 8 ≤ length scratch.old }
    ensures { Written scratch.old scratch.new at k }
{
    put_word(scratch, at, k);
}

// Takes out the working reference j of n: the later ones move down.
pub(crate) fn take_entry(scratch: &mut [u8], n: usize, j: usize)
    requires { (j < n) × (16 * n ≤ length scratch.old) }
    ensures { TakenOut scratch.old scratch.new n j }
{
    for i in j..n - 1 {
        let at = 16 * i;
        let k = get_word(scratch, at + 16);
        put_ref(scratch, at, k);
    }
}

// Puts a reference in at i of n working ones: the later ones move up.
pub(crate) fn put_entry(scratch: &mut [u8], n: usize, i: usize, k: u64)
    requires { (i ≤ n) × (16 * n + 16 ≤ length scratch.old) }
    ensures { PutIn scratch.old scratch.new n i k }
{
    for j in (i..n).rev() {
        let at = 16 * j;
        let x = get_word(scratch, at);
        put_ref(scratch, at + 16, x);
    }
    put_ref(scratch, 16 * i, k);
}

// Notes a reference as the m-th logged one.
pub(crate) fn push_logged(scratch: &mut [u8], m: usize, k: u64)
    requires { 16 * m + 16 ≤ length scratch.old }
    ensures { Pushed scratch.old scratch.new m k }
{
    put_ref(scratch, 16 * m + 8, k);
}
