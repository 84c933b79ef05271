// The keys of the working rows, read once: five words each, in the order of their references.
ghost use Rattle.std.specs.Prelude.{◌≡◌, ◌+◌, ◌*◌, ◌≤◌, length};
ghost use Rattle.working.specs.Inside.Scratch.{Working};
ghost use Rattle.working.specs.Inside.Keys.{key_at, KeyWritten, KeyIn, Keyed};

use crate::looks::{Key, load_key};
use clock::stamp::Timestamp;
use stubs::ActorId;
use words::raw::get_word;

// The key at `at`.
#[tactic(auto, unfolding(crate::specs::Inside::Keys::key_at))]
pub(crate) fn key_at(keys: &[u64], at: usize) -> Key
    requires { at + 5 ≤ length keys.now }
    ensures { result ≡ key_at keys.now at }
{
    let stamp = Timestamp {
        wall_time: keys[at],
        logical_counter: (keys[at + 1] % 4294967296) as u32,
        actor_id: ActorId(keys[at + 2]),
    };
    Key {
        stamp,
        actor: ActorId(keys[at + 3]),
        seq: keys[at + 4],
    }
}

// Writes a key at `at`.
fn write_key(keys: &mut [u64], at: usize, key: Key)
    requires { at + 5 ≤ length keys.old }
    ensures { KeyWritten keys.old keys.new at key }
{
    let stamp = key.stamp;
    keys[at] = stamp.wall_time;
    keys[at + 1] = u64::from(stamp.logical_counter);
    keys[at + 2] = stamp.actor_id.0;
    keys[at + 3] = key.actor.0;
    keys[at + 4] = key.seq;
}

// Puts a key in at i of n: the later ones move up.
pub(crate) fn put_key(keys: &mut [u64], n: usize, i: usize, key: Key)
    requires { (i ≤ n) × (5 * n + 5 ≤ length keys.old) }
    ensures { KeyIn keys.old keys.new n i key }
{
    keys.copy_within(5 * i..5 * n, 5 * i + 5);
    write_key(keys, 5 * i, key);
}

// The keys of the rows of n working references.
pub(crate) fn load_keys(held: &[u8], batch: &[u8], scratch: &[u8], n: usize, keys: &mut [u64])
    requires { Working held.now batch.now scratch.now n × (5 * n ≤ length keys.old) }
    ensures { Keyed held.now batch.now scratch.now keys.new n }
{
    for i in 0..n {
        let k = get_word(scratch, 16 * i);
        let key = load_key(held, batch, k);
        write_key(keys, 5 * i, key);
    }
}
