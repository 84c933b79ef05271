// The lists of nonces in a peer's record, of which at most 8 are used. What comes back has zero in every unused place.
ghost use Rattle.std.specs.Prelude.{◌≡◌, ◌≤◌, ◌<◌, ◌==◌, position};
ghost use Rattle.peer.specs.Peers.{nonces, pings_of, push};
ghost use Rattle.peer.specs.Inside.NoncePlaces.{without};

use crate::Pings;

// The same nonces.
pub(crate) fn tidy(p: Pings) -> Pings
    requires { p.count ≤ 8 }
    ensures { result ≡ pings_of (nonces p) }
{
    let count = p.count;
    let mut nonces = p.nonces;
    nonces[count..].fill(0);
    Pings { nonces, count }
}

// One more nonce; of nine the oldest goes.
pub(crate) fn push_nonce(p: Pings, n: u64) -> Pings
    requires { p.count ≤ 8 }
    ensures { result ≡ pings_of (push (nonces p) n) }
{
    let Pings { mut nonces, count } = tidy(p);
    if count < 8 {
        nonces[count] = n;
        return Pings {
            nonces,
            count: count + 1,
        };
    }
    nonces.copy_within(1..8, 0);
    nonces[7] = n;
    Pings { nonces, count }
}

// Where n first stands.
pub(crate) fn find_nonce(p: Pings, n: u64) -> Option<usize>
    requires { p.count ≤ 8 }
    ensures { result ≡ position (λ m. m == n) (nonces p) }
{
    p.nonces[..p.count].iter().position(|m| *m == n)
}

// Without the nonce at i.
pub(crate) fn remove_nonce(p: Pings, i: usize) -> Pings
    requires { (p.count ≤ 8) × (i < p.count) }
    ensures { result ≡ pings_of (without i (nonces p)) }
{
    let count = p.count;
    let mut nonces = p.nonces;
    nonces.copy_within(i + 1..count, i);
    tidy(Pings {
        nonces,
        count: count - 1,
    })
}
