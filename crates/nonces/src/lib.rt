#![tactic(auto)]
// The nonces that a unit holds: those issued last, at most sixteen, of which only the newest can be live. Inner calls: those that ask something
// of their caller say so.
ghost use Rattle.std.specs.Prelude.{◌≡◌, ◌++◌, ◌&&◌, ◌*◌, ◌≤◌, length, drop};
ghost use Rattle.laws.specs.Bytes.{all_zero};
ghost use Rattle.tables.specs.Rows.{rows, distinct};
ghost use Rattle.sizes.specs.Sizes.{most_nonces, nonce_size, earlier_room};
ghost use Rattle.nonces.specs.Nonces.{no_nonces, nonces_legal, nonce_fits, count_after, with_issued, spent_nonces};

use sizes::{EARLIER_ROOM, MOST_NONCES, NONCE_SIZE, NONCES_ROOM};

// How many there are; whether the newest is live, that is not yet spent by a write; the newest; and those before it, newest first, a table.
// Kept: no heap, fixed memory: any record may be handed in, also one with bytes behind its nonces, which `legal` judges.
#[derive(Clone, Copy)]
pub struct Nonces {
    pub count: u8,
    pub live: bool,
    pub newest: [u8; NONCE_SIZE],
    pub earlier: [u8; EARLIER_ROOM],
}

// No nonce: zeros in the room.
pub fn none() -> Nonces
    ensures { result ≡ no_nonces }
{
    Nonces {
        count: 0,
        live: false,
        newest: [0; NONCE_SIZE],
        earlier: [0; EARLIER_ROOM],
    }
}

// All of them as one table, newest first; and how long its two parts are.
fn table(newest: [u8; NONCE_SIZE], earlier: [u8; EARLIER_ROOM]) -> [u8; NONCES_ROOM]
    ensures { (result ≡ newest ++ earlier) × (length newest ≡ nonce_size) × (length earlier ≡ earlier_room) }
{
    let mut all = [0u8; NONCES_ROOM];
    octets::put(&mut all, 0, &newest);
    octets::put(&mut all, NONCE_SIZE, &earlier);
    all
}

// Whether no two of a table's nonces are equal, and the room behind them is zero.
fn rows_legal(all: [u8; NONCES_ROOM], count: usize) -> bool
    requires { count ≤ most_nonces }
    ensures { result ≡ (distinct (rows nonce_size count all) && all_zero (drop (count * nonce_size) all)) }
{
    tables::distinct(&all, NONCE_SIZE, count) && octets::all_zero(&all[count * NONCE_SIZE..])
}

// Whether a record's nonces are well formed.
pub fn legal(n: Nonces) -> bool
    ensures { result ≡ nonces_legal n }
{
    if MOST_NONCES < n.count {
        return false;
    }
    rows_legal(table(n.newest, n.earlier), n.count as usize) && (!n.live || 0 < n.count)
}

// Whether these bytes may be issued: eight of them, and none of the nonces held.
pub fn fits(n: Nonces, lent: &[u8]) -> bool
    requires { n.count ≤ most_nonces }
    ensures { result ≡ nonce_fits n lent.now }
{
    let all = table(n.newest, n.earlier);
    lent.len() == NONCE_SIZE && !tables::among(lent, &all, NONCE_SIZE, 0, n.count as usize)
}

// One more than so many nonces, as far as there is room.
fn one_more(count: u8) -> u8
    ensures { result ≡ count_after count }
{
    count.saturating_add(1).min(MOST_NONCES)
}

// The nonces with these bytes issued: the newest, and live. Those before it move one place on, and the oldest of sixteen goes.
pub fn issued(n: Nonces, nonce: [u8; NONCE_SIZE]) -> Nonces
    ensures { result ≡ with_issued nonce n }
{
    let all = table(n.newest, n.earlier);
    Nonces {
        count: one_more(n.count),
        live: true,
        newest: nonce,
        earlier: octets::array(&all[..EARLIER_ROOM]),
    }
}

// The nonces with the newest spent: it stays, and authenticates no further write.
pub fn spent(n: Nonces) -> Nonces
    ensures { result ≡ spent_nonces n }
{
    Nonces { live: false, ..n }
}
