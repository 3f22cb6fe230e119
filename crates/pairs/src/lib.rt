// The test that needs no table (request 8 of paper 02): whether some string that a pattern matches extends to a longer one that it matches.
// Pairs of leaves decide it (source 000): a pair is reached if one string leads to both of its leaves. The test fails if the string may end after one leaf of a reached
// pair and go on after the other to a live leaf, one from which an end can be reached; or if it may end before its first byte and some first leaf is live.
// The pairs live in the first 1,024 bytes of a lent area, as 128 rows of 64 bits: bit q of row p is set if the pair of p and q is reached, and bit q of row 64 + p if it
// is pending, its steps still to be taken. A row of pending pairs is taken at a time.
#![tactic(auto)]

ghost use Rattle.std.specs.Prelude.{◌≡◌, ◌+◌, ◌*◌, ◌≤◌, ◌<◌, length};
ghost use Rattle.verdict.specs.Area.{cleared};
ghost use Rattle.pairs.specs.Rows.{row_at, put_row, MarkedBy, with_each, sharing};
ghost use Rattle.pairs.specs.Leaves.{Shares, Shared, LivePass, LiveLeaves};
ghost use Rattle.pairs.specs.Steps.{Searches, Decides};
ghost use Rattle.pairs.specs.Tested.{Tested};

use follow::SetsView;

// How many bytes of the area the test needs.
pub const AREA: usize = 1024;

// As many turns as there are pairs are enough: each takes one at least.
const PAIRS: usize = 4096;

// How the test ends.
#[derive(Clone, Copy, PartialEq, Eq)]
pub enum Ending {
    // no matched string extends to a longer matched one
    Passes,
    // some does
    Fails,
}

// The area is too short for the test.
#[derive(Clone, Copy, PartialEq, Eq)]
pub struct TooShort;

// What the test works out of a pattern's tables: for each leaf those that share a byte with it, the leaves that come right after it, and whether an end stands after it.
#[derive(Clone, Copy)]
struct Leaves<'a> {
    shares: &'a [u64; 64],
    sets: &'a [u64; 65],
    ending: u64,
}

// Row k of the area: eight bytes, the lowest first.
fn row(area: &[u8], k: usize) -> u64
    requires { 8 * k + 8 ≤ length area.now }
    ensures { result ≡ row_at area.now k }
{
    let mut bytes = [0; 8];
    bytes.copy_from_slice(&area[8 * k..8 * k + 8]);
    u64::from_le_bytes(bytes)
}

fn put_row(area: &mut [u8], k: usize, x: u64)
    requires { 8 * k + 8 ≤ length area.old }
    ensures { area.new ≡ put_row area.old k x }
{
    area[8 * k..8 * k + 8].copy_from_slice(&x.to_le_bytes());
}

// The bytes that the test needs become zero, the rest is kept.
fn clear(area: &mut [u8])
    requires { 1024 ≤ length area.old }
    ensures { area.new ≡ cleared area.old }
{
    area[..AREA].fill(0);
}

// The leaves of a mask take its byte: each of them shares it with all of them.
fn share(shares: &mut [u64; 64], mask: u64)
    requires { length shares.old ≡ 64 }
    ensures { Shared shares.old mask shares.new }
{
    let mut rest = mask;
    while let Some(t) = words::take_least(rest) {
        shares[t.leaf] = words::union(shares[t.leaf], mask);
        rest = t.rest;
    }
}

// The same for the next mask, unless it is the last one, whose leaves share already: neighbouring bytes often have the same.
fn share_next(shares: &mut [u64; 64], mask: u64, last: u64)
    requires { (length shares.old ≡ 64) × Shared shares.old last shares.old }
    ensures { Shared shares.old mask shares.new }
{
    if mask != last {
        share(shares, mask);
    }
}

// For each leaf the leaves that share a byte with it. A leaf whose set is empty shares none, not even with itself.
fn shares_of(masks: &[u64; 256]) -> [u64; 64]
    ensures { Shares masks.now result }
{
    let mut shares = [0u64; 64];
    let mut last = 0;
    for mask in masks {
        share_next(&mut shares, *mask, last);
        last = *mask;
    }
    shares
}

impl Leaves<'_> {
    // One pass over the leaves, from the last: live is a leaf that takes a byte and is followed by an end or by a live leaf.
    fn live_pass(self, old: u64) -> u64
        ensures { LivePass self.entry.shares.now self.entry.sets.now self.entry.ending old result }
    {
        let mut live = old;
        for p in (0..64).rev() {
            let leads = words::either(words::has(self.ending, p), self.sets[p + 1] & live != 0);
            let takes = words::has(self.shares[p], p);
            live = words::with_if(words::both(takes, leads), live, p);
        }
        live
    }

    // The live leaves: passes until one finds no more.
    fn live(self) -> u64
        ensures { LiveLeaves self.entry.shares.now self.entry.sets.now self.entry.ending result }
    {
        let mut live = 0;
        let mut more = self.live_pass(live);
        while live != more {
            live = more;
            more = self.live_pass(live);
        }
        live
    }
}

// The pairs of the leaf c with the leaves of a set are reached, and those that were not are pending. Hands back the leaves that have a pending pair: a number by value,
// beside the area that a caller lends and whose length is asked in clauses, since it is the caller's.
fn mark(area: &mut [u8], c: usize, set: u64, waiting: u64) -> u64
    requires { (1024 ≤ length area.old) × (c < 64) }
    ensures { MarkedBy (with_each c set) area.old waiting area.new result }
{
    let old = row(area, c);
    let new = set ^ set & old;
    if new == 0 {
        return waiting;
    }
    put_row(area, c, old | new);
    let pending = row(area, 64 + c);
    put_row(area, 64 + c, pending | new);
    words::with(waiting, c)
}

// The same for the pairs of each leaf of `from` with those leaves of `to` that share a byte with it.
fn mark_all(area: &mut [u8], from: u64, to: u64, waiting: u64, shares: &[u64; 64]) -> u64
    requires { 1024 ≤ length area.old }
    ensures { MarkedBy (sharing shares.now from to) area.old waiting area.new result }
{
    let mut waiting = waiting;
    let mut rest = from;
    while let Some(t) = words::take_least(rest) {
        waiting = mark(area, t.leaf, to & shares[t.leaf], waiting);
        rest = t.rest;
    }
    waiting
}

// Takes the pending pairs, a row at a time, until none is left, or until at one of them the string may end after one leaf and go on after the other: whether it may.
fn search(area: &mut [u8], waiting: u64, live: u64, leaves: Leaves) -> bool
    requires { 1024 ≤ length area.old }
    ensures { Searches leaves.entry.shares.now leaves.entry.sets.now leaves.entry.ending live area.old waiting area.new result }
{
    let mut waiting = waiting;
    for turn in 0..PAIRS {
        let Some(t) = words::take_least(waiting) else {
            return false;
        };
        let p = t.leaf;
        let to = facts::carried(row(area, 64 + p), leaves.sets);
        if words::both(words::has(leaves.ending, p), to & live != 0) {
            return true;
        }
        put_row(area, 64 + p, 0);
        waiting = mark_all(area, leaves.sets[p + 1], to, t.rest, leaves.shares);
    }
    false
}

// Whether some matched string extends to a longer one: the empty one, or one that leads to a pair.
fn extends(area: &mut [u8], tables: SetsView) -> bool
    requires { 1024 ≤ length area.old }
    ensures { Decides tables.entry.masks.now tables.entry.sets.now tables.entry.ends.now area.old result area.new }
{
    let shares = shares_of(tables.masks);
    let leaves = Leaves {
        shares: &shares,
        sets: tables.sets,
        ending: facts::ending_leaves(tables.ends),
    };
    let live = leaves.live();
    let first = tables.sets[0];
    if words::both(tables.ends[0] == 1, first & live != 0) {
        return true;
    }
    clear(area);
    let waiting = mark_all(area, first, first, 0, &shares);
    search(area, waiting, live, leaves)
}

// The test of the pattern whose tables are lent. What the area's first 1,024 bytes hold does not matter; afterwards they are zero, and the rest is kept.
// An area that is too short is kept.
pub fn test(area: &mut [u8], tables: SetsView) -> Result<Ending, TooShort>
    ensures tested { Tested tables.entry.masks.now tables.entry.sets.now tables.entry.ends.now area.old result area.new }
{
    if area.len() < AREA {
        return Err(TooShort);
    }
    let some = extends(area, tables);
    clear(area);
    if some {
        return Ok(Ending::Fails);
    }
    Ok(Ending::Passes)
}
