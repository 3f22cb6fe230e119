// Facts of a pattern that its tables have, worked out once for many lines: what the first leaves want after each byte, the leaves after which an end stands, and how
// the bytes that begin or end a match are looked for.
#![tactic(auto)]

ghost use Rattle.std.specs.Prelude.{◌≡◌, ◌≤◌};
ghost use Rattle.seeking.specs.Hows.{Finds};
ghost use Rattle.facts.specs.Sets.{Wants, Endings, Nexts};
ghost use Rattle.facts.specs.Known.{facts, facts_in, how_at, ending_in, Known};

use follow::SetsView;
use seeking::How;

// The leaves after which an end stands have the last place of `next`.
pub const ENDING: usize = 256;

#[derive(Clone, Copy)]
pub struct Facts {
    // for each byte what the first leaves want after it; then the leaves after which an end stands: one array, since C keeps it
    pub next: [u64; 257],
    // how the bytes that begin a match are looked for, and how those that end one: five bytes each, since C keeps them
    pub hows: [u8; 10],
}

// The facts, lent.
#[derive(Clone, Copy)]
pub struct FactsView<'a> {
    pub next: &'a [u64; 257],
    pub hows: &'a [u8; 10],
}

impl Facts {
    // Nothing is copied.
    pub fn view<'a>(&'a self) -> FactsView<'a>
        ensures lent { facts_in result ≡ facts self.now.next self.now.hows }
    {
        FactsView {
            next: &self.next,
            hows: &self.hows,
        }
    }
}

impl FactsView<'_> {
    // How the bytes that begin a match are looked for.
    pub fn begins(self) -> How
        ensures begins { result ≡ how_at self.entry.hows.now 0 }
    {
        begins(self.hows)
    }

    // How the bytes that end one are looked for.
    pub fn closes(self) -> How
        ensures closes { result ≡ how_at self.entry.hows.now 5 }
    {
        closes(self.hows)
    }

    // The leaves after which an end stands.
    pub fn ending(self) -> u64
        ensures ending { result ≡ ending_in (facts_in self.entry) }
    {
        self.next[ENDING]
    }
}

// What five bytes from the place `at` on say of how bytes are looked for: the way's number, 1 or 2, and the bytes.
fn how_at(hows: &[u8; 10], at: usize) -> How
    requires { at ≤ 5 }
    ensures { result ≡ how_at hows.now at }
{
    match hows[at] {
        1 => How::One(hows[at + 1]),
        2 => How::Few {
            low: hows[at + 1],
            high: hows[at + 2],
            other: hows[at + 3],
            last: hows[at + 4],
        },
        _ => How::Any,
    }
}

// How the bytes that begin a match are looked for, and how those that end one, by this array alone.
pub fn begins(hows: &[u8; 10]) -> How
    ensures begins { result ≡ how_at hows.now 0 }
{
    how_at(hows, 0)
}

pub fn closes(hows: &[u8; 10]) -> How
    ensures closes { result ≡ how_at hows.now 5 }
{
    how_at(hows, 5)
}

// The five bytes that say it. Where no byte is looked for, one is named all the same: what a caller in C has kept stays as it is.
fn bytes_of(how: How, idle: u8) -> [u8; 5]
    ensures { how_at result 0 ≡ how }
{
    match how {
        How::Any => [0, idle, idle, idle, idle],
        How::One(b) => [1, b, b, b, b],
        How::Few {
            low,
            high,
            other,
            last,
        } => [2, low, high, other, last],
    }
}

// How the bytes that the set takes are best looked for, in five bytes.
fn best_for(set: u64, masks: &[u64; 256]) -> [u8; 5]
    ensures { Finds masks.now set (how_at result 0) }
{
    let first = masks.iter().position(|mask| set & *mask != 0);
    bytes_of(seeking::how_of(set, masks), first.map_or(0, |b| b as u8))
}

// What the leaves that took a byte want next.
pub fn carried(took: u64, sets: &[u64; 65]) -> u64
    ensures wants { Wants sets.now took result }
{
    let mut x = 0;
    let mut rest = took;
    while let Some(t) = words::take_least(rest) {
        x = words::union(x, sets[t.leaf + 1]);
        rest = t.rest;
    }
    x
}

// The leaves whose row has the end.
pub fn ending_leaves(ends: &[u8; 65]) -> u64
    ensures endings { Endings ends.now result }
{
    let mut x = 0;
    for (p, end) in ends[1..].iter().enumerate() {
        x = words::with_if(*end == 1, x, p);
    }
    x
}

// What the first leaves want after each byte. The last place is left at 0. Two of the tables alone, as the definition `Nexts` takes them.
fn next_sets(masks: &[u64; 256], sets: &[u64; 65]) -> [u64; 257]
    ensures { Nexts masks.now sets.now result }
{
    let mut next = [0; 257];
    for (b, mask) in masks.iter().enumerate() {
        next[b] = carried(sets[0] & *mask, sets);
    }
    next
}

// The facts of the pattern whose tables are lent.
pub fn facts_of(tables: SetsView) -> Facts
    ensures known { Known tables.entry.masks.now tables.entry.sets.now tables.entry.ends.now (facts result.next result.hows) }
{
    let ending = ending_leaves(tables.ends);
    let mut next = next_sets(tables.masks, tables.sets);
    next[ENDING] = ending;
    let b = best_for(tables.sets[0], tables.masks);
    let e = best_for(ending, tables.masks);
    Facts {
        next,
        hows: [b[0], b[1], b[2], b[3], b[4], e[0], e[1], e[2], e[3], e[4]],
    }
}
