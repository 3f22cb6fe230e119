// A standing by value: the first one, and the one that a byte carries it to.
// (a) and (b) come from (a) in order, (c) and (d) from the set (c); both look up the follow tables, whose row 0 is the start's and row p + 1 the leaf p's.
#![tactic(auto)]

ghost use Rattle.std.specs.Prelude.{◌≡◌, false, ◌||◌, [], ◌∷◌, suc, ◌≤◌, ◌<◌, get_or};
ghost use Rattle.theory.specs.Code.Closure.{flat};
ghost use Rattle.follow.specs.Views.{shown};
ghost use Rattle.standing.specs.Stands.{arrays_of, First, Carried};
ghost use Rattle.standing.specs.Reads.{Sound, Read, Fronts, outcomes_after};
ghost use Rattle.standing.specs.Sets.{goes, Joined, Wanted};

use follow::TablesView;

#[derive(Clone, Copy, PartialEq, Eq)]
pub struct Standing {
    // (a): the first n of the list
    pub list: [u8; 64],
    pub n: usize,
    // (b)
    pub first: bool,
    // (c), bit p for the leaf p
    pub all: u64,
    // (d)
    pub some: bool,
}

// The leaves before the first end, as they are gathered from outcomes. In `threads` a leaf has a slot as well, so its state is another.
#[derive(Drop)]
struct Front {
    // the first n of the list
    list: [u8; 64],
    n: usize,
    // the same leaves as bits
    seen: u64,
    // whether an end was there: what comes after it counts for nothing
    ends: bool,
}

// All wanted leaves, and whether there is an end.
#[derive(Clone, Copy)]
struct Wants {
    all: u64,
    some: bool,
}

impl Front {
    fn empty() -> Front
        ensures { Fronts [] result }
    {
        Front {
            list: [0; 64],
            n: 0,
            seen: 0,
            ends: false,
        }
    }

    // The leaf p, unless it is there.
    fn add(&mut self, p: usize)
        requires { Sound self.old × (p < 64) × (self.old.ends ≡ false) }
        ensures { Read self.old (suc p ∷ []) self.new }
    {
        if !words::has(self.seen, p) {
            self.list[self.n] = p as u8;
            self.n += 1;
            self.seen = words::with(self.seen, p);
        }
    }

    // One outcome more: 0 is the end, and p + 1 the leaf p.
    fn read(&mut self, x: usize)
        requires { Sound self.old × (self.old.ends ≡ false) }
        ensures { Read self.old (x ∷ []) self.new }
    {
        if x == 0 {
            self.ends = true;
        } else if x <= words::LEAVES {
            self.add(x - 1);
        }
    }

    // The outcomes of a row in order, up to the first end.
    fn read_row(&mut self, row: &[u8])
        requires { Sound self.old }
        ensures { Read self.old row.now self.new }
    {
        for x in row {
            if self.ends {
                return;
            }
            self.read(usize::from(*x));
        }
    }

    // The outcomes after a byte of the leaf p, where the mask is the byte's.
    fn read_leaf(&mut self, p: usize, mask: u64, tables: TablesView)
        requires { Sound self.old }
        ensures { Read self.old (outcomes_after mask (shown tables.entry) p) self.new }
    {
        if p < words::LEAVES && words::has(mask, p) {
            self.read_row(tables.row(p + 1));
        }
    }
}

// The outcomes after a byte of these leaves, in order, up to the first end.
fn front_after(leaves: &[u8], mask: u64, tables: TablesView) -> Front
    ensures { Fronts (flat (outcomes_after mask (shown tables.entry)) leaves.now) result }
{
    let mut front = Front::empty();
    for p in leaves {
        if front.ends {
            return front;
        }
        front.read_leaf(usize::from(*p), mask, tables);
    }
    front
}

impl Wants {
    // The same with the row of the leaf p.
    fn join(&mut self, p: usize, tables: TablesView)
        requires { p < 64 }
        ensures { Joined tables.entry.sets.now tables.entry.ends.now self.old p self.new }
    {
        self.all |= tables.sets[p + 1];
        self.some |= tables.ends[p + 1] == 1;
    }
}

// The outcomes after a byte of all leaves of the set `from`, where the mask is the byte's: only the leaves of both are looked at.
fn wants_after(from: u64, mask: u64, tables: TablesView) -> Wants
    ensures { Wanted (goes from mask) tables.entry.sets.now tables.entry.ends.now result }
{
    let mut w = Wants {
        all: 0,
        some: false,
    };
    let mut rest = from & mask;
    while let Some(t) = words::take_least(rest) {
        w.join(t.leaf, tables);
        rest = t.rest;
    }
    w
}

impl Standing {
    // The standing of the empty line.
    pub fn initial(tables: TablesView) -> Standing
        ensures first { First (arrays_of tables.entry) result }
    {
        let mut front = Front::empty();
        front.read_row(tables.row(0));
        let all = tables.sets[0];
        Standing {
            list: front.list,
            n: front.n,
            first: front.ends,
            all,
            some: tables.ends[0] == 1,
        }
    }

    // The standing after one byte more.
    pub fn next(self, byte: u8, tables: TablesView) -> Standing
        ensures next { Carried (arrays_of tables.entry) self byte result }
    {
        let mask = tables.masks[usize::from(byte)];
        let front = front_after(&self.list[..self.n.min(words::LEAVES)], mask, tables);
        let list = front.list;
        let first = front.ends;
        let wants = wants_after(self.all, mask, tables);
        Standing {
            list,
            n: front.n,
            first,
            all: wants.all,
            some: wants.some,
        }
    }
}
