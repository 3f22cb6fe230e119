// The follow tables of a pattern: what it can begin with and what can follow each leaf, in the order of preference, each outcome once.
// They are built once for a pattern, by an ordered closure over its parts. With each outcome goes a mask of the fields that the way to it opens and closes (request 2).
#![tactic(auto)]

ghost use Rattle.std.specs.Prelude.{◌≡◌, [], ◌+◌, ◌-◌, ◌^◌, ◌≤◌, ◌<◌};
ghost use Rattle.grammar.specs.Brackets.{max_fields};
ghost use Rattle.grammar.specs.Code.Tokens.{max_parts};
ghost use Rattle.grammar.specs.Code.Codes.{first_field, first_leaf};
ghost use Rattle.arrays.specs.Decoded.{decode, middle};
ghost use Rattle.follow.specs.Rows.{Right, Marked};
ghost use Rattle.follow.specs.Views.{shown, by_sets, by_rows};
ghost use Rattle.follow.specs.Outcomes.{Lists};
ghost use Rattle.follow.specs.Parts.{within, Begins, Nexts, Chooses, parting, lacks};
ghost use Rattle.follow.specs.Stores.{IsWhole, IsRow, Long, Stored};

use arrays::{Kinds, Pattern, Sizes};

mod lookup;
mod outcomes;

use outcomes::Outcomes;

// Row 0 is the start's, row p + 1 the leaf p's; row k begins at 65 k. Four arrays of numbers and no array of rows, since callers in C keep them.
#[derive(Clone, Copy)]
pub struct Tables {
    // the outcomes in order: 0 the end, q + 1 the wanted leaf q
    pub rows: [u8; 4225],
    // how many each row has
    pub lens: [u8; 65],
    // the wanted leaves of each row, as bits
    pub sets: [u64; 65],
    // 1 where the row has the end, else 0: a byte, since C lends the array
    pub ends: [u8; 65],
}

// The tables of a pattern as they are lent for its lines, and the masks of the bytes beside them: bit p of masks[b] if the set of the leaf p holds the byte b.
#[derive(Clone, Copy)]
pub struct TablesView<'a> {
    pub masks: &'a [u64; 256],
    pub rows: &'a [u8; 4225],
    pub lens: &'a [u8; 65],
    pub sets: &'a [u64; 65],
    pub ends: &'a [u8; 65],
}

// Those of them that tell leaves apart as bits alone: enough where no order counts.
#[derive(Clone, Copy)]
pub struct SetsView<'a> {
    pub masks: &'a [u64; 256],
    pub sets: &'a [u64; 65],
    pub ends: &'a [u8; 65],
}

// Those of them that have the outcomes in order: enough where leaves are taken one by one.
#[derive(Clone, Copy)]
pub struct RowsView<'a> {
    pub masks: &'a [u64; 256],
    pub rows: &'a [u8; 4225],
    pub lens: &'a [u8; 65],
}

impl<'a> TablesView<'a> {
    pub fn by_sets(self) -> SetsView<'a>
        ensures sets { result ≡ by_sets self.entry }
    {
        SetsView {
            masks: self.masks,
            sets: self.sets,
            ends: self.ends,
        }
    }

    pub fn by_rows(self) -> RowsView<'a>
        ensures rows { result ≡ by_rows self.entry }
    {
        RowsView {
            masks: self.masks,
            rows: self.rows,
            lens: self.lens,
        }
    }
}

impl Tables {
    // The tables with these masks. Nothing is copied.
    pub fn view<'a>(&'a self, masks: &'a [u64; 256]) -> TablesView<'a>
        ensures masks { result.masks.now ≡ masks.now }
        ensures tables { shown result ≡ self.now }
    {
        TablesView {
            masks,
            rows: &self.rows,
            lens: &self.lens,
            sets: &self.sets,
            ends: &self.ends,
        }
    }
}

// Whether the part goes one way or another: an alternation, or a repeat, which takes a turn or leaves. Kinds are bytes, not an enum: the pattern's arrays, of fixed memory,
// have one for each part.
fn chooses(kind: u8) -> bool
    ensures { Chooses kind result }
{
    Pattern::SEQUENCE < kind && kind < Pattern::FIRST_FIELD
}

// Where the bits of the opened fields begin, and those of the closed ones.
const OPENED: u8 = 0;

const CLOSED: u8 = 8;

// The bit of a field by the kind of its part.
fn mask(kind: u8, first: u8) -> u16
    requires { (first_field ≤ kind) × (kind < first_leaf) × (first ≤ max_fields) }
    ensures { result ≡ 2 ^ (first + (kind - first_field)) }
{
    1u16 << (kind - Pattern::FIRST_FIELD + first)
}

// A part of a pattern: the places from low to end of its arrays.
#[derive(Clone, Copy)]
struct Part<'a> {
    kinds: &'a Kinds,
    sizes: &'a Sizes,
    low: usize,
    end: usize,
}

impl<'a> Part<'a> {
    // The whole pattern: no place where the arrays have fewer than it says.
    fn of(x: &'a Pattern) -> Part<'a>
        ensures { IsWhole x.now result }
    {
        let kinds = &x.kinds;
        Part {
            kinds,
            sizes: &x.sizes,
            low: 0,
            end: if x.len <= kinds.len() { x.len } else { 0 },
        }
    }

    // The part of it from low to end.
    fn within(self, low: usize, end: usize) -> Part<'a>
        ensures { result ≡ within self.entry low end }
    {
        Part { low, end, ..self }
    }

    // Where the right one of two parts begins, which together stand here before the last place.
    fn middle(self) -> usize
        requires { (self.low < self.end) × (self.end ≤ max_parts) }
        ensures { result ≡ middle self.entry.sizes.now self.entry.low (self.entry.end - 1) }
    {
        let last = self.end - 1;
        if last <= self.low {
            return self.low;
        }
        let size = usize::from(self.sizes[last - 1]);
        if last - self.low <= size {
            return self.low;
        }
        last - size
    }

    // Where the second of two ways begins. A repeat's turn has all places and leaving has none; a lazy repeat leaves first.
    fn parting(self, kind: u8) -> usize
        requires { (self.low < self.end) × (self.end ≤ max_parts) }
        ensures { result ≡ parting kind self.entry.sizes.now self.entry.low (self.entry.end - 1) }
    {
        if kind == Pattern::STAR {
            return self.end - 1;
        }
        if kind == Pattern::LAZY_STAR {
            return self.low;
        }
        self.middle()
    }

    // What the part can begin with after the fields `marks`, its end replaced by rest, added to out.
    fn closure(self, marks: u16, rest: &Outcomes, out: &mut Outcomes)
        requires { (self.end ≤ max_parts) }
        ensures { Begins self.entry marks rest.now out.old out.new }
    {
        if self.end <= self.low {
            out.join(rest, marks);
            return;
        }
        let last = self.end - 1;
        let kind = self.kinds[last];
        if kind == Pattern::EMPTY || Pattern::LAST_LEAF < kind {
            out.join(rest, marks);
            return;
        }
        if Pattern::FIRST_LEAF <= kind {
            // the leaf's number and one
            out.add(kind - Pattern::FIRST_LEAF + 1, marks);
            return;
        }
        let m = self.parting(kind);
        let left = self.within(self.low, m);
        let right = self.within(m, last);
        if chooses(kind) {
            // the end of an empty turn is the repeat's, in its place
            left.closure(marks, rest, out);
            right.closure(marks, rest, out);
            return;
        }
        // for what a left part or a field goes on with: one list for both, so that a step of the recursion takes less of the stack
        let mut next = Outcomes::none();
        if kind == Pattern::SEQUENCE {
            right.closure(0, rest, &mut next);
            left.closure(marks, &next, out);
            return;
        }
        next.join(rest, mask(kind, CLOSED));
        let opened = mask(kind, OPENED) | marks;
        self.within(self.low, last).closure(opened, &next, out);
    }

    // Whether no place of it has that kind: then it has no such leaf.
    fn lacks(self, kind: u8) -> bool
        requires { self.end ≤ max_parts }
        ensures { result ≡ lacks self.entry.kinds.now self.entry.low self.entry.end kind }
    {
        let kinds = self.kinds;
        self.end <= self.low || !kinds[self.low..self.end].contains(&kind)
    }

    // What can follow its leaf p, its end replaced by rest, added to out.
    fn after(self, p: u8, rest: &Outcomes, out: &mut Outcomes)
        requires { (self.end ≤ max_parts) × (p < 64) }
        ensures { Nexts p self.entry rest.now out.old out.new }
    {
        if self.lacks(Pattern::FIRST_LEAF + p) {
            return;
        }
        let last = self.end - 1;
        let kind = self.kinds[last];
        if kind == Pattern::FIRST_LEAF + p {
            out.join(rest, 0);
            return;
        }
        if Pattern::FIRST_LEAF <= kind || kind == Pattern::EMPTY {
            return;
        }
        let m = self.middle();
        let left = self.within(self.low, m);
        let right = self.within(m, last);
        if kind == Pattern::ALTERNATION {
            left.after(p, rest, out);
            right.after(p, rest, out);
            return;
        }
        // for what a left part, a turn or a field goes on with
        let mut next = Outcomes::none();
        if kind == Pattern::SEQUENCE {
            // the right part's list is made only for a leaf of the left one
            if !left.lacks(Pattern::FIRST_LEAF + p) {
                right.closure(0, rest, &mut next);
                left.after(p, &next, out);
            }
            right.after(p, rest, out);
            return;
        }
        if kind < Pattern::FIRST_FIELD {
            // a repeat, whose turn may be followed by another
            self.closure(0, rest, &mut next);
        } else {
            next.join(rest, mask(kind, CLOSED));
        }
        self.within(self.low, last).after(p, &next, out);
    }

    // Row k of the pattern that it is: the start's, or that of the leaf k - 1.
    fn row(self, k: u8, out: &mut Outcomes)
        requires { (self.end ≤ max_parts) × (k ≤ 64) × (self.low ≡ 0) × Lists out.old [] }
        ensures { IsRow self.entry k out.new }
    {
        let mut end = Outcomes::none();
        end.add(0, 0);
        if k == 0 {
            self.closure(0, &end, out);
        } else {
            self.after(k - 1, &end, out);
        }
    }
}

impl Tables {
    // The list x in row k.
    fn store(&mut self, k: usize, x: &Outcomes)
        requires { (k < 65) × Long self.old }
        ensures { Stored k x.now self.old self.new }
    {
        let at = 65 * k;
        self.rows[at..at + x.len].copy_from_slice(&x.items[..x.len]);
        self.lens[k] = x.len as u8;
        self.sets[k] = x.set;
        self.ends[k] = u8::from(x.end);
    }
}

// The tables of a pattern. What is no pattern of at most 64 leaves numbered from 0 has tables too.
pub fn tables_of(x: &Pattern) -> Tables
    ensures right { Right (decode x.now) result }
{
    let whole = Part::of(x);
    let mut tables = Tables {
        rows: [0; 4225],
        lens: [0; 65],
        sets: [0; 65],
        ends: [0; 65],
    };
    for k in 0..65u8 {
        let mut row = Outcomes::none();
        whole.row(k, &mut row);
        tables.store(usize::from(k), &row);
    }
    tables
}

// The masks of the fields, for the start and for each leaf, made by the same closure: row k begins at 65 k, and there the outcome with the number q has the place q.
pub fn marks_of(x: &Pattern) -> [u16; 4225]
    ensures marked { Marked (decode x.now) result }
{
    let whole = Part::of(x);
    let mut marks = [0u16; 4225];
    // one list for all rows: at the place of an outcome that a row has not, the mask of an earlier row stays, as callers in C have it
    let mut row = Outcomes::none();
    for k in 0..65u8 {
        row.clear();
        whole.row(k, &mut row);
        let at = 65 * usize::from(k);
        marks[at..at + 65].copy_from_slice(&row.fields);
    }
    marks
}
