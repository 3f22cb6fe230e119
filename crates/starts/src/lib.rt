// The leftmost start and the POSIX end of a line, in passes forward.
// First all leaves that any start wants are kept as one set, up to the first end: no match begins before the place where the set was last empty. Mostly one begins there.
// Where none does, blocks of leaves are kept in order of start, a leaf only in the first block that has it. No buffer grows with the line.
#![tactic(auto)]

ghost use Rattle.std.specs.Prelude.{◌≡◌, ◌≤◌, ◌<◌};
ghost use Rattle.facts.specs.Known.{facts_in, how_at};
ghost use Rattle.starts.specs.Spans.{Found};
ghost use Rattle.starts.specs.Blocks.{Sized, first_of, Without, Stored, On, OnBlock, OnAll, Stepped, Kept, Finished, Searched};
ghost use Rattle.starts.specs.Opens.{Watched, Opened};

use facts::FactsView;
use follow::SetsView;
use seeking::{Alike, How, Wanted};

// A span of a line.
#[derive(Clone, Copy)]
pub struct Span {
    pub start: usize,
    pub end: usize,
}

// Blocks in order of start: the first n of both arrays.
#[derive(Drop)]
struct Blocks {
    sets: [u64; 64],
    starts: [usize; 64],
    n: usize,
}

// How many blocks there are, and the first of them.
#[derive(Clone, Copy, PartialEq, Eq)]
struct First {
    n: usize,
    set: u64,
    start: usize,
}

// What a byte has carried on so far: the leaves of the blocks, and the span of the first block that got an end, which closes all later ones.
#[derive(Clone, Copy)]
struct Carry {
    taken: u64,
    found: Option<Span>,
}

// A byte's turn: the place after it, its mask, the leaves after which an end stands, and the rows' sets.
#[derive(Clone, Copy)]
struct Turn<'a> {
    end: usize,
    mask: u64,
    ending: u64,
    sets: &'a [u64; 65],
}

// So many bytes at least are read before a byte that can end a match is looked for again.
const STRETCH: usize = 256;

// The leaves of x that are not in y.
fn without(x: u64, y: u64) -> u64
    ensures { Without x y result }
{
    x ^ x & y
}

impl Blocks {
    fn none() -> Blocks
        ensures sized { Sized result }
        ensures none { result.n ≡ 0 }
    {
        Blocks {
            sets: [0; 64],
            starts: [0; 64],
            n: 0,
        }
    }

    fn first(&self) -> First
        ensures { result ≡ first_of self.now }
    {
        First {
            n: self.n,
            set: self.sets[0],
            start: self.starts[0],
        }
    }

    // A block behind the others, unless its set is empty.
    fn keep(&mut self, start: usize, set: u64)
        requires { Sized self.old }
        ensures { Stored start set self.old self.new }
    {
        if set == 0 {
            return;
        }
        if self.n < 64 {
            self.sets[self.n] = set;
            self.starts[self.n] = start;
            self.n += 1;
        }
    }

    // A block that a byte takes to the set `to`, by the leaves `took`.
    fn carry_on(&mut self, c: Carry, start: usize, took: u64, to: u64, turn: Turn) -> Carry
        requires { Sized self.old × (self.old.n ≤ 64) }
        ensures { On c start turn.entry.end took to turn.entry.ending self.old self.new result }
    {
        let set = without(to, c.taken);
        self.keep(start, set);
        let span = Span {
            start,
            end: turn.end,
        };
        Carry {
            taken: c.taken | set,
            found: (took & turn.ending != 0).then_some(span),
        }
    }

    // The block at q.
    fn carry_block(&mut self, c: Carry, q: usize, turn: Turn) -> Carry
        requires { Sized self.old × (self.old.n ≤ q) × (q < 64) }
        ensures { OnBlock turn.entry.sets.now c q turn.entry.end turn.entry.mask turn.entry.ending self.old self.new result }
    {
        let start = self.starts[q];
        let took = self.sets[q] & turn.mask;
        let to = facts::carried(took, turn.sets);
        self.carry_on(c, start, took, to, turn)
    }

    // All of them, up to the first with an end. By number, since a block is put where an earlier one was.
    fn carry_all(&mut self, turn: Turn) -> Carry
        requires { Sized self.old × (self.old.n ≤ 64) }
        ensures { OnAll turn.entry.sets.now turn.entry.end turn.entry.mask turn.entry.ending self.old self.new result }
    {
        let count = self.n;
        self.n = 0;
        let mut c = Carry {
            taken: 0,
            found: None,
        };
        for q in 0..count {
            c = self.carry_block(c, q, turn);
            if c.found.is_some() {
                return c;
            }
        }
        c
    }

    // The step by the byte at i where no span is found: the blocks, and behind them one for the start i.
    fn step(&mut self, i: usize, next: u64, turn: Turn) -> Carry
        requires { Sized self.old × (self.old.n ≤ 64) }
        ensures { Stepped turn.entry.sets.now i turn.entry.end turn.entry.mask next turn.entry.ending self.old self.new result }
    {
        let c = self.carry_all(turn);
        if c.found.is_some() {
            return c;
        }
        self.carry_on(c, i, turn.sets[0] & turn.mask, next, turn)
    }

    // After a span is found: the blocks before it may still get an end.
    fn finish(
        &mut self,
        line: &[u8],
        from: usize,
        found: Span,
        ending: u64,
        tables: SetsView,
    ) -> Span
        requires { Sized self.old × (self.old.n ≤ 64) }
        ensures { Finished tables.entry.masks.now tables.entry.sets.now line.now ending from self.old found result }
    {
        let mut best = found;
        for i in from..line.len() {
            if self.n == 0 {
                return best;
            }
            if self.n == 1 {
                return match ends::last_end(
                    line,
                    i,
                    self.sets[0],
                    None,
                    ending,
                    tables.masks,
                    tables.sets,
                ) {
                    Some(end) => Span {
                        start: self.starts[0],
                        end,
                    },
                    None => best,
                };
            }
            let turn = Turn {
                end: i + 1,
                mask: tables.masks[usize::from(line[i])],
                ending,
                sets: tables.sets,
            };
            let c = self.carry_all(turn);
            best = c.found.unwrap_or(best);
        }
        best
    }
}

// Whether a step by the byte at i kept one block as it was.
fn is_still(i: usize, before: First, after: First) -> bool
    ensures { Kept result i before after }
{
    before == after && before.n == 1 && before.start < i
}

// The first start from a place on that has an end, with its last one, by blocks. The loop is no `for`: a turn goes past a whole run of bytes. Tables and facts are two
// arguments: the struct that has both is of the crate above, which cuts lines. Few lines come here: the blocks are in no frame but its own.
#[inline(never)]
fn search(line: &[u8], from: usize, tables: SetsView, facts: FactsView) -> Option<Span>
    ensures { Searched tables.entry.masks.now tables.entry.sets.now facts.entry.next.now line.now from result }
{
    let masks = tables.masks;
    let ending = facts.ending();
    let mut blocks = Blocks::none();
    let mut i = from;
    while i < line.len() {
        let b = usize::from(line[i]);
        let turn = Turn {
            end: i + 1,
            mask: masks[b],
            ending,
            sets: tables.sets,
        };
        let before = blocks.first();
        let c = blocks.step(i, facts.next[b], turn);
        if let Some(found) = c.found {
            return Some(blocks.finish(line, i + 1, found, ending, tables));
        }
        let still = is_still(i, before, blocks.first());
        let all = before.set | tables.sets[0];
        let alike = Alike {
            all,
            kind: all & turn.mask,
            masks,
        };
        i = seeking::pass_if(still, line, i + 1, alike);
    }
    None
}

// The same where mostly a match begins at the place itself: then no block is kept. Part of its caller, as `first_open`.
#[inline(always)]
fn span_from(line: &[u8], from: usize, tables: SetsView, facts: FactsView) -> Option<Span>
    ensures { Searched tables.entry.masks.now tables.entry.sets.now facts.entry.next.now line.now from result }
{
    match ends::last_end(
        line,
        from,
        tables.sets[0],
        None,
        facts.ending(),
        tables.masks,
        tables.sets,
    ) {
        Some(end) => Some(Span { start: from, end }),
        None => search(line, from, tables, facts),
    }
}

// How far the line may be read before a byte that can end a match is looked for again, if there is one still. Looked for are only few bytes: many are soon found.
fn watch(line: &[u8], i: usize, stop: usize, ends: Wanted) -> Option<usize>
    ensures { Watched ends.entry.masks.now line.now ends.entry.set ends.entry.how i result }
{
    if i < stop {
        return Some(stop);
    }
    if let How::Any = ends.how {
        return Some(line.len());
    }
    let c = seeking::seek(line, i, ends);
    if line.len() <= c {
        return None;
    }
    Some(line.len().min(i.saturating_add(STRETCH)).max(c + 1))
}

// Of a pattern that does not match the empty line: a place before which no match begins, if there is a match. One set has all leaves that any start wants.
// The loop is no `for`: a turn goes past a whole run of bytes, or to the next byte that begins a match.
#[inline(always)]
fn first_open(line: &[u8], tables: SetsView, facts: FactsView) -> Option<usize>
    ensures { Opened tables.entry.masks.now tables.entry.sets.now facts.entry.next.now (how_at facts.entry.hows.now 0) (how_at facts.entry.hows.now 5) line.now result }
{
    // of an empty line nothing is looked up
    if line.is_empty() {
        return None;
    }
    let masks = tables.masks;
    let begins = Wanted {
        set: tables.sets[0],
        how: facts.begins(),
        masks,
    };
    let mut base = seeking::seek(line, 0, begins);
    // in most lines no byte begins a match: then nothing more is looked up
    if line.len() <= base {
        return None;
    }
    let ends = Wanted {
        set: facts.ending(),
        how: facts.closes(),
        masks,
    };
    let mut i = base;
    let mut stop = base;
    let mut set = 0;
    while i < line.len() {
        stop = watch(line, i, stop, ends)?;
        let b = usize::from(line[i]);
        let all = set | begins.set;
        let kind = all & masks[b];
        if kind & ends.set != 0 {
            return Some(base);
        }
        let to = facts::carried(set & masks[b], tables.sets) | facts.next[b];
        i = seeking::pass_if(set == to, line, i + 1, Alike { all, kind, masks });
        set = to;
        if set == 0 {
            i = seeking::seek(line, i, begins);
            base = i;
        }
    }
    None
}

// The POSIX span of a line. A pattern that matches the empty line begins at the first place. Short lines are many: the call takes as long as what is done in it.
#[inline(always)]
pub fn posix_span(line: &[u8], tables: SetsView, facts: FactsView) -> Option<Span>
    ensures found { Found tables.entry.masks.now tables.entry.sets.now tables.entry.ends.now (facts_in facts.entry) line.now result }
{
    if tables.ends[0] == 1 {
        let first = tables.sets[0];
        let last = ends::last_end(
            line,
            0,
            first,
            Some(0),
            facts.ending(),
            tables.masks,
            tables.sets,
        );
        return Some(Span {
            start: 0,
            end: last.unwrap_or(0),
        });
    }
    let from = first_open(line, tables, facts)?;
    span_from(line, from, tables, facts)
}
