// The fields of the greedy span (request 2): the most preferred way from a known start, in one pass forward. Each leaf that is wanted has a slot with the places where
// its way last opened and closed each field; a byte moves the slots along the rows of the follow tables. No buffer grows with the line.
#![tactic(auto)]

ghost use Rattle.std.specs.Prelude.{◌≡◌, false, cond, ◌+◌, ◌*◌, ◌≤◌, ◌<◌, length};
ghost use Rattle.words.specs.Sets.{has_bit};
ghost use Rattle.threads.specs.Ways.{Led};
ghost use Rattle.threads.specs.Slots.{Stamped, Moved, handed_over};
ghost use Rattle.threads.specs.Reads.{Sound, LeafEntered};
ghost use Rattle.threads.specs.Steps.{RowRead, LeafRead, Stepped, Passed};

use follow::RowsView;

// The way that is preferred. places[f - 1] is where it last opened the field f and places[f + 7] where it last closed it, each if its bit in `known` is 1.
// A mask and sixteen numbers, and no Options: callers in C are handed them so, and one mask takes in all fields of an outcome.
#[derive(Clone, Copy)]
pub struct Way {
    pub end: usize,
    pub known: u16,
    pub places: [usize; 16],
}

// The same of a way that goes on.
#[derive(Clone, Copy)]
struct Slot {
    places: [usize; 16],
    known: u16,
}

const NOTHING: Slot = Slot {
    places: [0; 16],
    known: 0,
};

// The slot of the last way that ended, which has none before.
const BEST: usize = 128;

// The leaves that are wanted, in order, and the slots.
#[derive(Drop)]
struct State {
    // the first n of the list
    list: [u8; 64],
    n: usize,
    // the same leaves as bits
    seen: u64,
    // whether a way ended: what comes after it counts for nothing
    ended: bool,
    slots: [Slot; 129],
}

// Where outcomes go: the place in the line, and the side of the slots. The leaf p has the slot p on the side 0 and the slot 64 + p on the side 1; each byte changes the
// side, so that no slot is written before it is read. A number, since slots are counted by it.
#[derive(Clone, Copy)]
struct Turn {
    side: usize,
    place: usize,
}

// The place `at` if the mask has bit j, else the old one. A function, so that its caller has no branch.
fn stamp(marks: u16, j: usize, at: usize, old: usize) -> usize
    ensures { result ≡ cond (has_bit marks j) at old }
{
    if words::has(u64::from(marks), j) {
        return at;
    }
    old
}

impl Slot {
    // The place `at` for each field of the mask.
    fn mark(&mut self, marks: u16, at: usize)
        ensures { Stamped marks at self.old self.new }
    {
        for (j, place) in self.places.iter_mut().enumerate() {
            *place = stamp(marks, j, at, *place);
        }
        self.known |= marks;
    }
}

// The slot `to` gets what the slot `from` has, and `at` for each place of the mask. They may be one slot.
fn move_slot(slots: &mut [Slot; 129], from: usize, to: usize, marks: u16, at: usize)
    requires { (from < 129) × (to < 129) }
    ensures { Moved from to marks at slots.old slots.new }
{
    let mut slot = slots[from];
    slot.mark(marks, at);
    slots[to] = slot;
}

// The masks of fields are no part of the tables: only who asks for fields has them.
impl State {
    // The leaf p, by the way of the slot `from`, unless it is there: what came first is preferred.
    fn enter(&mut self, p: usize, marks: u16, from: usize, turn: Turn)
        requires { Sound self.old × (self.old.ended ≡ false) × (p < 64) × (from < 129) × (turn.side ≤ 1) }
        ensures { LeafEntered p marks from turn.side turn.place self.old self.new }
    {
        if !words::has(self.seen, p) {
            self.list[self.n] = p as u8;
            self.n += 1;
            self.seen = words::with(self.seen, p);
            move_slot(&mut self.slots, from, 64 * turn.side + p, marks, turn.place);
        }
    }

    // The outcomes of row k in order, by the way of the slot `from`, up to the first end.
    fn read_row(&mut self, k: usize, from: usize, turn: Turn, tables: RowsView, marks: &[u16; 4225])
        requires { Sound self.old × (self.old.ended ≡ false) × (k ≤ 64) × (from < 129) × (turn.side ≤ 1) }
        ensures { RowRead tables.entry.rows.now tables.entry.lens.now marks.now k from turn.side turn.place self.old self.new }
    {
        let row = tables.row(k);
        for x in row {
            // no row of a pattern has a number above 64
            let q = usize::from(*x).min(words::LEAVES);
            let mask = marks[65 * k + q];
            if q == 0 {
                move_slot(&mut self.slots, from, BEST, mask, turn.place);
                self.ended = true;
                return;
            }
            self.enter(q - 1, mask, from, turn);
        }
    }

    // The outcomes after a byte of the leaf p, where the mask is the byte's.
    fn read_leaf(&mut self, p: usize, mask: u64, turn: Turn, tables: RowsView, marks: &[u16; 4225])
        requires { Sound self.old × (self.old.ended ≡ false) × (turn.side ≤ 1) }
        ensures { LeafRead tables.entry.rows.now tables.entry.lens.now marks.now mask p turn.side turn.place self.old self.new }
    {
        if words::has(mask, p) {
            self.read_row(p + 1, 64 * (1 - turn.side) + p, turn, tables, marks);
        }
    }

    // The same of all leaves in order, up to the first end. The list is read from a copy, and the new leaves are put in its place.
    fn step(&mut self, mask: u64, turn: Turn, tables: RowsView, marks: &[u16; 4225])
        requires { Sound self.old × (turn.side ≤ 1) }
        ensures { Stepped tables.entry.rows.now tables.entry.lens.now marks.now mask turn.side turn.place self.old self.new }
    {
        let list = self.list;
        let leaves = &list[..self.n];
        self.n = 0;
        self.seen = 0;
        self.ended = false;
        for p in leaves {
            if self.ended {
                return;
            }
            self.read_leaf(usize::from(*p), mask, turn, tables, marks);
        }
    }

    // From the start on, to the line's end or until no leaf is wanted: the end of the last way that ended, or the best one before.
    fn pass(
        &mut self,
        line: &[u8],
        start: usize,
        best: Option<usize>,
        tables: RowsView,
        marks: &[u16; 4225],
    ) -> Option<usize>
        requires { Sound self.old }
        ensures { Passed tables.entry.masks.now tables.entry.rows.now tables.entry.lens.now marks.now line.now start self.old best self.new.slots result }
    {
        let mut last = best;
        let mut side = 0;
        // over places, since the start may be past the line's end
        for i in start..line.len() {
            if self.n == 0 {
                return last;
            }
            let mask = tables.masks[usize::from(line[i])];
            side = 1 - side;
            let turn = Turn { side, place: i + 1 };
            self.step(mask, turn, tables, marks);
            last = self.ended.then_some(i + 1).or(last);
        }
        last
    }
}

// The last way that ended, with the places of its slot.
fn way_of(best: Option<usize>, slots: &[Slot; 129]) -> Option<Way>
    ensures { result ≡ handed_over slots.now best }
{
    let end = best?;
    let slot = slots[BEST];
    let places = slot.places;
    Some(Way {
        end,
        known: slot.known,
        places,
    })
}

// From the start on, to the line's end or until no leaf is wanted: the last way that ended, by the tables of a pattern and the masks of its fields.
pub fn first_way(line: &[u8], start: usize, tables: RowsView, marks: &[u16; 4225]) -> Option<Way>
    ensures led { Led tables.entry.masks.now tables.entry.rows.now tables.entry.lens.now marks.now line.now start result }
{
    let mut state = State {
        list: [0; 64],
        n: 0,
        seen: 0,
        ended: false,
        slots: [NOTHING; 129],
    };
    let turn = Turn {
        side: 0,
        place: start,
    };
    state.read_row(0, BEST, turn, tables, marks);
    let first = state.ended.then_some(start);
    let best = state.pass(line, start, first, tables, marks);
    way_of(best, &state.slots)
}
