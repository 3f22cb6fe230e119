// The search through a pattern's standings. The table is the queue: each record in turn is carried on by the lowest byte of each group, upwards, and a standing that no record has gets the next slot.
// It ends when no record is left, at the first witness, or when a record is needed and no slot is left.
#![tactic(auto)]

ghost use Rattle.std.specs.Prelude.{◌≡◌, not, ◌&&◌, ◌≤◌, ◌<◌, min, length};
ghost use Rattle.table.specs.Slots.{slot_count};
ghost use Rattle.standing.specs.Stands.{arrays_of};
ghost use Rattle.search.specs.Ends.{Searched};
ghost use Rattle.search.specs.Looking.{no_looking};
ghost use Rattle.search.specs.Turns.{more, progress_of, course_of, Turned, Grouping, Worked, Run};

use follow::TablesView;
use standing::Standing;
use table::{Slots, SlotsMut};

// How far the search has come: none of the three is an error, and each has its looking.
#[derive(Clone, Copy, PartialEq, Eq)]
pub enum Progress {
    // that many records, and no witness among them
    Clear(usize),
    // that many records, and the last is the witness's
    Witness(usize),
    // no slot for the next record
    Full,
}

// How much looking a search takes: how many looks through the records, and how many records they compare. A number that would be above the greatest is this.
#[derive(Clone, Copy, PartialEq, Eq)]
pub struct Looking {
    pub looks: usize,
    pub comparisons: usize,
}

// How far the search has come, and the looking that it took.
#[derive(Clone, Copy, PartialEq, Eq)]
pub struct Course {
    pub progress: Progress,
    pub looking: Looking,
}

// Why a search goes no further: as an error, so that `?` ends it. Callers get a `Progress`, in which neither is one.
#[derive(Clone, Copy, PartialEq, Eq)]
enum Stop {
    // the last record is the witness's
    Witness,
    // no slot for the next record
    Full,
}

// A search on its way: how far the table, which is its queue, is filled. The table goes beside it, since whoever lends it reads it again afterwards.
#[derive(Drop)]
struct Queue {
    // how many records the table can have
    limit: usize,
    // how many it has
    count: usize,
    looking: Looking,
}

// How many records the table has slots for: at most 65,535.
fn slots_of(table: Slots) -> usize
    ensures { (result ≡ min (slot_count table.entry.width (length table.entry.bytes.now)) 65535) × (result ≤ 65535) }
{
    table.count().min(65535)
}

// (d) without (b).
fn is_witness(first: bool, some: bool) -> bool
    ensures { result ≡ (some && not first) }
{
    some && !first
}

impl Looking {
    // One look more, which compared n records.
    fn with_look(self, n: usize) -> Looking
        ensures { result ≡ more self n }
    {
        Looking {
            looks: self.looks.saturating_add(1),
            comparisons: self.comparisons.saturating_add(n),
        }
    }
}

// How far a search has come that has n records.
fn progress_of(end: Result<(), Stop>, n: usize) -> Progress
    ensures { result ≡ progress_of end n }
{
    match end {
        Ok(()) => Progress::Clear(n),
        Err(Stop::Witness) => Progress::Witness(n),
        Err(Stop::Full) => Progress::Full,
    }
}

impl Queue {
    // Record q, whose standing is s, carried on by the byte c.
    fn carry(
        &mut self,
        table: &mut SlotsMut,
        s: Standing,
        q: usize,
        c: u8,
        tables: TablesView,
    ) -> Result<(), Stop>
        ensures same_table { table.new.bytes.ghost_name ≡ table.old.bytes.ghost_name }
        ensures same_size { length table.new.bytes.now ≡ length table.old.bytes.now }
        ensures same_width { table.new.width ≡ table.old.width }
        ensures same_limit { self.new.limit ≡ self.old.limit }
        ensures turned { Turned (arrays_of tables.entry) s q c self.old.count table.old.width self.old.limit self.old.looking table.old.bytes.now (course_of result self.new.count self.new.looking) table.new.bytes.now }
    {
        let after = s.next(c, tables);
        let v = records::pack(after, q, c);
        let n = self.count;
        let records = table.view();
        let look = records.find(n, &v);
        self.looking = self.looking.with_look(look.compared);
        if look.number.is_ok() {
            return Ok(());
        }
        if self.limit <= n {
            return Err(Stop::Full);
        }
        table.store(n, &v);
        self.count = n + 1;
        if is_witness(after.first, after.some) {
            return Err(Stop::Witness);
        }
        Ok(())
    }

    // Record q carried on by the lowest byte of each group, upwards: the others lead nowhere else.
    fn work(
        &mut self,
        table: &mut SlotsMut,
        q: usize,
        lowest: &[u8],
        tables: TablesView,
    ) -> Result<(), Stop>
        ensures same_table { table.new.bytes.ghost_name ≡ table.old.bytes.ghost_name }
        ensures same_size { length table.new.bytes.now ≡ length table.old.bytes.now }
        ensures same_width { table.new.width ≡ table.old.width }
        ensures same_limit { self.new.limit ≡ self.old.limit }
        ensures worked { Worked (Grouping tables.entry.masks.now lowest.now) (arrays_of tables.entry) q self.old.count table.old.width self.old.limit self.old.looking table.old.bytes.now (course_of result self.new.count self.new.looking) table.new.bytes.now }
    {
        let s = records::unpack(table.view().load(q));
        for c in lowest {
            self.carry(table, s, q, *c, tables)?;
        }
        Ok(())
    }

    // From record 0 on, each record in turn. A record carried on can add records, so their number is no bound that is known before.
    fn run(&mut self, table: &mut SlotsMut, lowest: &[u8], tables: TablesView) -> Result<(), Stop>
        requires { (0 < self.old.limit) × (self.old.limit ≤ 65535) × (self.old.count ≡ 1) × (self.old.looking ≡ no_looking) }
        ensures same_table { table.new.bytes.ghost_name ≡ table.old.bytes.ghost_name }
        ensures ran { Run (Grouping tables.entry.masks.now lowest.now) (arrays_of tables.entry) table.old.width self.old.limit table.old.bytes.now (course_of result self.new.count self.new.looking) table.new.bytes.now }
    {
        let mut q = 0;
        while q < self.count {
            self.work(table, q, lowest, tables)?;
            q += 1;
        }
        Ok(())
    }
}

// Searches the standings of the pattern whose tables are lent, and whose records have that width. Slots that are not needed, and bytes after the last slot, are kept.
// The slots are made here of table and width, so that the caller's table is his again at the end.
pub fn search(table: &mut [u8], width: usize, tables: TablesView) -> Course
    ensures searched { Searched (arrays_of tables.entry) width table.old result table.new }
{
    let looking = Looking {
        looks: 0,
        comparisons: 0,
    };
    let mut slots = SlotsMut {
        bytes: table,
        width,
    };
    let limit = slots_of(slots.view());
    if limit == 0 {
        return Course {
            progress: Progress::Full,
            looking,
        };
    }
    let v = records::pack(Standing::initial(tables), 0, 0);
    slots.store(0, &v);
    let mut queue = Queue {
        limit,
        count: 1,
        looking,
    };
    let g = groups::groups_of(tables.masks);
    let lowest = &g.lowest[..g.count];
    let end = queue.run(&mut slots, lowest, tables);
    Course {
        progress: progress_of(end, queue.count),
        looking: queue.looking,
    }
}
