// The checker: from a table of named sets, a pattern's bytes, a table, a witness buffer and an area of any lengths to a verdict. Paper 01, "Standings and their records" and
// "Refusals"; paper 02, request 8: the test that needs no table comes first; request 9: the named sets are those of the table that is loaded.
#![tactic(auto)]

ghost use Rattle.std.specs.Prelude.{◌≡◌, ◌-◌, ◌<◌};
ghost use Rattle.standing.specs.Stands.{arrays_of};
ghost use Rattle.checker.specs.Verdicts.{Checks};
ghost use Rattle.checker.specs.Looking.{without_look, Reports};
ghost use Rattle.checker.specs.Steps.{Sound, Handed, Recorded, Known, Decides};
ghost use Rattle.checker.specs.Origins.{Lined, Length, Fits, Written};

use arrays::Pattern;
use follow::TablesView;
use pairs::{Ending, TooShort};
use reader::refusal::{Fault, Refusal};
use search::{Looking, Progress};
use table::Slots;

// The verdict on a pattern that is not refused.
#[derive(Clone, Copy, PartialEq, Eq)]
pub enum Verdict {
    // no line is cut differently: the number of records, 0 if the test settled it
    Alike { count: usize },
    // the number of records, and the length of the first line that is cut differently: it stands in the witness buffer
    Unlike { count: usize, length: usize },
}

// A verdict, or the refusal with the papers' fault and place, and how much looking through the records it took.
#[derive(Clone, Copy, PartialEq, Eq)]
pub struct Report {
    pub verdict: Result<Verdict, Refusal>,
    pub looking: Looking,
}

// How many bytes the line of record k has: one for each step back to record 0.
fn line_length(records: Slots, k: usize) -> usize
    requires { Lined records.width records.bytes.now k }
    ensures { Length records.entry.width records.entry.bytes.now k result }
{
    let mut k = k;
    let mut n = 0;
    while 0 < k {
        k = records.origin(k);
        n += 1;
    }
    n
}

// Writes the line of record k, of n bytes, to the start of the buffer: from its last byte on.
fn write_line(records: Slots, k: usize, n: usize, witness: &mut [u8])
    requires { Fits records.width records.bytes.now k n witness.old }
    ensures { Written records.entry.width records.entry.bytes.now k witness.old witness.new }
{
    let mut k = k;
    let mut i = n;
    while 0 < k {
        i -= 1;
        witness[i] = records.byte(k);
        k = records.origin(k);
    }
}

// The last of n records is the witness's: its line is handed over, if the buffer has room for it.
fn hand_over(n: usize, records: Slots, witness: &mut [u8]) -> Result<Verdict, Refusal>
    requires { (0 < n) × Lined records.width records.bytes.now (n - 1) }
    ensures { Handed records.entry.width records.entry.bytes.now n witness.old result witness.new }
{
    let last = n - 1;
    let length = line_length(records, last);
    if witness.len() < length {
        return Err(Fault::WitnessTooLong.at(0));
    }
    write_line(records, last, length, witness);
    Ok(Verdict::Unlike { count: n, length })
}

// What is said without a look through the records.
fn without_look(verdict: Result<Verdict, Refusal>) -> Report
    ensures { result ≡ without_look verdict }
{
    Report {
        verdict,
        looking: Looking {
            looks: 0,
            comparisons: 0,
        },
    }
}

// What the records say of the pattern whose tables are lent, and whose records have that width: the search takes the table whole, since it writes it.
fn by_records(table: &mut [u8], witness: &mut [u8], width: usize, tables: TablesView) -> Report
    requires { Known (arrays_of tables) width }
    ensures { Recorded (arrays_of tables.entry) width table.old witness.old result table.new witness.new }
{
    let course = search::search(table, width, tables);
    let looking = course.looking;
    match course.progress {
        Progress::Clear(n) => Report {
            verdict: Ok(Verdict::Alike { count: n }),
            looking,
        },
        Progress::Witness(n) => {
            let records = Slots {
                bytes: table,
                width,
            };
            Report {
                verdict: hand_over(n, records, witness),
                looking,
            }
        }
        Progress::Full => Report {
            verdict: Err(Fault::NoSlot.at(0)),
            looking,
        },
    }
}

// The verdict on the pattern whose arrays these are: by the test, and by the records if it fails.
fn decide(x: &Pattern, table: &mut [u8], witness: &mut [u8], area: &mut [u8]) -> Report
    requires { Sound x.now }
    ensures { Decides x.now table.old witness.old area.old result table.new witness.new area.new }
{
    let own = follow::tables_of(x);
    let tables = own.view(&x.masks);
    match pairs::test(area, tables.by_sets()) {
        Err(TooShort) => without_look(Err(Fault::AreaTooShort.at(0))),
        Ok(Ending::Passes) => without_look(Ok(Verdict::Alike { count: 0 })),
        Ok(Ending::Fails) => {
            let width = records::width(x.leaves);
            by_records(table, witness, width, tables)
        }
    }
}

// Reads the pattern, decides whether the two readings can ever differ, and says how much looking that took. A refused pattern goes no further than the reader.
// Table of named sets and pattern are two parameters, as they are the reader's. Table, witness buffer and area are three slices and no struct: each has the size that its caller lends, in C too, and is kept or written by itself.
pub fn check_looking(
    loaded: &[u8],
    pattern: &[u8],
    table: &mut [u8],
    witness: &mut [u8],
    area: &mut [u8],
) -> Report
    ensures reported { Reports loaded.now pattern.now table.old witness.old area.old result table.new witness.new area.new }
{
    match reader::read(loaded, pattern) {
        Ok(reading) => decide(&reading.pattern, table, witness, area),
        Err(refusal) => without_look(Err(refusal)),
    }
}

// The verdict alone.
pub fn check(
    loaded: &[u8],
    pattern: &[u8],
    table: &mut [u8],
    witness: &mut [u8],
    area: &mut [u8],
) -> Result<Verdict, Refusal>
    ensures checked { Checks loaded.now pattern.now table.old witness.old area.old result table.new witness.new area.new }
{
    check_looking(loaded, pattern, table, witness, area).verdict
}
