// The library for other languages: how long a match of a pattern can be, how many bytes its records have, its tables, both spans of a line by them, the fields of its greedy span,
// its byte groups, and the checker. A call whose name ends in `_with_sets` takes a table of named sets of any length and content, which is checked first (request 9); without that
// ending it is the same with the fixed table. No function keeps a state, allocates or fails: a pattern that is no pattern is refused.
// Names, parameters and structs of numbers are those that callers in C have: so each call has two forms, and tables, buffers and numbers come one by one.
#![tactic(auto)]

ghost use Rattle.std.specs.Prelude.{◌≡◌};
ghost use Rattle.grammar.specs.Sets.{set_table};
ghost use Rattle.matchers.specs.Tables.{tables, tables_of};
ghost use Rattle.fields.specs.Cuts.{lent};
ghost use Rattle.readings.specs.Tables.{tables_in};
ghost use Rattle.yindorka.specs.Calls.{accepted, counted, refusal_of, counted_refusal, sizes_of, ChecksSets, Measures, Sizes, Prepares, Cuts, PreparesFields, CutsFields, ShowsGroups, RewritesLine, Decided, outcome_of, looking_of, Told};

use checker::{Report, Verdict};
use facts::FactsView;
use follow::TablesView;
use matchers::View;
use reader::refusal::Refusal as Refused;
use readings::Tables;

// Number 0 for an accepted pattern, else paper 01's number and place.
#[repr(C)]
#[derive(Clone, Copy)]
pub struct Refusal {
    pub number: usize,
    pub place: usize,
}

// Number 0 for an accepted pattern, with how many fields or groups it has, or bytes its records; else paper 01's number, or 12 for fields, and the place.
#[repr(C)]
#[derive(Clone, Copy)]
pub struct Counted {
    pub number: usize,
    pub place: usize,
    pub count: usize,
}

// Number 0 for an accepted pattern, with the least length of a match and, if `limited` is 1, the greatest; 0 there is no limit. Else paper 01's number and place.
#[repr(C)]
#[derive(Clone, Copy)]
pub struct Lengths {
    pub number: usize,
    pub place: usize,
    pub least: usize,
    pub limited: usize,
    pub greatest: usize,
}

// The greedy span if `found` is 1; bit f - 1 of `known` if its field f has a start, bit f + 7 if it has an end.
#[repr(C)]
#[derive(Clone, Copy)]
pub struct Spanned {
    pub found: usize,
    pub start: usize,
    pub end: usize,
    pub known: usize,
}

// Kind 0, alike: the count. Kind 1, unlike: the count and the witness's length. Kind 2, refused: number and place.
#[repr(C)]
#[derive(Clone, Copy)]
pub struct Outcome {
    pub kind: usize,
    pub first: usize,
    pub second: usize,
}

// The same, with how many looks through the records the check took, and how many records they compared.
#[repr(C)]
#[derive(Clone, Copy)]
pub struct Looking {
    pub kind: usize,
    pub first: usize,
    pub second: usize,
    pub looks: usize,
    pub comparisons: usize,
}

// The number of an accepted pattern. C has numbers in place of enums.
const ACCEPTED: usize = 0;

fn accepted() -> Refusal
    ensures { result ≡ accepted }
{
    Refusal {
        number: ACCEPTED,
        place: 0,
    }
}

fn count_of(count: usize) -> Counted
    ensures { result ≡ counted count }
{
    Counted {
        number: ACCEPTED,
        place: 0,
        count,
    }
}

impl From<Refused> for Refusal {
    ghost from_gives = { λ e r. r ≡ refusal_of e };

    fn from(e: Refused) -> Refusal {
        Refusal {
            number: usize::from(e.fault.number()),
            place: e.place,
        }
    }
}

impl From<Refused> for Counted {
    ghost from_gives = { λ e r. r ≡ counted_refusal e };

    fn from(e: Refused) -> Counted {
        let refusal = Refusal::from(e);
        Counted {
            number: refusal.number,
            place: refusal.place,
            count: 0,
        }
    }
}

impl From<lengths::Lengths> for Lengths {
    ghost from_gives = { λ x r. r ≡ sizes_of x };

    fn from(x: lengths::Lengths) -> Lengths {
        Lengths {
            number: ACCEPTED,
            place: 0,
            least: x.least,
            limited: usize::from(x.is_limited()),
            greatest: x.limit(),
        }
    }
}

impl From<Result<Verdict, Refused>> for Outcome {
    ghost from_gives = { λ x r. r ≡ outcome_of x };

    fn from(x: Result<Verdict, Refused>) -> Outcome {
        match x {
            Ok(Verdict::Alike { count }) => Outcome {
                kind: 0,
                first: count,
                second: 0,
            },
            Ok(Verdict::Unlike { count, length }) => Outcome {
                kind: 1,
                first: count,
                second: length,
            },
            Err(e) => Outcome {
                kind: 2,
                first: usize::from(e.fault.number()),
                second: e.place,
            },
        }
    }
}

impl From<Report> for Looking {
    ghost from_gives = { λ x r. r ≡ looking_of x };

    fn from(x: Report) -> Looking {
        let outcome = Outcome::from(x.verdict);
        Looking {
            kind: outcome.kind,
            first: outcome.first,
            second: outcome.second,
            looks: x.looking.looks,
            comparisons: x.looking.comparisons,
        }
    }
}

// Copies a pattern's tables to a caller's arrays.
fn hand_out(
    own: &Tables,
    masks: &mut [u64; 256],
    rows: &mut [u8; 4225],
    lens: &mut [u8; 65],
    sets: &mut [u64; 65],
    ends: &mut [u8; 65],
    next: &mut [u64; 257],
    hows: &mut [u8; 10],
)
    ensures { tables masks.new rows.new lens.new sets.new ends.new next.new hows.new ≡ tables_in own.now }
{
    *masks = own.masks;
    *rows = own.follow.rows;
    *lens = own.follow.lens;
    *sets = own.follow.sets;
    *ends = own.follow.ends;
    *next = own.facts.next;
    *hows = own.facts.hows;
}

// The tables that a caller lends, as they are cut by.
fn view_of<'a>(
    masks: &'a [u64; 256],
    rows: &'a [u8; 4225],
    lens: &'a [u8; 65],
    sets: &'a [u64; 65],
    ends: &'a [u8; 65],
    next: &'a [u64; 257],
    hows: &'a [u8; 10],
) -> View<'a>
    ensures { tables_of result ≡ tables masks.now rows.now lens.now sets.now ends.now next.now hows.now }
{
    View {
        tables: TablesView {
            masks,
            rows,
            lens,
            sets,
            ends,
        },
        facts: FactsView { next, hows },
    }
}

// Fills an array with the fixed table of named sets, from which a carrier's own can be made.
#[unsafe(no_mangle)]
pub extern "C" fn yindorka_fixed_sets(table: &mut [u8; 256])
    ensures filled { table.new ≡ set_table }
{
    *table = sets::fixed();
}

// Checks a table of named sets: number 0 if it passes, else 14 and its lowest failing entry, or 256 if it has not 256 entries.
#[unsafe(no_mangle)]
pub extern "C" fn yindorka_check_sets(loaded: &[u8]) -> Refusal
    ensures checked { ChecksSets loaded.now result }
{
    let Err(faulty) = sets::check(loaded) else {
        return accepted();
    };
    Refusal::from(Refused::from(faulty))
}

// How long a match of a pattern can be, each leaf counted as 1 whatever its set.
#[unsafe(no_mangle)]
pub extern "C" fn yindorka_lengths_with_sets(loaded: &[u8], pattern: &[u8]) -> Lengths
    ensures measured { Measures loaded.now pattern.now result }
{
    match reader::read(loaded, pattern) {
        Ok(reading) => Lengths::from(reading.lengths),
        Err(e) => {
            let refusal = Refusal::from(e);
            Lengths {
                number: refusal.number,
                place: refusal.place,
                least: 0,
                limited: 0,
                greatest: 0,
            }
        }
    }
}

// How long a match of a pattern can be, with the fixed table.
#[unsafe(no_mangle)]
pub extern "C" fn yindorka_lengths(pattern: &[u8]) -> Lengths
    ensures measured { Measures set_table pattern.now result }
{
    let fixed = sets::fixed();
    yindorka_lengths_with_sets(&fixed, pattern)
}

// How many bytes a record of a pattern has: as many slots its table has as that goes into its length.
#[unsafe(no_mangle)]
pub extern "C" fn yindorka_record_bytes_with_sets(loaded: &[u8], pattern: &[u8]) -> Counted
    ensures sized { Sizes loaded.now pattern.now result }
{
    match reader::read(loaded, pattern) {
        Ok(reading) => count_of(records::width(reading.pattern.leaves)),
        Err(e) => Counted::from(e),
    }
}

// How many bytes a record of a pattern has, with the fixed table.
#[unsafe(no_mangle)]
pub extern "C" fn yindorka_record_bytes(pattern: &[u8]) -> Counted
    ensures sized { Sizes set_table pattern.now result }
{
    let fixed = sets::fixed();
    yindorka_record_bytes_with_sets(&fixed, pattern)
}

// Reads a pattern and fills its tables, which then serve any number of lines. A refused pattern leaves them as they are.
#[unsafe(no_mangle)]
pub extern "C" fn yindorka_prepare_with_sets(
    loaded: &[u8],
    pattern: &[u8],
    masks: &mut [u64; 256],
    rows: &mut [u8; 4225],
    lens: &mut [u8; 65],
    sets: &mut [u64; 65],
    ends: &mut [u8; 65],
    next: &mut [u64; 257],
    hows: &mut [u8; 10],
) -> Refusal
    ensures prepared { Prepares loaded.now pattern.now
        (tables masks.old rows.old lens.old sets.old ends.old next.old hows.old) result
        (tables masks.new rows.new lens.new sets.new ends.new next.new hows.new) }
{
    match readings::prepare(loaded, pattern) {
        Ok(own) => {
            hand_out(&own, masks, rows, lens, sets, ends, next, hows);
            accepted()
        }
        Err(e) => Refusal::from(e),
    }
}

// Reads a pattern and fills its tables, with the fixed table of named sets.
#[unsafe(no_mangle)]
pub extern "C" fn yindorka_prepare(
    pattern: &[u8],
    masks: &mut [u64; 256],
    rows: &mut [u8; 4225],
    lens: &mut [u8; 65],
    sets: &mut [u64; 65],
    ends: &mut [u8; 65],
    next: &mut [u64; 257],
    hows: &mut [u8; 10],
) -> Refusal
    ensures prepared { Prepares set_table pattern.now
        (tables masks.old rows.old lens.old sets.old ends.old next.old hows.old) result
        (tables masks.new rows.new lens.new sets.new ends.new next.new hows.new) }
{
    let fixed = sets::fixed();
    yindorka_prepare_with_sets(&fixed, pattern, masks, rows, lens, sets, ends, next, hows)
}

// Both spans of a line of any length: 1 and the start, the greedy end and the POSIX end, or 0.
#[unsafe(no_mangle)]
pub extern "C" fn yindorka_cut<'a>(
    line: &'a [u8],
    masks: &'a [u64; 256],
    rows: &'a [u8; 4225],
    lens: &'a [u8; 65],
    sets: &'a [u64; 65],
    ends: &'a [u8; 65],
    next: &'a [u64; 257],
    hows: &'a [u8; 10],
    spans: &mut [usize; 3],
) -> usize
    ensures cuts { Cuts (tables masks.now rows.now lens.now sets.now ends.now next.now hows.now)
        line.now spans.old result spans.new }
{
    let view = view_of(masks, rows, lens, sets, ends, next, hows);
    let Some(both) = matchers::cut(line, view) else {
        return 0;
    };
    *spans = [both.start, both.greedy, both.posix];
    1
}

// Reads a pattern and fills its tables and the masks of its fields, which then serve any number of lines. A refused pattern leaves them as they are.
#[unsafe(no_mangle)]
pub extern "C" fn yindorka_prepare_fields_with_sets(
    loaded: &[u8],
    pattern: &[u8],
    masks: &mut [u64; 256],
    rows: &mut [u8; 4225],
    lens: &mut [u8; 65],
    sets: &mut [u64; 65],
    ends: &mut [u8; 65],
    next: &mut [u64; 257],
    hows: &mut [u8; 10],
    marks: &mut [u16; 4225],
) -> Counted
    ensures prepared { PreparesFields loaded.now pattern.now
        (lent (tables masks.old rows.old lens.old sets.old ends.old next.old hows.old) marks.old) result
        (lent (tables masks.new rows.new lens.new sets.new ends.new next.new hows.new) marks.new) }
{
    match fields::prepare(loaded, pattern) {
        Ok(ready) => {
            hand_out(&ready.tables, masks, rows, lens, sets, ends, next, hows);
            *marks = ready.marks;
            count_of(ready.count)
        }
        Err(e) => Counted::from(e),
    }
}

// The same with the masks of its fields.
#[unsafe(no_mangle)]
pub extern "C" fn yindorka_prepare_fields(
    pattern: &[u8],
    masks: &mut [u64; 256],
    rows: &mut [u8; 4225],
    lens: &mut [u8; 65],
    sets: &mut [u64; 65],
    ends: &mut [u8; 65],
    next: &mut [u64; 257],
    hows: &mut [u8; 10],
    marks: &mut [u16; 4225],
) -> Counted
    ensures prepared { PreparesFields set_table pattern.now
        (lent (tables masks.old rows.old lens.old sets.old ends.old next.old hows.old) marks.old) result
        (lent (tables masks.new rows.new lens.new sets.new ends.new next.new hows.new) marks.new) }
{
    let fixed = sets::fixed();
    yindorka_prepare_fields_with_sets(
        &fixed, pattern, masks, rows, lens, sets, ends, next, hows, marks,
    )
}

// The greedy span of a line of any length with its fields: field f begins at places[f - 1] and ends at places[f + 7]. Without a span the places are kept.
#[unsafe(no_mangle)]
pub extern "C" fn yindorka_cut_fields<'a>(
    line: &'a [u8],
    masks: &'a [u64; 256],
    rows: &'a [u8; 4225],
    lens: &'a [u8; 65],
    sets: &'a [u64; 65],
    ends: &'a [u8; 65],
    next: &'a [u64; 257],
    hows: &'a [u8; 10],
    marks: &'a [u16; 4225],
    places: &mut [usize; 16],
) -> Spanned
    ensures cuts { CutsFields (lent (tables masks.now rows.now lens.now sets.now ends.now next.now hows.now) marks.now)
        line.now places.old result places.new }
{
    let view = view_of(masks, rows, lens, sets, ends, next, hows);
    let Some(x) = fields::cut(line, view, marks) else {
        return Spanned {
            found: 0,
            start: 0,
            end: 0,
            known: 0,
        };
    };
    let own = x.places;
    *places = own;
    Spanned {
        found: 1,
        start: x.start,
        end: x.end,
        known: words::wide(x.known),
    }
}

// The byte groups of a pattern: the number of each byte's group, and the lowest byte of each group, with zeros after the last. A refused pattern leaves both as they are.
#[unsafe(no_mangle)]
pub extern "C" fn yindorka_groups_with_sets(
    loaded: &[u8],
    pattern: &[u8],
    group: &mut [u8; 256],
    lowest: &mut [u8; 256],
) -> Counted
    ensures shown { ShowsGroups loaded.now pattern.now group.old lowest.old result group.new lowest.new }
{
    match screen::groups(loaded, pattern) {
        Ok(own) => {
            let groups = own.group;
            let bytes = own.lowest;
            *group = groups;
            *lowest = bytes;
            count_of(own.count)
        }
        Err(e) => Counted::from(e),
    }
}

// The byte groups of a pattern, with the fixed table.
#[unsafe(no_mangle)]
pub extern "C" fn yindorka_groups(
    pattern: &[u8],
    group: &mut [u8; 256],
    lowest: &mut [u8; 256],
) -> Counted
    ensures shown { ShowsGroups set_table pattern.now group.old lowest.old result group.new lowest.new }
{
    let fixed = sets::fixed();
    yindorka_groups_with_sets(&fixed, pattern, group, lowest)
}

// Replaces each byte of a line by a printable byte of its group, where there is one. A refused pattern leaves the line as it is.
#[unsafe(no_mangle)]
pub extern "C" fn yindorka_readable_with_sets(
    loaded: &[u8],
    pattern: &[u8],
    line: &mut [u8],
) -> Refusal
    ensures replaced { RewritesLine loaded.now pattern.now line.old result line.new }
{
    match screen::readable(loaded, pattern, line) {
        Ok(()) => accepted(),
        Err(e) => Refusal::from(e),
    }
}

// A line in readable bytes, with the fixed table.
#[unsafe(no_mangle)]
pub extern "C" fn yindorka_readable(pattern: &[u8], line: &mut [u8]) -> Refusal
    ensures replaced { RewritesLine set_table pattern.now line.old result line.new }
{
    let fixed = sets::fixed();
    yindorka_readable_with_sets(&fixed, pattern, line)
}

// The checker's verdict, with what it writes to the table, to the witness buffer and to the area.
#[unsafe(no_mangle)]
pub extern "C" fn yindorka_check_with_sets(
    loaded: &[u8],
    pattern: &[u8],
    table: &mut [u8],
    witness: &mut [u8],
    area: &mut [u8],
) -> Outcome
    ensures decided { Decided loaded.now pattern.now table.old witness.old area.old result table.new witness.new area.new }
{
    Outcome::from(checker::check(loaded, pattern, table, witness, area))
}

// The checker's verdict, with the fixed table.
#[unsafe(no_mangle)]
pub extern "C" fn yindorka_check(
    pattern: &[u8],
    table: &mut [u8],
    witness: &mut [u8],
    area: &mut [u8],
) -> Outcome
    ensures decided { Decided set_table pattern.now table.old witness.old area.old result table.new witness.new area.new }
{
    let fixed = sets::fixed();
    yindorka_check_with_sets(&fixed, pattern, table, witness, area)
}

// The same, with how much looking through the records it took.
#[unsafe(no_mangle)]
pub extern "C" fn yindorka_check_looking_with_sets(
    loaded: &[u8],
    pattern: &[u8],
    table: &mut [u8],
    witness: &mut [u8],
    area: &mut [u8],
) -> Looking
    ensures reported { Told loaded.now pattern.now table.old witness.old area.old result table.new witness.new area.new }
{
    Looking::from(checker::check_looking(loaded, pattern, table, witness, area))
}

// The same, with how much looking through the records it took.
#[unsafe(no_mangle)]
pub extern "C" fn yindorka_check_looking(
    pattern: &[u8],
    table: &mut [u8],
    witness: &mut [u8],
    area: &mut [u8],
) -> Looking
    ensures reported { Told set_table pattern.now table.old witness.old area.old result table.new witness.new area.new }
{
    let fixed = sets::fixed();
    yindorka_check_looking_with_sets(&fixed, pattern, table, witness, area)
}

// The version of the library: 10900 is 1.9.0.
#[unsafe(no_mangle)]
pub extern "C" fn yindorka_version() -> u32
    ensures version { result ≡ 10900 }
{
    10900
}
