// What the front end asks: the first line of the input of `ask`. It may begin with a table of named sets, which is then loaded (request 9): 'sets ', the table in lower-case hex,
// and a space. The word that follows says what is asked.
#![tactic(auto)]

ghost use Rattle.std.specs.Prelude.{◌≡◌, drop, take};
ghost use Rattle.queries.specs.Hex.{digit_of, table_of, entries_of};
ghost use Rattle.queries.specs.Query.{query_of, loading_of};

// No line that is kept has more entries in hex.
pub const ENTRIES: usize = 512;

// A line's own table: so many entries, with zeros after the last.
#[derive(Clone, Copy)]
pub struct Table {
    pub entries: [u8; ENTRIES],
    pub count: usize,
}

// Which table is loaded.
#[derive(Clone, Copy)]
pub enum Loading {
    Fixed,
    // the line's own, and where the word stands
    Own { table: Table, at: usize },
    // neither: what follows 'sets ' is not a table and a space
    Broken,
}

// What is asked.
#[derive(Clone, Copy, PartialEq, Eq)]
pub enum Query {
    // both spans of order lines; where the pattern stands
    Spans { at: usize },
    // the greedy spans with their fields
    Fields { at: usize },
    // of each pattern on the lines that follow: its byte groups,
    Groups,
    // its verdict and the looking that it took,
    Looking,
    // and how long its matches can be
    Details,
    // the table that is loaded
    Table,
    Unknown,
}

impl Table {
    pub fn as_slice(&self) -> &[u8]
        ensures entries { result.now ≡ take self.now.count self.now.entries }
    {
        &self.entries[..self.count.min(ENTRIES)]
    }
}

// What a hex digit counts: 0 to 9 or a to f. `library_calls`, a test of the library, reads hex by its own rule: there any other byte counts 0.
fn digit(b: u8) -> Option<u8>
    ensures { result ≡ digit_of b }
{
    match b {
        b'0'..=b'9' => Some(b - b'0'),
        b'a'..=b'f' => Some(b - b'a' + 10),
        _ => None,
    }
}

// The entries that a text begins with, as many as there is room for.
fn from_hex(text: &[u8]) -> Table
    ensures { result ≡ table_of (entries_of text.now) }
{
    let mut table = Table {
        entries: [0; ENTRIES],
        count: 0,
    };
    let mut rest = text;
    while let [a, b, more @ ..] = rest {
        let Some(x) = digit(*a) else {
            return table;
        };
        let Some(y) = digit(*b) else {
            return table;
        };
        if table.count == ENTRIES {
            return table;
        }
        table.entries[table.count] = 16 * x + y;
        table.count += 1;
        rest = more;
    }
    table
}

// What stands at a place: nothing past the end. As in lines, which this crate does not use.
fn from(text: &[u8], at: usize) -> &[u8]
    ensures { result.now ≡ drop at text.now }
{
    &text[at.min(text.len())..]
}

// The table that the line begins with.
pub fn load(text: &[u8]) -> Loading
    ensures loads { result ≡ loading_of text.now }
{
    if !text.starts_with(b"sets ") {
        return Loading::Fixed;
    }
    let table = from_hex(&text[5..]);
    if !from(text, 5 + 2 * table.count).starts_with(b" ") {
        return Loading::Broken;
    }
    Loading::Own {
        table,
        at: 6 + 2 * table.count,
    }
}

// What is asked by the word at a place.
pub fn query_at(text: &[u8], at: usize) -> Query
    ensures query { result ≡ query_of (drop at text.now) at }
{
    let rest = from(text, at);
    if rest.starts_with(b"spans ") {
        return Query::Spans { at: at + 6 };
    }
    if rest.starts_with(b"fields ") {
        return Query::Fields { at: at + 7 };
    }
    match rest {
        b"groups" => Query::Groups,
        b"looking" => Query::Looking,
        b"details" => Query::Details,
        b"table" => Query::Table,
        _ => Query::Unknown,
    }
}
