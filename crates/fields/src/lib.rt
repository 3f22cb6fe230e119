// The fields of the greedy span (request 2): what each bracket of a pattern takes from a line. For many lines with one pattern: `prepare` once, then `cut` for each.
#![tactic(auto)]

ghost use Rattle.std.specs.Prelude.{Some};
ghost use Rattle.arrays.specs.Decoded.{decode};
ghost use Rattle.follow.specs.Rows.{Marked};
ghost use Rattle.matchers.specs.Tables.{tables_of};
ghost use Rattle.fields.specs.Cuts.{FoundBy, Cuts, Prepares, Replied};

use arrays::Pattern;
use matchers::View;
use reader::refusal::{Fault, Refusal};
use readings::Tables;
use starts::Span;
use threads::Way;

// The greedy span of a line and its fields: field f begins at places[f - 1] and ends at places[f + 7], if bits f - 1 and f + 7 of `known` are 1, and is absent if they
// are 0. A mask and numbers, as in `threads::Way`.
#[derive(Clone, Copy)]
pub struct Piece {
    pub start: usize,
    pub end: usize,
    pub known: u16,
    pub places: [usize; 16],
}

// What is worked out of a pattern once, for any number of lines: its tables, the masks of its fields, and how many fields it has.
#[derive(Clone, Copy)]
pub struct Prepared {
    pub tables: Tables,
    pub marks: [u16; 4225],
    pub count: usize,
}

// The cut of a line, if it has a span, and how many fields the pattern has.
#[derive(Clone, Copy)]
pub struct Reply {
    pub count: usize,
    pub cut: Option<Piece>,
}

// The masks of a pattern's fields, in a function that is never inlined: else what it keeps on the stack stands there beside the tables, and C callers have little.
#[inline(never)]
fn marks_of(x: &Pattern) -> [u16; 4225]
    ensures marked { Marked (decode x.now) result }
{
    follow::marks_of(x)
}

// Reads a pattern and works out its tables and the masks of its fields. More than eight brackets are refused, after the reader's refusals.
#[inline(never)]
pub fn prepare(loaded: &[u8], pattern: &[u8]) -> Result<Prepared, Refusal>
    ensures prepared { Prepares loaded.now pattern.now result }
{
    let reading = reader::read(loaded, pattern)?;
    if let Some(place) = reading.brackets.ninth {
        return Err(Fault::TooManyBrackets.at(place));
    }
    Ok(Prepared {
        tables: readings::tables_of(&reading.pattern),
        marks: marks_of(&reading.pattern),
        count: reading.brackets.count,
    })
}

// The way where none ends. By the tables of a pattern one does wherever there is a POSIX span; by other tables the end is 0, as in `matchers::cut`.
const NO_WAY: Way = Way {
    end: 0,
    known: 0,
    places: [0; 16],
};

// The greedy span and its fields, once the POSIX span is found. By itself: what is large here is cleared where the function begins, and so for no line without a match.
fn piece_at(line: &[u8], posix: Span, view: View, marks: &[u16; 4225]) -> Piece
    ensures { FoundBy (tables_of view.entry) line.now (Some posix) → Cuts (tables_of view.entry) marks.now line.now (Some result) }
{
    let way = threads::first_way(line, posix.start, view.tables.by_rows(), marks);
    let way = way.unwrap_or(NO_WAY);
    let places = way.places;
    Piece {
        start: posix.start,
        end: way.end,
        known: way.known,
        places,
    }
}

// The greedy span of a line of any length and its fields, by the tables of an accepted pattern: the leftmost start, and from it the most preferred way.
pub fn cut(line: &[u8], view: View, marks: &[u16; 4225]) -> Option<Piece>
    ensures cuts { Cuts (tables_of view.entry) marks.now line.now result }
{
    let posix = starts::posix_span(line, view.tables.by_sets(), view.facts)?;
    Some(piece_at(line, posix, view, marks))
}

// Reads a pattern, and cuts a line by it. Table of named sets and pattern are two parameters, as they are the reader's.
pub fn cut_line(loaded: &[u8], pattern: &[u8], line: &[u8]) -> Result<Reply, Refusal>
    ensures replied { Replied loaded.now pattern.now line.now result }
{
    let ready = prepare(loaded, pattern)?;
    Ok(Reply {
        count: ready.count,
        cut: cut(line, ready.tables.view(), &ready.marks),
    })
}
