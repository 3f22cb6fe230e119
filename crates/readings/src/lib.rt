// Both readings of a line, from the pattern's bytes. For many lines with one pattern: `prepare` once, then `matchers::cut` for each, by what its tables lend.
#![tactic(auto)]

ghost use Rattle.std.specs.Prelude.{◌≡◌};
ghost use Rattle.matchers.specs.Tables.{tables_of};
ghost use Rattle.readings.specs.Replies.{Replied};
ghost use Rattle.readings.specs.Tables.{tables_in, FilledBy, Prepared};

use arrays::Pattern;
use facts::Facts;
use matchers::{Spans, View};
use reader::refusal::Refusal;

// What is worked out of a pattern once, for any number of lines.
#[derive(Clone, Copy)]
pub struct Tables {
    // bit p of masks[b]: the set of the leaf p holds the byte b
    pub masks: [u64; 256],
    pub follow: follow::Tables,
    pub facts: Facts,
}

impl Tables {
    // What is lent of them for a line. Nothing is copied.
    pub fn view<'a>(&'a self) -> View<'a>
        ensures view { tables_of result ≡ tables_in self.now }
    {
        View {
            tables: self.follow.view(&self.masks),
            facts: self.facts.view(),
        }
    }
}

// The tables by the arrays of an accepted pattern.
pub fn tables_of(x: &Pattern) -> Tables
    ensures filled { FilledBy x.now (tables_in result) }
{
    let follow = follow::tables_of(x);
    let facts = facts::facts_of(follow.view(&x.masks).by_sets());
    Tables {
        masks: x.masks,
        follow,
        facts,
    }
}

// Reads a pattern and works out its tables. A refused pattern goes no further than the reader.
pub fn prepare(loaded: &[u8], pattern: &[u8]) -> Result<Tables, Refusal>
    ensures prepared { Prepared loaded.now pattern.now result }
{
    let reading = reader::read(loaded, pattern)?;
    Ok(tables_of(&reading.pattern))
}

// Reads a pattern, and cuts a line by it both ways. Table of named sets and pattern are two parameters, as they are the reader's.
pub fn cut_line(loaded: &[u8], pattern: &[u8], line: &[u8]) -> Result<Option<Spans>, Refusal>
    ensures replied { Replied loaded.now pattern.now line.now result }
{
    let tables = prepare(loaded, pattern)?;
    Ok(matchers::cut(line, tables.view()))
}
