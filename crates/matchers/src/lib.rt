// The greedy and the POSIX span of a line: the leftmost start with the POSIX end, then the greedy end from that start on. No buffer grows with the line.
#![tactic(auto)]

ghost use Rattle.matchers.specs.Tables.{tables_of};
ghost use Rattle.matchers.specs.Cuts.{Cuts};

use facts::FactsView;
use follow::TablesView;

// What is lent for the lines of an accepted pattern, worked out once for many of them: its masks, its follow tables and its facts.
#[derive(Clone, Copy)]
pub struct View<'a> {
    pub tables: TablesView<'a>,
    pub facts: FactsView<'a>,
}

// Both spans of a line: one start with the greedy and the POSIX end.
#[derive(Clone, Copy)]
pub struct Spans {
    pub start: usize,
    pub greedy: usize,
    pub posix: usize,
}

// Both spans of a line of any length, if there are any.
pub fn cut(line: &[u8], view: View) -> Option<Spans>
    ensures cuts { Cuts (tables_of view.entry) line.now result }
{
    let span = starts::posix_span(line, view.tables.by_sets(), view.facts)?;
    // a greedy end is no later than the POSIX end, which by the tables of a pattern is within the line
    let n = span.end.min(line.len());
    let greedy = ends::greedy_end(&line[..n], span.start, view.tables);
    // by the tables of a pattern there is a greedy end where there is a POSIX end; other tables have 0 here
    Some(Spans {
        start: span.start,
        greedy: greedy.unwrap_or(0),
        posix: span.end,
    })
}
