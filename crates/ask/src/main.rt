// Answers what the front end asks. The first word of the input says what.
// 'spans ': after it come a pattern line and order lines, as for `match_lines`, and what it prints.
// 'fields ': the same, and for each order line the greedy span with its fields, 'none' or a refusal (request 2). A refused pattern prints its refusal only.
// 'groups' on a line of its own: each further line is a pattern; for each the number of each byte's group (request 3), or its refusal.
// 'looking' on a line of its own: each further line is a pattern; for each how much looking its check took (request 4), and then what `explain_patterns` prints:
// 'looks 9 comparisons 18 unlike 4 6162 greedy 0 1 posix 0 2 readable 6162'.
// 'details' on a line of its own: the same, and before it how long a match of the pattern can be (request 6), unless it is refused: 'least 1 greatest 2 looks 9 ..', or
// 'least 1 no limit looks 9 ..'.
// 'table' on a line of its own: the table of named sets that is loaded, in hex, or its refusal. Nothing more is read.
// Before each of these may stand 'sets ', a table of named sets in lower-case hex, and a space: that table is loaded in place of the fixed one (request 9).
// Another word prints 'unknown'. Lines may have any length; input and output go by chunks, so memory stays the same. What is known is printed before more is read.
// A failed read or write ends the program with a line on standard error.
#![tactic(auto)]

ghost use Rattle.std.specs.Prelude.{◌≡◌};
ghost use Rattle.lines.specs.Lines.{held};
ghost use Rattle.ask.specs.Orders.{PreparedAs};
ghost use Rattle.ask.specs.Table.{TableLine};

use answers::{Details, Groups, Looking};
use lines::Input;
use orders::Orders;
use printing::Output;
use queries::{Loading, Query};
use reader::refusal::{Fault, Refusal};
use std::io::Read;

// Nothing is known by that word.
fn unknown<P: Print>(rt: &P, input: &mut Input, out: &mut Output)
    ensures { out.new.used ≡ 0 }
{
    out.text(b"unknown");
    input.write_out(rt, out);
}

// Appends the table, or the refusal of one that fails.
fn table_line(loaded: &[u8], out: &mut Output)
    ensures { TableLine loaded.now out.old out.new }
{
    match sets::check(loaded) {
        Ok(()) => out.bytes(loaded),
        Err(faulty) => out.refused(Fault::FaultySets.number(), faulty.place),
    }
}

// Prints the table, or its refusal. Nothing waits then.
fn serve_table<P: Print>(rt: &P, input: &mut Input, out: &mut Output, loaded: &[u8])
    ensures { out.new.used ≡ 0 }
{
    table_line(loaded, out);
    input.write_out(rt, out);
}

// What order lines are answered with, by the pattern on the first line, if it is order lines that are asked for.
fn prepare(loaded: &[u8], input: &Input, query: Query) -> Option<Result<Orders, Refusal>>
    ensures { PreparedAs loaded.now (held input.now.line) query result }
{
    match query {
        Query::Spans { at } => Some(orders::prepare(loaded, input, at)),
        Query::Fields { at } => Some(orders::prepare_fields(loaded, input, at)),
        Query::Groups => None,
        Query::Looking => None,
        Query::Details => None,
        Query::Table => None,
        Query::Unknown => None,
    }
}

// Answers what is asked by the word at a place of the first line, with the table that is loaded. Nothing waits then.
fn serve_query<P: Print, R: Read>(
    rt: &P,
    reader: &mut R,
    input: &mut Input,
    out: &mut Output,
    loaded: &[u8],
    at: usize,
)
    ensures { out.new.used ≡ 0 }
{
    let query = queries::query_at(input.line.held(), at);
    if let Some(prepared) = prepare(loaded, input, query) {
        orders::serve(rt, reader, input, out, prepared);
        return;
    }
    match query {
        Query::Groups => answers::run(rt, reader, input, out, loaded, Groups),
        Query::Looking => answers::run(rt, reader, input, out, loaded, Looking),
        Query::Details => answers::run(rt, reader, input, out, loaded, Details),
        Query::Table => serve_table(rt, input, out, loaded),
        _ => unknown(rt, input, out),
    }
}

// With the table of named sets that the first line begins with, or the fixed one. Nothing waits then.
fn serve<P: Print, R: Read>(rt: &P, reader: &mut R, input: &mut Input, out: &mut Output)
    ensures { out.new.used ≡ 0 }
{
    match queries::load(input.line.held()) {
        Loading::Fixed => serve_query(rt, reader, input, out, &sets::fixed(), 0),
        Loading::Own { table, at } => serve_query(rt, reader, input, out, table.as_slice(), at),
        Loading::Broken => unknown(rt, input, out),
    }
}

fn main(rt: HostRuntime) {
    let mut reader = rt.stdin();
    let mut out = Output::new();
    let mut input = Input::new();
    input.first_line(&rt, &mut reader, &mut out);
    if input.line.whole {
        serve(&rt, &mut reader, &mut input, &mut out);
    }
    input.tell(&rt);
}
