// What programs print for order lines: both spans, 'none' or a refusal (paper 01, "The programs"), or the greedy span with its fields (request 2).
#![tactic(auto)]

ghost use Rattle.std.specs.Prelude.{◌≡◌, ◌≤◌, length, drop};
ghost use Rattle.lines.specs.Lines.{held};
ghost use Rattle.lines.specs.Exchange.{Finished};
ghost use Rattle.orders.specs.declared.Orders.TheVariants.{Spans, Fields};
ghost use Rattle.orders.specs.Orders.{OrderAnswer, Answered, ForSpans, ForFields};

use lines::{Input, Responder};
use printing::Output;
use reader::refusal::{Fault, Refusal};
use std::io::Read;

// "9, a line above 1,024 bytes".
pub const MAX_BYTES: usize = 1024;

// No printed line is longer: 'greedy', two numbers, 'fields' and sixteen numbers, each of at most 20 digits.
const LONGEST: usize = 392;

// What order lines are answered with, as it is prepared of a pattern.
#[derive(Drop)]
pub enum Orders {
    // both spans
    Spans(readings::Tables),
    // the greedy span with its fields
    Fields(fields::Prepared),
}

// The pattern on the line that is read, after its first `skip` bytes.
fn pattern_after(input: &Input, skip: usize) -> &[u8]
    ensures { result.now ≡ drop skip (held input.now.line) }
{
    lines::past_first(input.line.held(), skip)
}

// Prepares that pattern for both spans, with the table of named sets that is loaded.
pub fn prepare(loaded: &[u8], input: &Input, skip: usize) -> Result<Orders, Refusal>
    ensures prepared { ForSpans loaded.now (drop skip (held input.now.line)) result }
{
    let tables = readings::prepare(loaded, pattern_after(input, skip))?;
    Ok(Orders::Spans(tables))
}

// The same for fields: another function, since what it hands over is made by another crate, with a refusal more.
pub fn prepare_fields(loaded: &[u8], input: &Input, skip: usize) -> Result<Orders, Refusal>
    ensures prepared { ForFields loaded.now (drop skip (held input.now.line)) result }
{
    let own = fields::prepare(loaded, pattern_after(input, skip))?;
    Ok(Orders::Fields(own))
}

// Appends both spans of an order line that is not too long, or 'none'.
fn answer_spans(out: &mut Output, line: &[u8], tables: &readings::Tables)
    requires { length line.now ≤ 1024 }
    ensures { Answered (Spans tables.now) line.now out.old out.new }
{
    match matchers::cut(line, tables.view()) {
        Some(x) => out.spans(x.start, x.greedy, x.posix),
        None => out.none(),
    }
}

// Appends its greedy span with the fields, or 'none'. By itself: what is large here is cleared where the function begins, and so not where both spans are asked for.
fn answer_fields(out: &mut Output, line: &[u8], own: &fields::Prepared)
    requires { length line.now ≤ 1024 }
    ensures { Answered (Fields own.now) line.now out.old out.new }
{
    match &fields::cut(line, own.tables.view(), &own.marks) {
        Some(x) => out.fields(x.start, x.end, own.count, x.known, &x.places),
        None => out.none(),
    }
}

// Appends the answer to an order line.
pub fn answer(out: &mut Output, line: &[u8], orders: &Orders)
    ensures answered { Answered orders.now line.now out.old out.new }
{
    if line.len() > MAX_BYTES {
        out.refused(Fault::LineTooLong.number(), 0);
        return;
    }
    match orders {
        Orders::Spans(tables) => answer_spans(out, line, tables),
        Orders::Fields(own) => answer_fields(out, line, own),
    }
}

impl Responder for Orders {
    ghost answers = { λ x l w y. (y ≡ x) × OrderAnswer x l w };

    ghost LONGEST = { 392 };

    fn longest(&self) -> usize {
        LONGEST
    }

    fn answer(&mut self, out: &mut Output, line: &[u8]) {
        answer(out, line, self);
    }
}

// Answers the order lines of the input, until it is over or a read or a write fails.
pub fn run<P: Print, R: Read>(
    rt: &P,
    reader: &mut R,
    input: &mut Input,
    out: &mut Output,
    orders: &mut Orders,
)
    ensures finished { Finished input.new out.new }
{
    out.used = 0;
    input.run(rt, reader, orders, out);
}

// Prints the refusal of a pattern, or answers the order lines by what is prepared of it. Nothing waits then.
pub fn serve<P: Print, R: Read>(
    rt: &P,
    reader: &mut R,
    input: &mut Input,
    out: &mut Output,
    prepared: Result<Orders, Refusal>,
)
    ensures served { out.new.used ≡ 0 }
{
    match prepared {
        Ok(mut orders) => run(rt, reader, input, out, &mut orders),
        Err(e) => {
            out.refused(e.fault.number(), e.place);
            input.write_out(rt, out);
        }
    }
}
