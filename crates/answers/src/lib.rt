// What the programs print for a pattern, with a table of named sets that is loaded: the checker's verdict on it, also with both spans of the witness and its readable form, how much looking it took and how long a
// match can be; or the pattern's byte groups; and the answers to the patterns of the input.
#![tactic(auto)]

ghost use Rattle.std.specs.Prelude.{◌≡◌, ◌≤◌, false, length, take, replicate};
ghost use Rattle.lines.specs.Lines.{goes_on};
ghost use Rattle.lines.specs.Exchange.{Finished};
ghost use Rattle.printing.specs.Text.{room, Prints};
ghost use Rattle.answers.specs.Line.{LineOf};
ghost use Rattle.answers.specs.Answer.{Asked, for_verdict, for_spans, for_looking, for_details, for_groups, Reported, Answer, Answered};
ghost use Rattle.answers.specs.Cutting.{MadeReadable, Shown, Explained, Begun};

use checker::Verdict;
use lines::{Input, Responder};
use printing::Output;
use reader::refusal::Refusal;
use std::io::Read;

// What is lent to the checker for each pattern: a table with 1,074 slots for 64 leaves and 5,041 for none, a witness buffer, and an area. A witness has fewer bytes than
// there are records, so none is longer than the buffer (`witness_lent`), and the area is long enough for the test (`area_lent`).
pub const TABLE: usize = 65536;

pub const WITNESS: usize = 5041;

pub const AREA: usize = 1024;

#[derive(Drop)]
pub struct Buffers {
    pub table: [u8; TABLE],
    pub witness: [u8; WITNESS],
    pub area: [u8; AREA],
}

// No printed line is longer: a report with how long a match can be, and a witness of 5,041 bytes in hex, twice.
const LONGEST: usize = 20417;

// What is asked for a pattern.
pub trait Question {
    ghost asked: { Asked };

    // Appends the answer for a pattern, with the named sets that are loaded. The buffers are lent to the checker.
    fn answer(&self, loaded: &[u8], pattern: &[u8], lent: &mut Buffers, out: &mut Output)
        ensures { Answered loaded.now asked lent.old pattern.now lent.new out.old out.new };
}

// The verdict.
#[derive(Clone, Copy)]
pub struct Verdicts;

// The same with both spans of the witness and its readable form.
#[derive(Clone, Copy)]
pub struct Spans;

// This, and before it how much looking it took.
#[derive(Clone, Copy)]
pub struct Looking;

// And before this how long a match can be.
#[derive(Clone, Copy)]
pub struct Details;

// Its byte groups.
#[derive(Clone, Copy)]
pub struct Groups;

// Appends the verdict's line. The witness stands at the start of its buffer.
pub fn verdict(out: &mut Output, x: Result<Verdict, Refusal>, witness: &[u8])
    ensures printed { Prints (room 50 witness.now) (LineOf x witness.now) out.old out.new }
{
    match x {
        Ok(found) => match found {
            Verdict::Alike { count } => out.alike(count),
            Verdict::Unlike { count, length } => out.unlike(count, length, witness),
        },
        Err(e) => out.refused(e.fault.number(), e.place),
    }
}

// Makes the first n bytes of a line readable. Table of named sets and pattern are two parameters here and below, as they are the reader's.
fn make_readable(loaded: &[u8], pattern: &[u8], line: &mut [u8], n: usize)
    requires { n ≤ length line.old }
    ensures { MadeReadable loaded.now pattern.now (take n line.old) (take n line.new) }
{
    let _ = screen::readable(loaded, pattern, &mut line[..n]);
}

// Appends the verdict unlike with both spans of the witness and its readable form. A line that is not cut differently may have no span. The length goes beside the buffer,
// as the checker hands it over.
fn cut_witness<'a>(
    out: &mut Output,
    loaded: &'a [u8],
    pattern: &'a [u8],
    count: usize,
    length: usize,
    witness: &'a [u8; WITNESS],
)
    ensures { Prints (room (room 136 witness.now) witness.now) (Shown loaded.now pattern.now count (take length witness.now)) out.old out.new }
{
    let cut = readings::cut_line(loaded, pattern, lines::first_of(witness, length));
    let Ok(spans) = cut else {
        out.unlike(count, length, witness);
        return;
    };
    let Some(x) = spans else {
        out.unlike(count, length, witness);
        return;
    };
    let mut readable = *witness;
    let end = length.min(WITNESS);
    make_readable(loaded, pattern, &mut readable, end);
    out.explained(count, end, witness, x.start, x.greedy, x.posix, &readable);
}

// Appends the verdict's line, with both spans of the witness and its readable form where there is one.
fn explained<'a>(
    out: &mut Output,
    loaded: &'a [u8],
    pattern: &'a [u8],
    x: Result<Verdict, Refusal>,
    witness: &'a [u8; WITNESS],
)
    ensures { Explained loaded.now pattern.now x witness.now out.old out.new }
{
    match x {
        Ok(found) => match found {
            Verdict::Alike { count } => out.alike(count),
            Verdict::Unlike { count, length } => {
                cut_witness(out, loaded, pattern, count, length, witness)
            }
        },
        Err(e) => out.refused(e.fault.number(), e.place),
    }
}

// Appends how long a match of a pattern can be, if the pattern is not refused.
fn ahead(out: &mut Output, loaded: &[u8], pattern: &[u8])
    ensures { Begun loaded.now pattern.now out.old out.new }
{
    if let Ok(reading) = reader::read(loaded, pattern) {
        out.lengths(reading.lengths.least, reading.lengths.greatest);
    }
}

impl Buffers {
    // Nothing is checked yet.
    pub fn new() -> Buffers
        ensures new { result ≡ record { table = replicate 65536 0; witness = replicate 5041 0; area = replicate 1024 0 } }
    {
        Buffers {
            table: [0; TABLE],
            witness: [0; WITNESS],
            area: [0; AREA],
        }
    }

    // Appends how much looking the check of a pattern took, and the verdict with the spans of the witness and its readable form.
    fn report(&mut self, loaded: &[u8], pattern: &[u8], out: &mut Output)
        ensures { Prints 20360 (λ w. Reported loaded.now self.old pattern.now w self.new) out.old out.new }
    {
        let x = checker::check_looking(
            loaded,
            pattern,
            &mut self.table,
            &mut self.witness,
            &mut self.area,
        );
        out.looking(x.looking.looks, x.looking.comparisons);
        explained(out, loaded, pattern, x.verdict, &self.witness);
    }
}

impl Question for Verdicts {
    ghost asked = { for_verdict };

    fn answer(&self, loaded: &[u8], pattern: &[u8], lent: &mut Buffers, out: &mut Output) {
        let x = checker::check(
            loaded,
            pattern,
            &mut lent.table,
            &mut lent.witness,
            &mut lent.area,
        );
        verdict(out, x, &lent.witness);
    }
}

impl Question for Spans {
    ghost asked = { for_spans };

    fn answer(&self, loaded: &[u8], pattern: &[u8], lent: &mut Buffers, out: &mut Output) {
        let x = checker::check(
            loaded,
            pattern,
            &mut lent.table,
            &mut lent.witness,
            &mut lent.area,
        );
        explained(out, loaded, pattern, x, &lent.witness);
    }
}

impl Question for Looking {
    ghost asked = { for_looking };

    fn answer(&self, loaded: &[u8], pattern: &[u8], lent: &mut Buffers, out: &mut Output) {
        lent.report(loaded, pattern, out);
    }
}

impl Question for Details {
    ghost asked = { for_details };

    fn answer(&self, loaded: &[u8], pattern: &[u8], lent: &mut Buffers, out: &mut Output) {
        ahead(out, loaded, pattern);
        lent.report(loaded, pattern, out);
    }
}

impl Question for Groups {
    ghost asked = { for_groups };

    // Groups need no buffer.
    fn answer(&self, loaded: &[u8], pattern: &[u8], _lent: &mut Buffers, out: &mut Output) {
        match screen::groups(loaded, pattern) {
            Ok(own) => out.groups(&own.group),
            Err(e) => out.refused(e.fault.number(), e.place),
        }
    }
}

// The answers to patterns: the table of named sets that is loaded, what is lent to the checker, and what is asked.
#[derive(Drop)]
pub struct Patterns<'a, Q> {
    pub loaded: &'a [u8],
    pub lent: Buffers,
    pub question: Q,
}

impl<'a, Q: Question> Responder for Patterns<'a, Q> {
    ghost answers = { λ x l w y. (y.loaded.now ≡ x.loaded.now) × Answer x.loaded.now Q.asked x.lent l w y.lent };

    ghost LONGEST = { 20417 };

    fn longest(&self) -> usize {
        LONGEST
    }

    fn answer(&mut self, out: &mut Output, line: &[u8]) {
        self.question.answer(self.loaded, line, &mut self.lent, out);
    }
}

// Answers the patterns of the input, until it is over or a read or a write fails. It is no part of its caller's frame, so that a program that asks one of several questions has one
// set of buffers on its stack.
#[inline(never)]
pub fn run<P: Print, R: Read, Q: Question + Drop>(
    rt: &P,
    reader: &mut R,
    input: &mut Input,
    out: &mut Output,
    loaded: &[u8],
    question: Q,
)
    ensures finished { Finished input.new out.new }
{
    out.used = 0;
    let mut patterns = Patterns {
        loaded,
        lent: Buffers::new(),
        question,
    };
    input.run(rt, reader, &mut patterns, out);
}

// The input of a program that answers patterns with the fixed table of named sets, when there is no further line.
pub fn serve<P: Print, R: Read, Q: Question + Drop>(rt: &P, reader: &mut R, question: Q) -> Input
    ensures ended { goes_on result ≡ false }
{
    let fixed = sets::fixed();
    let mut input = Input::new();
    let mut out = Output::new();
    run(rt, reader, &mut input, &mut out, &fixed, question);
    input
}
