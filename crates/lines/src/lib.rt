// Standard input by lines. Lines may have any length and hold any bytes but the newline; input and output go by chunks, so memory stays the same. A program turns
// between two steps: it answers the lines that end in the chunk, which `pass_line` finds, and exchanges what waits for the next chunk. Only `exchange` reads, and it
// writes first; `write_out` and `tell` only write. The program lends its runtime, which prints, and its reader.
#![tactic(auto)]

ghost use Rattle.std.specs.Prelude.{◌≡◌, ℕ, List, ◌+◌, ◌≤◌, false, leb, drop, take, replicate};
ghost use Rattle.printing.specs.Text.{Prints};
ghost use Rattle.lines.specs.Lines.{BeginsWith, NextLine, rest, held, goes_on, fresh, FirstLine};
ghost use Rattle.lines.specs.Exchange.{Written, filled, has_begun, Exchanged, Took, ReadMore, finished, Finished, fault_line};
ghost use Rattle.lines.specs.Steps.{newline_in, Kept, wants_line, from_place, end_here, text_at, PassLine};
ghost use Rattle.lines.specs.Answers.{Served};

use printing::Output;
use std::io::Read;

// The size of a chunk of the input.
pub const SIZE: usize = 65536;

// How many bytes of a line are kept: one more than an order line may have, which tells a longer one apart.
pub const KEPT: usize = 1025;

// More can be read; the input is over; a read has failed; a write has.
#[derive(Clone, Copy, PartialEq, Eq)]
pub enum Source {
    Open,
    Over,
    Unread,
    Unwritten,
}

// What was read last. The bytes from `at` to `end` are still to be read.
#[derive(Drop)]
pub struct Chunk {
    pub bytes: [u8; SIZE],
    pub at: usize,
    pub end: usize,
}

// The first bytes of the line that was kept last, n of them. If `whole`, what was read last is a newline, and the next byte begins another line. One that is not whole keeps its bytes
// here too: there is one array for both.
#[derive(Drop)]
pub struct Part {
    pub bytes: [u8; KEPT],
    pub n: usize,
    pub whole: bool,
}

// Where a whole line stands: in the chunk, up to its newline, or in what is kept of it.
#[derive(Clone, Copy)]
enum Place {
    Chunk { from: usize, n: usize },
    Kept,
}

// Where a program stands in its input.
#[derive(Drop)]
pub struct Input {
    pub chunk: Chunk,
    pub line: Part,
    pub source: Source,
}

// What answers lines, one after the other.
pub trait Responder {
    // The text answers the line, and what was the first is the last then.
    ghost answers: { Self → List ℕ → List ℕ → Self → Type 0 };

    // No answer has more bytes.
    ghost LONGEST: { ℕ };

    fn longest(&self) -> usize
        ensures { result ≡ LONGEST };

    // Appends the answer to a line.
    fn answer(&mut self, out: &mut Output, line: &[u8])
        ensures { Prints LONGEST (λ w. answers self.old line.now w self.new) out.old out.new };
}

// The first n bytes; all of them where there are fewer.
pub fn first_of(s: &[u8], n: usize) -> &[u8]
    ensures part { result.now ≡ take n s.now }
{
    &s[..n.min(s.len())]
}

// What comes after the first bytes that are skipped: nothing where there are fewer.
pub fn past_first(s: &[u8], skip: usize) -> &[u8]
    ensures part { result.now ≡ drop skip s.now }
{
    &s[skip.min(s.len())..]
}

// Whether the first bytes are those of the word. No crate here calls it; it stays for those who do.
pub fn begins_with<'a>(s: &'a [u8], word: &'a [u8]) -> bool
    ensures begins { BeginsWith s.now word.now result }
{
    s.starts_with(word)
}

// Where the first newline stands.
fn newline_in(s: &[u8]) -> Option<usize>
    ensures { result ≡ newline_in s.now }
{
    s.iter().position(|b| *b == b'\n')
}

impl Chunk {
    // The bytes from a place on.
    fn from(&self, at: usize) -> &[u8]
        ensures { result.now ≡ from_place self.now at }
    {
        past_first(first_of(&self.bytes, self.end), at)
    }

    // The bytes that are still to be read.
    fn rest(&self) -> &[u8]
        ensures { result.now ≡ rest self.now }
    {
        self.from(self.at)
    }
}

impl Part {
    // The bytes that are kept.
    pub fn held(&self) -> &[u8]
        ensures held { result.now ≡ held self.now }
    {
        first_of(&self.bytes, self.n)
    }

    // Bytes of a line are kept that is not whole.
    fn has_begun(&self) -> bool
        ensures { result ≡ has_begun self.now }
    {
        !self.whole && self.n > 0
    }

    // More of a line: it is kept as far as there is room.
    fn keep(&mut self, s: &[u8], whole: bool)
        ensures { Kept self.old s.now whole self.new }
    {
        let n = if self.whole { 0 } else { self.n.min(KEPT) };
        let k = s.len().min(KEPT - n);
        self.bytes[n..n + k].copy_from_slice(&s[..k]);
        self.n = n + k;
        self.whole = whole;
    }
}

impl Input {
    // Nothing is read yet.
    pub fn new() -> Input
        ensures new { result ≡ fresh }
    {
        Input {
            chunk: Chunk {
                bytes: [0; SIZE],
                at: 0,
                end: 0,
            },
            line: Part {
                bytes: [0; KEPT],
                n: 0,
                whole: false,
            },
            source: Source::Open,
        }
    }

    // The line goes on, up to its newline or to the chunk's end.
    pub fn next_line(&mut self)
        ensures next { NextLine self.old self.new }
    {
        let rest = self.chunk.rest();
        match newline_in(rest) {
            Some(i) => {
                self.line.keep(first_of(rest, i), true);
                self.chunk.at += i + 1;
            }
            None => {
                self.line.keep(rest, false);
                self.chunk.at = self.chunk.end;
            }
        }
    }

    // What waits is written out.
    pub fn write_out<P: Print>(&mut self, rt: &P, out: &mut Output)
        ensures written { Written self.old out.old self.new out.new }
    {
        if rt.write_all(first_of(&out.bytes, out.used)).is_err() {
            self.source = Source::Unwritten;
        }
        out.used = 0;
    }

    // The first bytes of the chunk are still to be read, of that source.
    fn fill(&mut self, end: usize, source: Source)
        ensures { self.new ≡ filled self.old self.old.chunk.bytes end source }
    {
        self.chunk.at = 0;
        self.chunk.end = end;
        self.source = source;
    }

    // The input is over: a line that has begun gets the newline that it lacks.
    fn end(&mut self)
        ensures { Took self.old (Some 0) self.new }
    {
        if self.line.has_begun() {
            self.chunk.bytes[0] = b'\n';
            self.fill(1, Source::Over);
        } else {
            self.fill(0, Source::Over);
        }
    }

    // What a read leaves that gives so many bytes, or fails.
    fn took(&mut self, got: Option<usize>)
        ensures { Took self.old got self.new }
    {
        match got {
            None => self.fill(0, Source::Unread),
            Some(n) if n > 0 => self.fill(n.min(SIZE), Source::Open),
            Some(_) => self.end(),
        }
    }

    // Reads once.
    fn read_more<R: Read>(&mut self, reader: &mut R)
        ensures { ReadMore self.old self.new }
    {
        let got = reader.read(&mut self.chunk.bytes).ok();
        self.took(got);
    }

    // What waits is written out; then, where the chunk is read to its end, the next one is read. Nothing is read once the input is over or a read or a write has failed.
    pub fn exchange<P: Print, R: Read>(&mut self, rt: &P, reader: &mut R, out: &mut Output)
        ensures exchanged { Exchanged self.old out.old self.new out.new }
    {
        self.write_out(rt, out);
        if self.source != Source::Open {
            return;
        }
        if self.chunk.at < self.chunk.end {
            return;
        }
        self.read_more(reader);
    }

    // Whether there may be a further line: the input is open, or over and not read to its end.
    pub fn goes_on(&self) -> bool
        ensures going { result ≡ goes_on self.now }
    {
        match self.source {
            Source::Open => true,
            Source::Over => self.chunk.at < self.chunk.end,
            Source::Unread | Source::Unwritten => false,
        }
    }

    // A program ends here. An input that could go on has no turn left, which counts as a read that fails.
    pub fn finish(&mut self)
        ensures finished { self.new ≡ finished self.old }
    {
        if self.goes_on() {
            self.source = Source::Unread;
        }
    }

    // No line is whole yet, and there may be a further one.
    fn wants_line(&self) -> bool
        ensures { result ≡ wants_line self.now }
    {
        !self.line.whole && self.goes_on()
    }

    // Reads until a line is whole: none is where the input is over or cannot be read. The input is lent, so that none of it is copied.
    pub fn first_line<P: Print, R: Read>(&mut self, rt: &P, reader: &mut R, out: &mut Output)
        ensures first { self.old ≡ fresh → FirstLine self.new }
        ensures waits { self.old ≡ fresh → out.new.used ≡ 0 }
    {
        // As in `run`, there is a last turn.
        for _ in 0..u64::MAX {
            if !self.wants_line() {
                break;
            }
            self.exchange(rt, reader, out);
            self.next_line();
        }
        if self.wants_line() {
            let lost = Source::Unread;
            self.source = lost;
        }
    }

    // Where the next line ends, if all of it stands in the chunk.
    fn end_here(&self) -> Option<usize>
        ensures { result ≡ end_here self.now }
    {
        if self.line.has_begun() {
            return None;
        }
        newline_in(self.chunk.rest())
    }

    // The next line is passed, and where it stands is handed out, if it is whole then. As `next_line`, but that a line which stands in the chunk is not copied: most do.
    fn pass_line(&mut self) -> Option<Place>
        ensures { PassLine self.old result self.new }
    {
        if let Some(n) = self.end_here() {
            let from = self.chunk.at;
            self.line.whole = true;
            self.chunk.at = from + n + 1;
            return Some(Place::Chunk { from, n });
        }
        self.next_line();
        if self.line.whole {
            return Some(Place::Kept);
        }
        None
    }

    // The bytes that are kept of a line which stands there, or would be.
    fn text(&self, place: Place) -> &[u8]
        ensures { result.now ≡ text_at self.now place }
    {
        match place {
            Place::Chunk { from, n } => first_of(first_of(self.chunk.from(from), n), KEPT),
            Place::Kept => self.line.held(),
        }
    }

    // Answers the lines that end in the chunk, in their order, while there is room for a further answer.
    pub fn answer_lines<A: Responder>(&mut self, responder: &mut A, out: &mut Output)
        ensures served { Served A.answers A.LONGEST self.old out.old responder.old self.new out.new responder.new }
    {
        while self.chunk.at < self.chunk.end && has_room(out, responder.longest()) {
            if let Some(place) = self.pass_line() {
                responder.answer(out, self.text(place));
            }
        }
    }

    // Answers the lines of the input, until it is over or a read or a write fails.
    pub fn run<P: Print, R: Read, A: Responder>(
        &mut self,
        rt: &P,
        reader: &mut R,
        responder: &mut A,
        out: &mut Output,
    )
        ensures finished { out.old.used ≡ 0 → Finished self.new out.new }
        ensures closed { goes_on self.new ≡ false }
    {
        // A loop must end, and an input need not: no program comes to so many turns.
        for _ in 0..u64::MAX {
            if !self.goes_on() {
                break;
            }
            self.answer_lines(responder, out);
            self.exchange(rt, reader, out); // what waits goes out
        }
        self.finish();
    }

    // Writes the line that tells a failure to standard error: none where there is no failure.
    pub fn tell<P: Eprint>(&self, rt: &P) -> &'static str
        ensures told { result.now ≡ fault_line self.now.source }
    {
        let line = fault(self.source);
        let _ = rt.eprint(line);
        line
    }
}

// Whether so many bytes still fit after those that wait.
pub fn has_room(out: &Output, longest: usize) -> bool
    ensures room { result ≡ leb (out.now.used + longest) 65536 }
{
    longest <= printing::SIZE && out.used <= printing::SIZE - longest
}

// The same of a new input.
pub fn first_line<P: Print, R: Read>(rt: &P, reader: &mut R, out: &mut Output) -> Input
    ensures first { FirstLine result }
    ensures waits { out.new.used ≡ 0 }
{
    let mut input = Input::new();
    input.first_line(rt, reader, out);
    input
}

// The line that tells a failure: nothing where there is none.
fn fault(source: Source) -> &'static str
    ensures { result.now ≡ fault_line source }
{
    match source {
        Source::Open => "",
        Source::Over => "",
        Source::Unread => "yindorka: standard input cannot be read\n",
        Source::Unwritten => "yindorka: standard output cannot be written\n",
    }
}
