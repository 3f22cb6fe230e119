// Calls the checker as a library, a call a line: 'PATTERN TABLE WITNESS AREA', that is the pattern in hex ('-' if it is empty) and how many bytes of table, witness
// buffer and area are lent. Before each call every byte of the three arrays is set, also beyond what is lent. Prints the verdict's line, then what the lent table and the
// lent witness buffer hold, in hex, a line each; of the lent area how many zero bytes it begins with, as four hex digits, and the rest in hex; and 'kept' if no byte
// beyond them has changed, else 'touched'. A field that is no number counts as 0.
#![tactic(auto)]

ghost use Rattle.std.specs.Prelude.{◌≡◌, ◌==◌, ◌≤◌, ◌<◌, ◌/◌, min, length, take, drop, replicate};
ghost use Rattle.std.specs.List.{before_first, after_first, list_all, position, take_while};
ghost use Rattle.printing.specs.Text.{room, Prints};

use lines::{Input, Responder};
use printing::Output;

// How many bytes can be lent, and how many a pattern can have.
const TABLE: usize = 8192;

const WITNESS: usize = 1024;

const AREA: usize = 2048;

const PATTERN: usize = 512;

// What every byte is before a call.
const TABLE_BYTE: u8 = 170;

const WITNESS_BYTE: u8 = 187;

const AREA_BYTE: u8 = 204;

// A pattern: its first n bytes.
#[derive(Drop)]
struct Pattern {
    bytes: [u8; PATTERN],
    n: usize,
}

// Bytes that are all `mark` before a call; the first n are lent.
#[derive(Drop)]
struct Lent<const N: usize> {
    bytes: [u8; N],
    n: usize,
    mark: u8,
}

// Answers each line with what the call did.
#[derive(Drop)]
struct Calls;

// The value of a hex digit, 0 for any other byte.
fn value(b: u8) -> u8
    ensures { result < 16 }
{
    match b {
        b'0'..=b'9' => b - b'0',
        b'a'..=b'f' => b - b'a' + 10,
        _ => 0,
    }
}

// Where the first space stands.
fn space_in(s: &[u8]) -> Option<usize>
    ensures { result ≡ position (λ b. b == 32) s.now }
{
    s.iter().position(|b| *b == b' ')
}

// The bytes before the first space, and those after it.
fn cut(s: &[u8]) -> (&[u8], &[u8])
    ensures before { result.0.now ≡ before_first (λ b. b == 32) s.now }
    ensures after { result.1.now ≡ after_first (λ b. b == 32) s.now }
{
    match space_in(s) {
        Some(i) => (&s[..i], &s[i + 1..]),
        None => (s, b""),
    }
}

// A decimal number, at most `most`. A space counts as a digit 0.
fn number(s: &[u8], most: usize) -> usize
    requires { most ≤ 8192 }
    ensures { result ≤ most }
{
    let mut n = 0;
    for &b in s {
        n = (10 * n + usize::from(value(b))).min(most);
    }
    n
}

// A pattern in hex, a byte for each two digits.
fn unhex(s: &[u8]) -> Pattern
    ensures { result.n ≡ min 512 (length s.now / 2) }
{
    let mut pattern = Pattern {
        bytes: [0; PATTERN],
        n: 0,
    };
    let mut rest = s;
    while let [a, b, more @ ..] = rest {
        if pattern.n < PATTERN {
            pattern.bytes[pattern.n] = 16 * value(*a) + value(*b);
            pattern.n += 1;
        }
        rest = more;
    }
    pattern
}

// Whether every byte is b.
fn only(s: &[u8], b: u8) -> bool
    ensures { result ≡ list_all (λ x. x == b) s.now }
{
    s.iter().all(|x| *x == b)
}

impl<const N: usize> Lent<N> {
    fn new(mark: u8, n: usize) -> Lent<N>
        ensures { result ≡ record { bytes = replicate N mark; n = n; mark = mark } }
    {
        Lent {
            bytes: [mark; N],
            n,
            mark,
        }
    }

    // What is lent.
    fn part(&self) -> &[u8]
        ensures part { result.now ≡ take self.now.n self.now.bytes }
        ensures most { length result.now ≤ N }
    {
        lines::first_of(&self.bytes, self.n)
    }

    // Whether no other byte has changed.
    fn is_kept(&self) -> bool
        ensures { result ≡ list_all (λ x. x == self.now.mark) (drop self.now.n self.now.bytes) }
    {
        only(lines::past_first(&self.bytes, self.n), self.mark)
    }
}

// How many zero bytes come first.
fn zeros(s: &[u8]) -> usize
    ensures { result ≡ length (take_while (λ b. b == 0) s.now) }
{
    s.iter().take_while(|b| **b == 0).count()
}

// An area, whose zero bytes are counted.
fn area_lines(out: &mut Output, s: &[u8])
    ensures { Prints (room 6 s.now) (λ w. Unit {0}) out.old out.new }
{
    let zero = zeros(s);
    let [.., high, low] = zero.to_be_bytes();
    out.bytes(&[high, low]);
    out.bytes(lines::past_first(s, zero));
}

// What was lent after a call, and whether what was not lent is kept. Three slices, each with its own size, as the checker takes them.
fn report<'a>(out: &mut Output, table: &'a [u8], witness: &'a [u8], area: &'a [u8], kept: bool)
    ensures { Prints (room (room (room 16 table.now) witness.now) area.now) (λ w. Unit {0}) out.old out.new }
{
    out.bytes(table);
    out.bytes(witness);
    area_lines(out, area);
    if kept {
        out.text(b"kept");
    } else {
        out.text(b"touched");
    }
}

// Calls the checker with what is lent, and appends its verdict and what the arrays then hold.
fn call(
    out: &mut Output,
    pattern: &Pattern,
    table: &mut Lent<TABLE>,
    witness: &mut Lent<WITNESS>,
    area: &mut Lent<AREA>,
)
    ensures { Prints 24642 (λ w. Unit {0}) out.old out.new }
{
    let x = checker::check(
        &sets::fixed(),
        lines::first_of(&pattern.bytes, pattern.n),
        &mut table.bytes[..table.n.min(TABLE)],
        &mut witness.bytes[..witness.n.min(WITNESS)],
        &mut area.bytes[..area.n.min(AREA)],
    );
    answers::verdict(out, x, &witness.bytes);
    let kept = table.is_kept() && witness.is_kept() && area.is_kept();
    report(out, table.part(), witness.part(), area.part(), kept);
}

impl Responder for Calls {
    ghost answers = { λ x l w y. Unit {0} };

    ghost LONGEST = { 65536 };

    // No answer is longer than 24,642 bytes: the verdict with a witness in hex, the table, the witness buffer, the area and a word. Asking for the whole output has each
    // written out before the next call.
    fn longest(&self) -> usize {
        printing::SIZE
    }

    fn answer(&mut self, out: &mut Output, line: &[u8]) {
        let (hex, rest) = cut(line);
        let (first, rest) = cut(rest);
        let (second, third) = cut(rest);
        call(
            out,
            &unhex(hex),
            &mut Lent::new(TABLE_BYTE, number(first, TABLE)),
            &mut Lent::new(WITNESS_BYTE, number(second, WITNESS)),
            &mut Lent::new(AREA_BYTE, number(third, AREA)),
        );
    }
}

fn main(rt: HostRuntime) {
    let mut input = Input::new();
    input.run(&rt, &mut rt.stdin(), &mut Calls, &mut Output::new());
    input.tell(&rt);
}
