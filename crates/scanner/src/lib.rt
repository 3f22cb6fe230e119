// The pieces of a pattern's text: an item of a class, a class, a count, and whether the leaf at a place holds a byte, by the table of named sets that is loaded.
// No function reads past the text, and each has an answer for every place.
#![tactic(auto)]

ghost use Rattle.std.specs.Prelude.{◌≡◌, ◌<◌, eqb, get_or, drop};
ghost use Rattle.std.specs.List.{starts_with};
ghost use Rattle.grammar.specs.Grammar.{kind, special, inside, marked};
ghost use Rattle.grammar.specs.Sets.{is_on, spans};
ghost use Rattle.grammar.specs.Code.Reader.{read_escaped, read_inner, read_class};
ghost use Rattle.grammar.specs.Code.Codes.{first_holds, found_holds, leaf_holds};
ghost use Rattle.scanner.specs.Scanned.{ItemFound, ClassFound, CountFound};
ghost use Rattle.scanner.specs.Parts.{first_of, named_at, digit_of, InnerFound, RangeFound, NamedFound, ItemTaken, ItemsTaken, AllTaken, ClassHeld, NumberFound, LeastFound, SecondFound};

// A count is of at most 63 times.
const MOST_TIMES: usize = 63;

// What stands at a place, and the place after it.
#[derive(Clone, Copy, PartialEq, Eq)]
pub struct Read<T> {
    pub value: T,
    pub next: usize,
}

// An item of a class.
#[derive(Clone, Copy, PartialEq, Eq)]
pub enum Item {
    Single { byte: u8 },
    Range { low: u8, high: u8 },
    Named { bit: u8 },
}

// A count.
#[derive(Clone, Copy, PartialEq, Eq)]
pub enum Count {
    Exactly { times: usize },
    AtLeast { times: usize },
    Between { least: usize, most: usize },
}

// Whether b is from low to high.
fn within(low: u8, high: u8, b: u8) -> bool
    ensures { result ≡ spans low high b }
{
    (low..=high).contains(&b)
}

// Special outside a class: `( ) * +`, `[ \ ] ^`, `{ | }`, `$`, `.` and `?`.
#[tactic(auto, using(crate::proofs::Bytes::special_byte, std::proofs::lemmas::Bool::Decides::nat_tests))]
pub fn is_special(b: u8) -> bool
    ensures { result ≡ special (kind b) }
{
    matches!(
        b,
        b'('..=b'+' | b'['..=b'^' | b'{'..=b'}' | b'$' | b'.' | b'?'
    )
}

// Inside a class only a `\` makes these a byte of it: `[ \ ] ^` and `-`.
#[tactic(auto, using(crate::proofs::Bytes::marked_byte, std::proofs::lemmas::Bool::Decides::nat_tests))]
fn is_marked(b: u8) -> bool
    ensures { result ≡ marked (inside b) }
{
    matches!(b, b'['..=b'^' | b'-')
}

// The byte at a place.
fn byte_at(s: &[u8], at: usize) -> Option<u8>
    ensures { result ≡ first_of (drop at s.now) }
{
    s.get(at).copied()
}

// Whether the byte at a place is b.
pub fn has_byte(s: &[u8], at: usize, b: u8) -> bool
    ensures here { result ≡ first_holds (drop at s.now) b }
{
    s.get(at) == Some(&b)
}

// Whether the bytes of the name stand at a place.
fn same_at(s: &[u8], at: usize, name: &[u8]) -> bool
    ensures { result ≡ starts_with eqb (drop at s.now) name.now }
{
    s[at.min(s.len())..].starts_with(name)
}

// The byte after a `\`.
fn read_escaped(s: &[u8], at: usize) -> Option<Read<u8>>
    ensures { InnerFound (read_escaped (drop at s.now)) s.now at result }
{
    let b = byte_at(s, at)?;
    if is_marked(b) {
        return Some(Read {
            value: b,
            next: at + 1,
        });
    }
    None
}

// A byte of a class: bare, or after a `\`.
fn read_inner(s: &[u8], at: usize) -> Option<Read<u8>>
    ensures { InnerFound (read_inner (drop at s.now)) s.now at result }
{
    let b = byte_at(s, at)?;
    if b == b'\\' {
        return read_escaped(s, at + 1);
    }
    if is_marked(b) {
        return None;
    }
    let next = at + 1;
    Some(Read { value: b, next })
}

// After the byte low: a range if `-` follows.
fn read_range(s: &[u8], at: usize, low: u8) -> Option<Read<Item>>
    ensures { RangeFound s.now at low result }
{
    if !has_byte(s, at, b'-') {
        return Some(Read {
            value: Item::Single { byte: low },
            next: at,
        });
    }
    let last = read_inner(s, at + 1)?;
    let high = last.value;
    if low <= high {
        return Some(Read {
            value: Item::Range { low, high },
            next: last.next,
        });
    }
    None
}

// The named set if its name stands at a place.
fn named(s: &[u8], at: usize, name: &[u8], bit: u8) -> Option<Read<Item>>
    ensures { result ≡ named_at s.now at name.now bit }
{
    if same_at(s, at, name) {
        return Some(Read {
            value: Item::Named { bit },
            next: at + name.len(),
        });
    }
    None
}

// A named set, from after its `[`. The bits are those of a table's entries.
fn read_named(s: &[u8], at: usize) -> Option<Read<Item>>
    ensures { NamedFound s.now at result }
{
    named(s, at, b":alpha:]", 128)
        .or(named(s, at, b":digit:]", 64))
        .or(named(s, at, b":alnum:]", 32))
        .or(named(s, at, b":upper:]", 16))
        .or(named(s, at, b":lower:]", 8))
        .or(named(s, at, b":xdigit:]", 4))
        .or(named(s, at, b":space:]", 2))
        .or(named(s, at, b":punct:]", 1))
}

// The item of a class at a place.
pub fn read_item(s: &[u8], at: usize) -> Option<Read<Item>>
    ensures found { ItemFound s.now at result }
{
    if has_byte(s, at, b'[') {
        return read_named(s, at + 1);
    }
    let first = read_inner(s, at)?;
    read_range(s, first.next, first.value)
}

// The named sets that hold b, as bits. A byte that has no entry is in none.
fn set_bits(loaded: &[u8], b: u8) -> u8
    ensures { result ≡ get_or loaded.now b 0 }
{
    loaded.get(usize::from(b)).copied().unwrap_or(0)
}

// Whether the named set of the bit holds b.
fn in_set(loaded: &[u8], bit: u8, b: u8) -> bool
    requires { 0 < bit }
    ensures { result ≡ is_on (get_or loaded.now b 0) bit }
{
    set_bits(loaded, b) / bit % 2 == 1
}

// One item more, after items of which one holds b if held: whether one of all does.
fn take_item(loaded: &[u8], s: &[u8], at: usize, b: u8, held: bool) -> Option<Read<bool>>
    ensures { ItemTaken loaded.now s.now at b held result }
{
    let item = read_item(s, at)?;
    let next = item.next;
    match item.value {
        Item::Single { byte } => Some(Read {
            value: held | (b == byte),
            next,
        }),
        Item::Range { low, high } => Some(Read {
            value: held | within(low, high, b),
            next,
        }),
        Item::Named { bit } => Some(Read {
            value: held | in_set(loaded, bit, b),
            next,
        }),
    }
}

// The items up to the `]` that ends the class. An item has no fixed length, so the place moves by what was read.
fn take_items(loaded: &[u8], s: &[u8], at: usize, b: u8, held: bool) -> Option<Read<bool>>
    ensures { ItemsTaken loaded.now s.now at b held result }
{
    let mut i = at;
    let mut holds = held;
    while i < s.len() {
        if s[i] == b']' {
            return Some(Read {
                value: holds,
                next: i + 1,
            });
        }
        let item = take_item(loaded, s, i, b, holds)?;
        i = item.next;
        holds = item.value;
    }
    None
}

// The items of a class, one or more.
fn take_all(loaded: &[u8], s: &[u8], at: usize, b: u8) -> Option<Read<bool>>
    ensures { AllTaken loaded.now s.now at b result }
{
    let first = take_item(loaded, s, at, b, false)?;
    take_items(loaded, s, first.next, b, first.value)
}

// A class, from after its `[`, and whether it holds b.
fn class_at(loaded: &[u8], s: &[u8], at: usize, b: u8) -> Option<Read<bool>>
    ensures { ClassHeld loaded.now s.now at b result }
{
    if !has_byte(s, at, b'^') {
        return take_all(loaded, s, at, b);
    }
    let items = take_all(loaded, s, at + 1, b)?;
    Some(Read {
        value: !items.value,
        next: items.next,
    })
}

// The place after a class, from after its `[`. What the class holds does not matter here, so it is asked for any byte, by no table.
pub fn read_class(s: &[u8], at: usize) -> Option<usize>
    ensures found { ClassFound s.now at result }
{
    let class = class_at(b"", s, at, 0)?;
    Some(class.next)
}

// A class that is not one holds no byte.
fn class_holds(loaded: &[u8], s: &[u8], at: usize, b: u8) -> bool
    ensures { result ≡ found_holds loaded.now (read_class (drop at s.now)) b }
{
    match class_at(loaded, s, at, b) {
        Some(class) => class.value,
        None => false,
    }
}

// Whether the leaf at a place holds b: a byte after `\`, a class, `.`, or a byte that is not special. What is no leaf holds nothing.
// The table that is loaded and the text are two parameters here and in what calls this: each call may have another table.
pub fn leaf_holds(loaded: &[u8], s: &[u8], at: usize, b: u8) -> bool
    ensures member { result ≡ leaf_holds loaded.now (drop at s.now) b }
{
    let Some(first) = byte_at(s, at) else {
        return false;
    };
    match first {
        b'\\' => has_byte(s, at + 1, b),
        b'[' => class_holds(loaded, s, at + 1, b),
        b'.' => b != b'\n',
        c => !is_special(c) && b == c,
    }
}

// The value of the digit at a place.
fn digit(s: &[u8], at: usize) -> Option<usize>
    ensures { result ≡ digit_of (drop at s.now) }
{
    let b = byte_at(s, at)?;
    if b.is_ascii_digit() {
        return Some(usize::from(b - b'0'));
    }
    None
}

// One or two digits.
fn read_digits(s: &[u8], at: usize) -> Option<Read<usize>>
    ensures { NumberFound s.now at result }
{
    let tens = digit(s, at)?;
    let next = at + 1;
    let Some(ones) = digit(s, next) else {
        return Some(Read { value: tens, next });
    };
    Some(Read {
        value: 10 * tens + ones,
        next: at + 2,
    })
}

// After the `,` of a count whose first number is m, with no second number.
fn at_least(s: &[u8], at: usize, m: usize) -> Option<Read<Count>>
    ensures { LeastFound s.now at m result }
{
    if !has_byte(s, at, b'}') {
        return None;
    }
    if MOST_TIMES < m {
        return None;
    }
    Some(Read {
        value: Count::AtLeast { times: m },
        next: at + 1,
    })
}

// After the `,` of a count whose first number is m.
fn second(s: &[u8], at: usize, m: usize) -> Option<Read<Count>>
    ensures { SecondFound s.now at m result }
{
    let Some(last) = read_digits(s, at) else {
        return at_least(s, at, m);
    };
    let most = last.value;
    if !has_byte(s, last.next, b'}') {
        return None;
    }
    if most < m {
        return None;
    }
    if MOST_TIMES < most {
        return None;
    }
    Some(Read {
        value: Count::Between { least: m, most },
        next: last.next + 1,
    })
}

// A count, from after its `{`.
pub fn read_count(s: &[u8], at: usize) -> Option<Read<Count>>
    ensures found { CountFound s.now at result }
{
    let first = read_digits(s, at)?;
    let times = first.value;
    if has_byte(s, first.next, b',') {
        return second(s, first.next + 1, times);
    }
    if !has_byte(s, first.next, b'}') {
        return None;
    }
    if MOST_TIMES < times {
        return None;
    }
    Some(Read {
        value: Count::Exactly { times },
        next: first.next + 1,
    })
}
