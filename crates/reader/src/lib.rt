// Reads a pattern: alternation, sequence and atom call each other, and the bytes left fall. The codes of the written-out pattern go to an array that is lent.
// Limits and refusals: paper 01, "The pattern's grammar" and "Refusals"; paper 02, request 9: a table of named sets that fails its checks.
#![tactic(auto)]

ghost use Rattle.std.specs.Prelude.{◌≡◌, ◌≢◌, ℕ, ◌+◌, ◌≤◌, ◌<◌, min, max, List, [], ◌∷◌, length, get_or, replicate};
ghost use Rattle.grammar.specs.Limits.{max_bytes};
ghost use Rattle.grammar.specs.Brackets.{max_fields};
ghost use Rattle.grammar.specs.Code.Tokens.{max_parts};
ghost use Rattle.grammar.specs.Code.Codes.{empty_kind, sequence_kind, first_field, first_leaf};
ghost use Rattle.reader.specs.Steps.{is_special, sign_end, one_more, Begun, Ready, AtomAt, AlternationRead, SequenceRead, AtomRead, LeafRead, RepeatRead, AddedIf, LeafAdded};
ghost use Rattle.reader.specs.Reading.{WithinRead, TextRead, ReadRight};

pub mod refusal;
mod size;

use arrays::{Codes, Pattern};
use lengths::Lengths;
use refusal::{Fault, Refusal};
use scanner::Count;
pub use size::Size;

// An accepted pattern's arrays, its brackets and how long its matches can be.
#[derive(Drop)]
pub struct Reading {
    pub pattern: Pattern,
    pub brackets: Brackets,
    pub lengths: Lengths,
}

// What reading from a place finds: the place after it, and its size.
#[derive(Clone, Copy)]
pub struct Found {
    pub at: usize,
    pub size: Size,
}

// The opening brackets of the text: how many there are, and the place of the ninth if there is one.
#[derive(Clone, Copy)]
pub struct Brackets {
    pub count: usize,
    pub ninth: Option<usize>,
}

// Of a text that is accepted: its brackets and its lengths.
#[derive(Clone, Copy)]
pub struct Text {
    pub brackets: Brackets,
    pub lengths: Lengths,
}

// The byte that begins a count.
const BRACE: u8 = b'{';

// The byte that makes a repeat lazy.
const SIGN: u8 = b'?';

impl Brackets {
    // One bracket more, at the place `at`.
    fn open(&mut self, at: usize)
        requires { self.old.count ≤ max_bytes }
        ensures { self.new ≡ one_more self.old at }
    {
        if self.count == Pattern::MAX_FIELDS {
            self.ninth = Some(at);
        }
        self.count += 1;
    }
}

// An empty sequence is a part of its own.
fn push_if_empty(a: &mut Codes, w: usize)
    ensures { AddedIf (w ≡ 0) a.old.items a.old.len empty_kind a.new.items a.new.len }
{
    if w == 0 {
        tokens::push(a, tokens::EMPTY);
    }
}

// A sequence goes on after its part.
fn push_if_more(a: &mut Codes, w: usize)
    ensures { AddedIf (w ≢ 0) a.old.items a.old.len sequence_kind a.new.items a.new.len }
{
    if w != 0 {
        tokens::push(a, tokens::SEQUENCE);
    }
}

// The place after a repeat that ends at `at`, and after the sign that makes it lazy.
fn past(s: &[u8], at: usize) -> usize
    ensures { result ≡ sign_end s.now at }
{
    if scanner::has_byte(s, at, SIGN) {
        return at + 1;
    }
    at
}

// The count after an atom of the size x whose codes begin at `from`.
fn counted(s: &[u8], at: usize, x: Size, a: &mut Codes, from: usize) -> Result<Found, Refusal>
    requires { Ready s.now at × (at < length s.now) × (get_or s.now at 0 ≡ 123) }
    ensures { RepeatRead s.now at x a.old.items a.old.len from a.new.items a.new.len result }
{
    let Some(count) = scanner::read_count(s, at + 1) else {
        return Err(Fault::BadCount.at(at));
    };
    let lazy = scanner::has_byte(s, count.next, SIGN);
    let end = past(s, count.next);
    match count.value {
        Count::Exactly { times } => {
            // nothing is optional here, so the sign has no effect
            tokens::exactly(a, from, times);
            Ok(Found {
                at: end,
                size: x.up_to(times, times),
            })
        }
        Count::AtLeast { times } => {
            tokens::at_least(a, from, times, lazy);
            Ok(Found {
                at: end,
                size: x.or_more(times),
            })
        }
        Count::Between { least, most } => {
            tokens::between(a, from, least, most, lazy);
            Ok(Found {
                at: end,
                size: x.up_to(least, most),
            })
        }
    }
}

// The repeat after an atom, or none.
fn repeat(s: &[u8], at: usize, x: Size, a: &mut Codes, from: usize) -> Result<Found, Refusal>
    requires { Ready s.now at }
    ensures { RepeatRead s.now at x a.old.items a.old.len from a.new.items a.new.len result }
{
    if at == s.len() {
        return Ok(Found { at, size: x });
    }
    let b = s[at];
    if b == BRACE {
        return counted(s, at, x, a, from);
    }
    let lazy = scanner::has_byte(s, at + 1, SIGN);
    let end = past(s, at + 1);
    if b == b'*' {
        tokens::star(a, from, lazy);
        return Ok(Found {
            at: end,
            size: x.or_more(0),
        });
    }
    if b == b'+' {
        tokens::at_least(a, from, 1, lazy);
        return Ok(Found {
            at: end,
            size: x.or_more(1),
        });
    }
    if b == b'?' {
        tokens::between(a, from, 0, 1, lazy);
        return Ok(Found {
            at: end,
            size: x.up_to(0, 1),
        });
    }
    Ok(Found { at, size: x })
}

// A bracket after n others is a field if it is one of the first eight.
fn push_field(a: &mut Codes, n: usize)
    ensures { AddedIf (n < max_fields) a.old.items a.old.len (first_field + n) a.new.items a.new.len }
{
    if n < Pattern::MAX_FIELDS {
        tokens::push(a, arrays::FIELD_CODE + n as u16);
    }
}

// A leaf that ends before `end`. Its code is its place after the kinds.
fn found_leaf(at: usize, end: usize, a: &mut Codes) -> Found
    requires { at ≤ max_bytes }
    ensures { LeafAdded at end a.old.items a.old.len a.new.items a.new.len result }
{
    tokens::push(a, arrays::LEAF_CODE + at as u16);
    Found {
        at: end,
        size: Size::leaf(),
    }
}

// An escaped byte.
fn escaped(s: &[u8], at: usize, depth: usize, a: &mut Codes) -> Result<Found, Refusal>
    requires { Begun s.now at depth × (at < length s.now) × (get_or s.now at 0 ≡ 92) }
    ensures { LeafRead s.now at depth a.old.items a.old.len a.new.items a.new.len result }
{
    if at + 1 < s.len() {
        if scanner::is_special(s[at + 1]) {
            return Ok(found_leaf(at, at + 2, a));
        }
    }
    Err(Fault::BadEscape.at(at))
}

// A class.
fn class_atom(s: &[u8], at: usize, depth: usize, a: &mut Codes) -> Result<Found, Refusal>
    requires { Begun s.now at depth × (at < length s.now) × (get_or s.now at 0 ≡ 91) }
    ensures { LeafRead s.now at depth a.old.items a.old.len a.new.items a.new.len result }
{
    let Some(next) = scanner::read_class(s, at + 1) else {
        return Err(Fault::BadClass.at(at));
    };
    Ok(found_leaf(at, next, a))
}

// An atom that is no group.
fn leaf(s: &[u8], at: usize, depth: usize, a: &mut Codes) -> Result<Found, Refusal>
    requires { Begun s.now at depth × AtomAt s.now at × (get_or s.now at 0 ≢ 40) }
    ensures { LeafRead s.now at depth a.old.items a.old.len a.new.items a.new.len result }
{
    let b = s[at];
    if b == b'\\' {
        return escaped(s, at, depth, a);
    }
    if b == b'[' {
        return class_atom(s, at, depth, a);
    }
    if b == b'.' {
        return Ok(found_leaf(at, at + 1, a));
    }
    if scanner::is_special(b) {
        return Err(Fault::StrayByte.at(at));
    }
    Ok(found_leaf(at, at + 1, a))
}

// From here on b is the brackets before the place. The text, the place and the depth stay three parameters: two of them change with each call, and what is known of all
// three, `Begun`, is another fact at each call.
#[cycle(alternation_atom_sequence)]
fn alternation(
    s: &[u8],
    at: usize,
    depth: usize,
    a: &mut Codes,
    b: &mut Brackets,
) -> Result<Found, Refusal>
    requires { Begun s.now at depth × (b.old.count ≤ at) }
    ensures { AlternationRead s.now at depth a.old.items a.old.len a.new.items a.new.len b.old b.new result }
{
    let first = sequence(s, at, depth, a, b)?;
    push_if_empty(a, first.size.weight);
    let own = first.size.one_at_least();
    if first.at < s.len() {
        if s[first.at] == b'|' {
            let rest = alternation(s, first.at + 1, depth, a, b)?;
            tokens::push(a, tokens::ALTERNATION);
            return Ok(Found {
                at: rest.at,
                size: own.one_of(rest.size),
            });
        }
    }
    Ok(Found {
        at: first.at,
        size: own,
    })
}

#[cycle(alternation_atom_sequence)]
fn sequence(
    s: &[u8],
    at: usize,
    depth: usize,
    a: &mut Codes,
    b: &mut Brackets,
) -> Result<Found, Refusal>
    requires { Begun s.now at depth × (b.old.count ≤ at) }
    ensures { SequenceRead s.now at depth a.old.items a.old.len a.new.items a.new.len b.old b.new result }
{
    if at == s.len() {
        return Ok(Found {
            at,
            size: Size::nothing(),
        });
    }
    let c = s[at];
    if c == b'|' {
        return Ok(Found {
            at,
            size: Size::nothing(),
        });
    }
    if c == b')' {
        return Ok(Found {
            at,
            size: Size::nothing(),
        });
    }
    let from = a.len;
    let part = atom(s, at, depth, a, b)?;
    let repeated = repeat(s, part.at, part.size, a, from)?;
    let rest = sequence(s, repeated.at, depth, a, b)?;
    push_if_more(a, rest.size.weight);
    Ok(Found {
        at: rest.at,
        size: repeated.size.in_row(rest.size),
    })
}

#[cycle(alternation_atom_sequence)]
fn atom(
    s: &[u8],
    at: usize,
    depth: usize,
    a: &mut Codes,
    b: &mut Brackets,
) -> Result<Found, Refusal>
    requires { Begun s.now at depth × AtomAt s.now at × (b.old.count ≤ at) }
    ensures { AtomRead s.now at depth a.old.items a.old.len a.new.items a.new.len b.old b.new result }
{
    let c = s[at];
    if c != b'(' {
        return leaf(s, at, depth, a);
    }
    if depth == Pattern::MAX_DEPTH {
        return Err(Fault::TooDeep.at(at));
    }
    let before = b.count;
    b.open(at);
    let inner = alternation(s, at + 1, depth + 1, a, b)?;
    if inner.at == s.len() {
        return Err(Fault::LeftOpen.at(inner.at));
    }
    push_field(a, before);
    Ok(Found {
        at: inner.at + 1,
        size: inner.size,
    })
}

// Reads the text of a pattern of at most 255 bytes. Its codes go to the array, which has none yet.
fn read_within(s: &[u8], a: &mut Codes) -> Result<Text, Refusal>
    requires { (length s.now ≤ max_bytes) × (a.old.items ≡ replicate max_parts 0) × (a.old.len ≡ 0) }
    ensures { WithinRead s.now a.new result }
{
    let mut brackets = Brackets {
        count: 0,
        ninth: None,
    };
    let whole = alternation(s, 0, 0, a, &mut brackets)?;
    // a `)` where the alternation ends has no `(`
    if whole.at < s.len() {
        return Err(Fault::StrayByte.at(whole.at));
    }
    if Pattern::MAX_WEIGHT < whole.size.weight {
        return Err(Fault::TooHeavy.at(whole.at));
    }
    Ok(Text {
        brackets,
        lengths: whole.size.lengths,
    })
}

// The same for a pattern of any length and with a table of named sets of any length and content, which is checked first.
fn read_text(loaded: &[u8], s: &[u8], a: &mut Codes) -> Result<Text, Refusal>
    requires { (a.old.items ≡ replicate max_parts 0) × (a.old.len ≡ 0) }
    ensures { TextRead loaded.now s.now a.new result }
{
    sets::check(loaded)?;
    if Pattern::MAX_BYTES < s.len() {
        return Err(Fault::TooLong.at(Pattern::MAX_BYTES));
    }
    read_within(s, a)
}

// Reads a pattern of any bytes and any length, with a table of named sets of any length and content. Both come from the caller, each of its own origin, here and in the
// calls above.
pub fn read(loaded: &[u8], s: &[u8]) -> Result<Reading, Refusal>
    ensures right { ReadRight loaded.now s.now result }
{
    let mut codes = Codes {
        items: [0u16; Pattern::MAX_PARTS],
        len: 0,
    };
    let text = read_text(loaded, s, &mut codes)?;
    Ok(Reading {
        pattern: arrays::finish(loaded, s, &codes),
        brackets: text.brackets,
        lengths: text.lengths,
    })
}
