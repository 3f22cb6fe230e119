// The tables of named sets: the fixed one of paper 01, and the checks of a carrier's own (paper 02, request 9). Each of the 256 entries has the sets that hold its byte, from
// the highest bit: alpha, digit, alnum, upper, lower, xdigit, space, punct.
#![tactic(auto)]

ghost use Rattle.std.specs.Prelude.{◌≡◌, ◌<◌, not};
ghost use Rattle.grammar.specs.Sets.{set_table, is_on};
ghost use Rattle.grammar.specs.Loaded.{passes};
ghost use Rattle.sets.specs.Checks.{Checks};

// The bits of an entry. They are numbers, since carriers hand over tables of such bytes.
const ALPHA: u8 = 128;

const DIGIT: u8 = 64;

const ALNUM: u8 = 32;

const UPPER: u8 = 16;

const LOWER: u8 = 8;

const XDIGIT: u8 = 4;

const SPACE: u8 = 2;

const PUNCT: u8 = 1;

// How many entries a table has.
pub const ENTRIES: usize = 256;

// Where a table fails its checks: at its lowest failing entry, or at 256 if it has not 256 entries. That is a place like the others, one past the last, and printed as one.
#[derive(Clone, Copy, PartialEq, Eq)]
pub struct Faulty {
    pub place: usize,
}

// The fixed table.
pub fn fixed() -> [u8; ENTRIES]
    ensures fixed { result ≡ set_table }
{
    SETS
}

// Whether an entry has the set of the bit.
fn has(entry: u8, bit: u8) -> bool
    requires { 0 < bit }
    ensures { result ≡ is_on entry bit }
{
    entry / bit % 2 == 1
}

// Whether an entry passes: alnum is alpha or digit; upper and lower lie within alpha, digit within xdigit; alpha and digit share no byte, nor does punct with alnum or space.
fn passes(entry: u8) -> bool
    ensures { result ≡ passes entry }
{
    let alpha = has(entry, ALPHA);
    let digit = has(entry, DIGIT);
    let alnum = has(entry, ALNUM);
    let upper = has(entry, UPPER);
    let lower = has(entry, LOWER);
    let xdigit = has(entry, XDIGIT);
    let space = has(entry, SPACE);
    let punct = has(entry, PUNCT);
    (alnum == (alpha | digit))
        & (alpha | !(upper | lower))
        & (xdigit | !digit)
        & !(alpha & digit)
        & !(punct & (alnum | space))
}

// Whether an entry fails. Most bytes are in no set, and then there is nothing to check.
fn fails(entry: u8) -> bool
    ensures { result ≡ not (passes entry) }
{
    if entry == 0 {
        return false;
    }
    !passes(entry)
}

// Checks a table of any length and content.
pub fn check(loaded: &[u8]) -> Result<(), Faulty>
    ensures checked { Checks loaded.now result }
{
    if loaded.len() != ENTRIES {
        return Err(Faulty { place: ENTRIES });
    }
    for (place, entry) in loaded.iter().enumerate() {
        if fails(*entry) {
            return Err(Faulty { place });
        }
    }
    Ok(())
}

// The named sets that hold each byte, from the highest bit: alpha, digit, alnum, upper, lower, xdigit, space, punct.
const SETS: [u8; 256] = [
    0, 0, 0, 0, 0, 0, 0, 0, 0, 2, // tab
    2, 2, 2, 2, // carriage return
    0, 0, 0, 0, 0, 0, 0, 0, 0, 0, 0, 0, 0, 0, 0, 0, 0, 0, 2, // space
    1, 1, 1, 1, 1, 1, 1, 1, 1, 1, 1, 1, 1, 1, 1, 100, // 0
    100, 100, 100, 100, 100, 100, 100, 100, 100, // 9
    1, 1, 1, 1, 1, 1, 1, 180, // A
    180, 180, 180, 180, 180, // F
    176, 176, 176, 176, 176, 176, 176, 176, 176, 176, 176, 176, 176, 176, 176, 176, 176, 176, 176,
    176, // Z
    1, 1, 1, 1, 1, 1, 172, // a
    172, 172, 172, 172, 172, // f
    168, 168, 168, 168, 168, 168, 168, 168, 168, 168, 168, 168, 168, 168, 168, 168, 168, 168, 168,
    168, // z
    1, 1, 1, 1, // ~
    0, 0, 0, 0, 0, 0, 0, 0, 0, 0, 0, 0, 0, 0, 0, 0, 0, 0, 0, 0, 0, 0, 0, 0, 0, 0, 0, 0, 0, 0, 0, 0,
    0, 0, 0, 0, 0, 0, 0, 0, 0, 0, 0, 0, 0, 0, 0, 0, 0, 0, 0, 0, 0, 0, 0, 0, 0, 0, 0, 0, 0, 0, 0, 0,
    0, 0, 0, 0, 0, 0, 0, 0, 0, 0, 0, 0, 0, 0, 0, 0, 0, 0, 0, 0, 0, 0, 0, 0, 0, 0, 0, 0, 0, 0, 0, 0,
    0, 0, 0, 0, 0, 0, 0, 0, 0, 0, 0, 0, 0, 0, 0, 0, 0, 0, 0, 0, 0, 0, 0, 0, 0, 0, 0, 0, 0, 0, 0, 0,
    0,
];
