// Small total functions over machine words: sets of at most 64 leaves as the bits of a number, bit p for the leaf p, and numbers.
#![tactic(auto)]

ghost use Rattle.std.specs.Prelude.{◌≡◌, ℕ, ◌&&◌, ◌||◌, ◌<◌, refl, min, length, MatchOption};
ghost use Rattle.std.specs.Int.Bits.{bit_or};
ghost use Rattle.words.specs.Sets.{has_bit, with_leaf, with_leaf_if, TakenFrom};

// How many leaves a set can have.
pub const LEAVES: usize = 64;

// The least leaf of a set, and the others.
#[derive(Clone, Copy)]
pub struct Taken {
    pub leaf: usize,
    pub rest: u64,
}

// A word of the machine: a number below a limit, and the bits of two as the bits of one.
pub trait Word: Copy {
    ghost number: { Self → ℕ };

    ghost limit: { ℕ };

    ghost joined: { Self → Self → Self };

    fn wide(self) -> usize
        ensures wide { (result ≡ number self) × (result < limit) };

    fn union(self, other: Self) -> Self
        ensures union { result ≡ joined self other };

    // The union has the bits of both.
    ghost bits: { (x y : Self) → number (joined x y) ≡ bit_or (number x) (number y) };
}

impl Word for u8 {
    ghost number = { λ x. x };

    ghost limit = { 256 };

    ghost joined = { bit_or };

    ghost bits = { λ x y. refl };

    fn wide(self) -> usize {
        usize::from(self)
    }

    fn union(self, byte: u8) -> u8 {
        self | byte
    }
}

impl Word for u16 {
    ghost number = { λ x. x };

    ghost limit = { 65536 };

    ghost joined = { bit_or };

    ghost bits = { λ x y. refl };

    fn wide(self) -> usize {
        usize::from(self)
    }

    fn union(self, pair: u16) -> u16 {
        self | pair
    }
}

impl Word for u64 {
    ghost number = { λ x. x };

    ghost limit = { 18446744073709551616 };

    ghost joined = { bit_or };

    ghost bits = { λ x y. refl };

    fn wide(self) -> usize {
        self as usize
    }

    fn union(self, other: u64) -> u64 {
        self | other
    }
}

// The word as a number.
pub fn wide<W: Word>(x: W) -> usize
    ensures same { (result ≡ W.number x) × (result < W.limit) }
{
    x.wide()
}

// The bits of both.
pub fn union<W: Word>(x: W, y: W) -> W
    ensures union { result ≡ W.joined x y }
{
    x.union(y)
}

// Whether the set has the leaf p.
pub fn has(x: u64, p: usize) -> bool
    ensures member { result ≡ has_bit x p }
{
    p < LEAVES && x >> p & 1 == 1
}

// The set x with the leaf p, if there can be one.
pub fn with(x: u64, p: usize) -> u64
    ensures with { result ≡ with_leaf x p }
{
    if p < LEAVES {
        return x | 1 << p;
    }
    x
}

// The same if `is`. The flag is no switch of steps: a bit is put in or not, and the loops that gather bits have no branch.
pub fn with_if(is: bool, x: u64, p: usize) -> u64
    ensures with { result ≡ with_leaf_if is x p }
{
    if is {
        return with(x, p);
    }
    x
}

// The least leaf of the set, and the others, if it is not empty.
pub fn take_least(x: u64) -> Option<Taken>
    ensures taken { MatchOption result (x ≡ 0) (TakenFrom x) }
{
    if x == 0 {
        return None;
    }
    Some(Taken {
        leaf: u64::trailing_zeros(x) as usize,
        rest: x & x - 1,
    })
}

// The smaller number: `min` as a function, with its equation. No crate here calls it; it stays for those who do.
pub fn least(a: usize, b: usize) -> usize
    ensures least { result ≡ min a b }
{
    a.min(b)
}

// Both operands are worked out, so that a caller's loop has no branch at the second.
pub fn both(a: bool, b: bool) -> bool
    ensures both { result ≡ (a && b) }
{
    a && b
}

// The same of one or the other.
pub fn either(a: bool, b: bool) -> bool
    ensures either { result ≡ (a || b) }
{
    a || b
}

// The length of a slice. No crate here calls it: it stays for whoever uses this crate.
pub fn length_of(s: &[u8]) -> usize
    ensures length { result ≡ length s.now }
{
    s.len()
}
