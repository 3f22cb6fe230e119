// What the parts of a pattern weigh, and how long their matches can be.

ghost use Rattle.std.specs.Prelude.{◌+◌, ◌≤◌};
ghost use Rattle.grammar.specs.Limits.{max_weight};

use arrays::Pattern;
use lengths::Lengths;

// Stands for any weight above the limit: a number and no Option, since sums and products are cut to it by `min`.
const ABOVE_LIMIT: usize = Pattern::MAX_WEIGHT + 1;

// What a part weighs, ABOVE_LIMIT for any weight above the limit, and how long its matches can be.
#[derive(Clone, Copy)]
pub struct Size {
    pub weight: usize,
    pub lengths: Lengths,
    ghost counted: { weight ≤ max_weight + 1 },
}

impl Size {
    ghost use Rattle.std.specs.Prelude.{◌≡◌, ◌<◌, min, max};
    ghost use Rattle.lengths.specs.Lengths.{no_byte, one_byte, in_row, one_of, up_to, or_more};
    ghost use Rattle.lengths.specs.Code.{meaning, capped};
    ghost use Rattle.reader.specs.Steps.{above_limit, load_of, Sized};

    // The empty sequence: it weighs nothing until it stands as an alternative.
    pub(crate) fn nothing() -> Size
        ensures { Sized result 0 no_byte }
    {
        Size {
            weight: 0,
            lengths: lengths::nothing(),
        }
    }

    pub(crate) fn leaf() -> Size
        ensures { Sized result 1 one_byte }
    {
        Size {
            weight: 1,
            lengths: lengths::leaf(),
        }
    }

    // An alternative weighs 1 at least.
    pub(crate) fn one_at_least(self) -> Size
        ensures { Sized result (max 1 self.weight) (meaning self.lengths) }
    {
        Size {
            weight: self.weight.max(1),
            lengths: self.lengths,
        }
    }

    fn plus(self, other: Size) -> usize
        ensures { result ≡ min above_limit (self.weight + other.weight) }
    {
        (self.weight + other.weight).min(ABOVE_LIMIT)
    }

    // Two parts in a row.
    pub(crate) fn in_row(self, next: Size) -> Size
        ensures { Sized result (min above_limit (self.weight + next.weight)) (capped (in_row (meaning self.lengths) (meaning next.lengths))) }
    {
        Size {
            weight: self.plus(next),
            lengths: lengths::in_row(self.lengths, next.lengths),
        }
    }

    // Two alternatives.
    pub(crate) fn one_of(self, other: Size) -> Size
        ensures { Sized result (min above_limit (self.weight + other.weight)) (capped (one_of (meaning self.lengths) (meaning other.lengths))) }
    {
        Size {
            weight: self.plus(other),
            lengths: lengths::one_of(self.lengths, other.lengths),
        }
    }

    // The weight of that many copies; a part above the limit stays so, even under {0}.
    fn load(self, times: usize) -> usize
        requires { times ≤ 64 }
        ensures { result ≡ load_of times self.weight }
    {
        if self.weight == ABOVE_LIMIT {
            return ABOVE_LIMIT;
        }
        if times == 0 {
            return 1;
        }
        (times * self.weight).min(ABOVE_LIMIT)
    }

    // From m to n copies.
    pub(crate) fn up_to(self, m: usize, n: usize) -> Size
        requires { n ≤ 64 }
        ensures { Sized result (load_of n self.weight) (capped (up_to m n (meaning self.lengths))) }
    {
        Size {
            weight: self.load(n),
            lengths: lengths::up_to(m, n, self.lengths),
        }
    }

    // m copies or more.
    pub(crate) fn or_more(self, m: usize) -> Size
        requires { m < 64 }
        ensures { Sized result (load_of (m + 1) self.weight) (capped (or_more m (meaning self.lengths))) }
    {
        Size {
            weight: self.load(m + 1),
            lengths: lengths::or_more(m, self.lengths),
        }
    }
}
