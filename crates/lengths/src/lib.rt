// The least and the greatest length that a pattern could match, each leaf counted as 1 whatever its set (request 6), part by part. Above 64 lengths are not told apart: no
// accepted pattern has such a one, and the patterns that have grow without bound.
#![tactic(auto)]

ghost use Rattle.std.specs.Prelude.{◌≡◌, ◌+◌, ◌*◌, max};
ghost use Rattle.lengths.specs.Lengths.{together, copies, endless, no_byte, one_byte, in_row, one_of, up_to, or_more};
ghost use Rattle.lengths.specs.Code.{longest_of, is_limited, bytes_of, meaning, cap, cap_longest, capped};

// How long a match can be: the least number of bytes, and the greatest, if there is one.
#[derive(Clone, Copy, PartialEq, Eq)]
pub struct Lengths {
    pub least: usize,
    pub greatest: Option<usize>,
}

// Stands for any number above the limit of the weight: a number and no Option, since sums and products are cut to it by `min`.
const ABOVE_LIMIT: usize = 65;

fn sum(a: usize, b: usize) -> usize
    ensures { result ≡ cap (a + b) }
{
    a.saturating_add(b).min(ABOVE_LIMIT)
}

fn product(n: usize, a: usize) -> usize
    ensures { result ≡ cap (n * a) }
{
    n.saturating_mul(a).min(ABOVE_LIMIT)
}

// Of two parts in a row.
fn greatest_sum(a: Option<usize>, b: Option<usize>) -> Option<usize>
    ensures { longest_of result ≡ cap_longest (together ◌+◌ (longest_of a) (longest_of b)) }
{
    Some(sum(a?, b?))
}

// Of two parts of which one is taken.
fn larger(a: Option<usize>, b: Option<usize>) -> Option<usize>
    ensures { longest_of result ≡ cap_longest (together max (longest_of a) (longest_of b)) }
{
    Some(a?.max(b?).min(ABOVE_LIMIT))
}

// Of n copies: of none, nothing is kept.
fn greatest_copies(n: usize, a: Option<usize>) -> Option<usize>
    ensures { longest_of result ≡ cap_longest (copies n (longest_of a)) }
{
    if n == 0 {
        return Some(0);
    }
    Some(product(n, a?))
}

// Of any number of copies: there is a limit only where each has nothing.
fn unlimited(a: Option<usize>) -> Option<usize>
    ensures { longest_of result ≡ cap_longest (endless (longest_of a)) }
{
    match a {
        Some(0) => Some(0),
        _ => None,
    }
}

// A flag and a number, for callers that cannot be handed an Option.
impl Lengths {
    // Whether there is a limit.
    pub fn is_limited(self) -> bool
        ensures limited { result ≡ is_limited (longest_of self.greatest) }
    {
        self.greatest.is_some()
    }

    // The limit, 0 if there is none.
    pub fn limit(self) -> usize
        ensures bytes { result ≡ bytes_of (longest_of self.greatest) }
    {
        self.greatest.unwrap_or(0)
    }
}

// The empty sequence.
pub fn nothing() -> Lengths
    ensures none { meaning result ≡ no_byte }
{
    Lengths {
        least: 0,
        greatest: Some(0),
    }
}

// A leaf.
pub fn leaf() -> Lengths
    ensures one { meaning result ≡ one_byte }
{
    Lengths {
        least: 1,
        greatest: Some(1),
    }
}

// Two parts in a row.
pub fn in_row(a: Lengths, b: Lengths) -> Lengths
    ensures row { meaning result ≡ capped (in_row (meaning a) (meaning b)) }
{
    Lengths {
        least: sum(a.least, b.least),
        greatest: greatest_sum(a.greatest, b.greatest),
    }
}

// Two alternatives.
pub fn one_of(a: Lengths, b: Lengths) -> Lengths
    ensures one { meaning result ≡ capped (one_of (meaning a) (meaning b)) }
{
    Lengths {
        least: a.least.min(b.least).min(ABOVE_LIMIT),
        greatest: larger(a.greatest, b.greatest),
    }
}

// From m to n copies.
pub fn up_to(m: usize, n: usize, a: Lengths) -> Lengths
    ensures copies { meaning result ≡ capped (up_to m n (meaning a)) }
{
    Lengths {
        least: product(m, a.least),
        greatest: greatest_copies(n, a.greatest),
    }
}

// n copies or more.
pub fn or_more(n: usize, a: Lengths) -> Lengths
    ensures more { meaning result ≡ capped (or_more n (meaning a)) }
{
    Lengths {
        least: product(n, a.least),
        greatest: unlimited(a.greatest),
    }
}
