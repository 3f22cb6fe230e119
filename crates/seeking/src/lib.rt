// Places of a line: the end of a run of bytes that a set of leaves does not tell apart, and the next byte that some leaf of a set takes.
// A byte that alone is taken, or one of few, is looked for by chunks of 32 bytes, each in a loop without an early exit, which the compiler turns into vectors.
#![tactic(auto)]

ghost use Rattle.std.specs.Prelude.{◌≡◌, ◌+◌, ◌*◌, ◌≤◌, ◌<◌, ℕ, true, false, length, slice_index, eqb};
ghost use Rattle.std.specs.Int.Bits.{bit_and};
ghost use Rattle.seeking.specs.Places.{Kind, Passed, Sought};
ghost use Rattle.seeking.specs.Hows.{among, Finds};

// How the bytes that a set of leaves takes are looked for.
#[derive(Clone, Copy)]
pub enum How {
    // by a look at each byte's leaves
    Any,
    // by the one byte that is taken
    One(u8),
    // by a range of bytes and two more
    Few {
        low: u8,
        high: u8,
        other: u8,
        last: u8,
    },
}

// The bytes of one kind: of which the leaves `all` take just `kind`.
#[derive(Clone, Copy)]
pub struct Alike<'a> {
    pub all: u64,
    pub kind: u64,
    pub masks: &'a [u64; 256],
}

// The bytes that some leaf of the set takes, and how they are looked for.
#[derive(Clone, Copy)]
pub struct Wanted<'a> {
    pub set: u64,
    pub how: How,
    pub masks: &'a [u64; 256],
}

const CHUNK: usize = 32;

// A run of bytes of one kind is passed over by so many.
const RUN: usize = 8;

// A longer range has too many bytes for a chunk to be without one.
const RANGE: u8 = 16;

impl How {
    // Whether a byte is among those that are looked for.
    fn has(self, b: u8) -> bool
        ensures { result ≡ among self b }
    {
        match self {
            How::Any => true,
            How::One(a) => b == a,
            How::Few {
                low,
                high,
                other,
                last,
            } => low <= b && b <= high || b == other || b == last,
        }
    }
}

// Whether a byte of the chunk passes the test. Each is tried, whatever the others say: `any` would stop at the first, and no vectors come of that.
fn some<const N: usize, F: Fn(u8) -> bool>(chunk: &[u8; N], test: &F) -> bool
    requires { F.IsAlwaysCallable test.now }
    ensures { result ≡ false → (k : ℕ) → k < N → F.post test.now (slice_index chunk.now k) false }
{
    let mut any = false;
    for b in chunk {
        any |= test(*b);
    }
    any
}

// How many bytes stand before the first chunk of N with one that passes the test, or in all whole chunks.
fn skip<const N: usize, F: Fn(u8) -> bool>(line: &[u8], test: F) -> usize
    requires size { (0 < N) × (N ≤ 32) }
    requires callable { F.IsAlwaysCallable test }
    ensures within { result ≤ length line.now }
    ensures none { (k : ℕ) → k < result → F.post test (slice_index line.now k) false }
{
    let (chunks, _) = line.as_chunks::<N>();
    for (n, chunk) in chunks.iter().enumerate() {
        if some(chunk, &test) {
            return N * n;
        }
    }
    N * chunks.len()
}

impl Alike<'_> {
    // Whether a byte is of the kind.
    fn has(self, b: u8) -> bool
        ensures { result ≡ eqb (bit_and self.entry.all (slice_index self.entry.masks.now b)) self.entry.kind }
    {
        self.all & self.masks[usize::from(b)] == self.kind
    }

    // The first place whose byte is of another kind, or the line's end.
    fn end(self, line: &[u8]) -> usize
        ensures { Kind self.entry.masks.now line.now self.entry.all self.entry.kind 0 result }
    {
        line.iter()
            .position(|b| !self.has(*b))
            .unwrap_or(line.len())
    }

    // The same, by runs first.
    fn run_end(self, line: &[u8]) -> usize
        ensures { Kind self.entry.masks.now line.now self.entry.all self.entry.kind 0 result }
    {
        let far = skip::<RUN, _>(line, |b| !self.has(b));
        far + self.end(&line[far..])
    }
}

impl Wanted<'_> {
    // How many bytes without one that is looked for are passed over by chunks. Of a line shorter than a chunk, as most are, none.
    #[inline(always)]
    fn skipped(self, line: &[u8]) -> usize
        ensures within { result ≤ length line.now }
        ensures none { (k : ℕ) → k < result → among self.entry.how (slice_index line.now k) ≡ false }
    {
        if line.len() < CHUNK {
            return 0;
        }
        match self.how {
            How::Any => 0,
            How::One(a) => skip::<CHUNK, _>(line, |b| b == a),
            few => skip::<CHUNK, _>(line, |b| few.has(b)),
        }
    }

    // The first place whose byte some leaf of the set takes, or the line's end. Chunks without a byte that is looked for are passed over.
    #[inline(always)]
    fn first(self, line: &[u8]) -> usize
        ensures { Sought self.entry.masks.now line.now self.entry.set self.entry.how 0 result }
    {
        let far = self.skipped(line);
        let nothing = Alike {
            all: self.set,
            kind: 0,
            masks: self.masks,
        };
        far + nothing.end(&line[far..])
    }
}

// The same place, or, if `is`, the place after the bytes of the kind from there on. Whether it is so the callers test in ways of their own, and one law speaks of both.
pub fn pass_if(is: bool, line: &[u8], from: usize, alike: Alike) -> usize
    ensures passed { Passed is alike.entry.masks.now line.now alike.entry.all alike.entry.kind from result }
{
    if is {
        if let Some(rest) = line.get(from..) {
            return from + alike.run_end(rest);
        }
    }
    from
}

// The next place from `from` on whose byte some leaf of the set takes, or the line's end. Short lines are many, and what is wanted would go through memory to a call.
#[inline(always)]
pub fn seek(line: &[u8], from: usize, wanted: Wanted) -> usize
    ensures sought { Sought wanted.entry.masks.now line.now wanted.entry.set wanted.entry.how from result }
{
    match line.get(from..) {
        Some(rest) => from + wanted.first(rest),
        None => from,
    }
}

// Whether each byte that the set takes is among those that are looked for. A proposed way is no `Wanted` before it has passed this.
fn finds(how: How, set: u64, masks: &[u64; 256]) -> bool
    ensures { result ≡ true → Finds masks.now set how }
{
    masks
        .iter()
        .enumerate()
        .all(|(b, mask)| set & *mask == 0 || how.has(b as u8))
}

// The first byte from `from` on that the set takes, if `taken`, or does not take: one test for both ends of a range. By a loop: `find` on the range made `how_of` take 1.3 times as long.
fn next_byte(set: u64, masks: &[u64; 256], from: u8, taken: bool) -> Option<u8> {
    for b in from..=255 {
        if (set & masks[usize::from(b)] != 0) == taken {
            return Some(b);
        }
    }
    None
}

// How the bytes that the set takes are best looked for. The ways are tried on all 256 bytes, so that whatever is proposed none is missed.
pub fn how_of(set: u64, masks: &[u64; 256]) -> How
    ensures finds { Finds masks.now set result }
{
    let low = next_byte(set, masks, 0, true).unwrap_or(0);
    let one = How::One(low);
    if finds(one, set, masks) {
        return one;
    }
    let end = next_byte(set, masks, low, false);
    let second = end.and_then(|b| next_byte(set, masks, b, true));
    let third = second
        .and_then(|b| b.checked_add(1))
        .and_then(|b| next_byte(set, masks, b, true));
    let few = How::Few {
        low,
        high: end
            .map_or(255, |b| b.saturating_sub(1))
            .min(low.saturating_add(RANGE - 1)),
        other: second.unwrap_or(low),
        last: third.unwrap_or(low),
    };
    if finds(few, set, masks) {
        few
    } else {
        How::Any
    }
}
