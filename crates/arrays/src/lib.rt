// The written-out pattern in arrays: what the reader hands over and the matchers walk.
// `finish` makes the arrays from the reader's codes in three passes: kinds, sizes and masks. Codes that are no pattern give arrays too.
#![tactic(auto)]

ghost use Rattle.std.specs.Prelude.{◌≡◌, ◌+◌, ◌<◌, ◌≤◌, min, length, take, ltb};
ghost use Rattle.grammar.specs.Code.Tokens.{max_parts};
ghost use Rattle.grammar.specs.Code.Codes.{first_leaf};
ghost use Rattle.arrays.specs.Decoded.{blank};
ghost use Rattle.arrays.specs.Passes.{Noted, Numbered, Small, left_size, size_of, size_at, Sized, Places, Marked, MarkedTo, Masked, Turn};
ghost use Rattle.arrays.specs.Finished.{Finished};

// The reader's codes: those of the first `len` places. A code is a number and no enum, since the grammar's definition of tokens, `token_of`, reads it as one.
#[derive(Clone, Copy)]
pub struct Codes {
    pub items: [u16; Pattern::MAX_PARTS],
    pub len: usize,
}

// The kinds and sizes of the parts: one for each place.
pub type Kinds = [u8; Pattern::MAX_PARTS];

pub type Sizes = [u16; Pattern::MAX_PARTS];

// Post-order: a part's last place has its kind and its size, its parts stand before it. Kinds and sizes are two arrays, as the definition `decode` reads them.
#[derive(Drop)]
pub struct Pattern {
    // the kind of the part that ends here: one of the kinds below, or FIRST_LEAF + p for the leaf p
    pub kinds: Kinds,
    // how many places the part that ends here has
    pub sizes: Sizes,
    pub len: usize,
    // bit p of masks[b]: the set of the leaf p holds the byte b
    pub masks: [u64; 256],
    pub leaves: usize,
}

impl Pattern {
    // The limits of paper 01: bytes, brackets open together, weight.
    pub const MAX_BYTES: usize = 255;

    pub const MAX_DEPTH: usize = 16;

    pub const MAX_WEIGHT: usize = 64;

    // The most brackets that are fields: request 2.
    pub const MAX_FIELDS: usize = 8;
    // The most parts of a pattern within the limits.
    pub const MAX_PARTS: usize = 2815;

    // The kinds of parts, as bytes and no enum, since the 64 leaves are kinds as well: the empty sequence, a sequence of two parts, an alternation of two, a star, a lazy star, the fields 1 to 8, and then the leaves.
    pub const EMPTY: u8 = 0;

    pub const SEQUENCE: u8 = 1;

    pub const ALTERNATION: u8 = 2;

    pub const STAR: u8 = 3;

    pub const LAZY_STAR: u8 = 4;

    pub const FIRST_FIELD: u8 = 5;

    pub const FIRST_LEAF: u8 = 13;

    pub const LAST_LEAF: u8 = Pattern::FIRST_LEAF + 63;

    // No parts and no leaves. No crate here calls it; it stays for those who do.
    pub fn empty() -> Pattern
        ensures blank { result ≡ blank }
    {
        Pattern {
            kinds: [0u8; Pattern::MAX_PARTS],
            sizes: [0u16; Pattern::MAX_PARTS],
            len: 0,
            masks: [0u64; 256],
            leaves: 0,
        }
    }
}

// The reader's code of a part is its kind, that of a field this and how many brackets stand before it, and that of a leaf the next one and the place of its text.
pub const FIELD_CODE: u16 = Pattern::FIRST_FIELD as u16;

pub const LEAF_CODE: u16 = Pattern::FIRST_LEAF as u16;

// The kind of the leaf p.
fn leaf_kind(p: usize) -> u8
    requires { p < 64 }
    ensures { result ≡ first_leaf + p }
{
    Pattern::FIRST_LEAF + p as u8
}

// The leaves that are numbered: the text of leaf p begins at places[p].
#[derive(Drop)]
struct Leaves {
    places: [u16; 64],
    len: usize,
}

// The first pass, at the code c of the place i: its kind, and the place in the text of a leaf. A 65th leaf is not kept.
fn note(c: u16, i: usize, kinds: &mut Kinds, leaves: &mut Leaves)
    requires { (i < max_parts) × (leaves.old.len ≤ 64) }
    ensures { Noted c i leaves.old.len kinds.old leaves.old.places kinds.new leaves.new.places leaves.new.len }
{
    if c < LEAF_CODE {
        kinds[i] = c as u8;
        return;
    }
    let p = leaves.len;
    if p < words::LEAVES {
        kinds[i] = leaf_kind(p);
        leaves.places[p] = c - LEAF_CODE;
        leaves.len = p + 1;
        return;
    }
    kinds[i] = Pattern::EMPTY;
}

// The kinds of the codes, and the places of their leaves, where none is numbered yet.
fn number_leaves(codes: &[u16], kinds: &mut Kinds, leaves: &mut Leaves)
    requires { (length codes.now ≤ max_parts) × (length kinds.old ≡ max_parts) × (length leaves.old.places ≡ 64) × (leaves.old.len ≡ 0) }
    ensures { Numbered codes.now (take (length codes.now) kinds.new) leaves.new.places leaves.new.len }
{
    for (i, c) in codes.iter().enumerate() {
        note(*c, i, kinds, leaves);
    }
}

// The size of the left one of two parts: it ends before the right one, which ends at the place m.
fn left_size(m: usize, sizes: &Sizes) -> u16
    requires { m < max_parts }
    ensures { result ≡ left_size sizes.now m }
{
    let a = words::wide(sizes[m]);
    if a <= m {
        return sizes[m - a];
    }
    0
}

// The size of a part of that kind: a is the size of its last part, b of the one before.
fn size_of(kind: u8, a: u16, b: u16) -> u16
    requires { a + b < max_parts }
    ensures { result ≡ size_of kind a b }
{
    if kind == Pattern::EMPTY {
        return 1;
    }
    if Pattern::FIRST_LEAF <= kind {
        return 1;
    }
    // a star or a field has one part
    if Pattern::STAR <= kind {
        return a + 1;
    }
    a + b + 1
}

// The second pass, at the place i. What stands before the first place counts as no part.
fn size_at(kind: u8, i: usize, sizes: &Sizes) -> u16
    requires { (i < max_parts) × Small sizes.now i }
    ensures { result ≡ size_at kind sizes.now i }
{
    if i == 0 {
        return 1;
    }
    let m = i - 1;
    size_of(kind, sizes[m], left_size(m, sizes))
}

// The size of the part that ends at each place.
fn fill_sizes(kinds: &[u8], sizes: &mut Sizes)
    requires { (length kinds.now ≤ max_parts) × (length sizes.old ≡ max_parts) }
    ensures { Sized kinds.now (length kinds.now) sizes.new }
{
    for (i, kind) in kinds.iter().enumerate() {
        let size = size_at(*kind, i, sizes);
        sizes[i] = size;
    }
}

// The leaves whose text begins at q: they have one set. That there are at most 64 is asked of each slice of places: it has no struct that could say it.
fn leaves_at(places: &[u16], q: u16) -> u64
    requires { length places.now ≤ 64 }
    ensures { Places places.now (length places.now) q result }
{
    let mut x = 0u64;
    for (p, at) in places.iter().enumerate() {
        x = words::with_if(*at == q, x, p);
    }
    x
}

// The table and the text are two parameters throughout, as `finish` and `scanner::leaf_holds` take them.
// The mask x of the byte b, with the leaves m if the set of the leaf at q holds it. The named sets are those of the table that is loaded.
fn mark(loaded: &[u8], s: &[u8], q: usize, m: u64, b: u8, x: u64) -> u64
    ensures { Marked loaded.now s.now q m b x result }
{
    if scanner::leaf_holds(loaded, s, q, b) {
        return words::union(x, m);
    }
    x
}

// The same for each byte.
fn mark_all(loaded: &[u8], s: &[u8], q: usize, m: u64, masks: &mut [u64; 256])
    requires { length masks.old ≡ 256 }
    ensures { MarkedTo loaded.now s.now q m 256 masks.old masks.new }
{
    for (b, x) in masks.iter_mut().enumerate() {
        *x = mark(loaded, s, q, m, b as u8, *x);
    }
}

// The third pass, at the leaf p, with all leaves that have its set: those that are done now.
fn mark_leaf(
    loaded: &[u8],
    s: &[u8],
    places: &[u16],
    done: u64,
    p: usize,
    masks: &mut [u64; 256],
) -> u64
    requires { (length places.now ≤ 64) × (p < length places.now) × (length masks.old ≡ 256) }
    ensures { Turn loaded.now s.now places.now (length places.now) done p masks.old masks.new result }
{
    if words::has(done, p) {
        return done;
    }
    let q = places[p];
    let m = leaves_at(places, q);
    mark_all(loaded, s, words::wide(q), m, masks);
    words::union(done, m)
}

// The masks of the leaves.
fn masks_of(loaded: &[u8], s: &[u8], places: &[u16]) -> [u64; 256]
    requires { length places.now ≤ 64 }
    ensures { Masked loaded.now s.now places.now (λ p. ltb p (length places.now)) result }
{
    let mut masks = [0u64; 256];
    let mut done = 0u64;
    for p in 0..places.len() {
        done = mark_leaf(loaded, s, places, done, p, &mut masks);
    }
    masks
}

// The pattern of the codes for the text s, by the table of named sets that is loaded: its leaves are numbered from 0, left to right.
pub fn finish(loaded: &[u8], s: &[u8], codes: &Codes) -> Pattern
    ensures finished { Finished loaded.now s.now (take codes.now.len codes.now.items) result }
{
    let n = codes.len.min(Pattern::MAX_PARTS);
    let mut kinds = [0u8; Pattern::MAX_PARTS];
    let mut sizes = [0u16; Pattern::MAX_PARTS];
    let mut leaves = Leaves {
        places: [0u16; 64],
        len: 0,
    };
    number_leaves(&codes.items[..n], &mut kinds, &mut leaves);
    fill_sizes(&kinds[..n], &mut sizes);
    let masks = masks_of(loaded, s, &leaves.places[..leaves.len]);
    Pattern {
        kinds,
        sizes,
        len: n,
        masks,
        leaves: leaves.len,
    }
}
