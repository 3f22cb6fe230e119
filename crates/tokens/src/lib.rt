// The codes of the written-out pattern while it is read: one more, and what a repeat makes of the part before it.
// A code that finds the array full is lost; a pattern within the limits never has more than the array can hold.
#![tactic(auto)]

ghost use Rattle.std.specs.Prelude.{◌≡◌, ℕ, ◌+◌, ◌-◌, ◌≤◌, ◌<◌, List, [], ◌∷◌, ◌++◌, replicate};
ghost use Rattle.grammar.specs.Code.Codes.{empty_kind, manner, star_of, exactly_codes, at_least_codes, lead_codes, shut_codes, close_codes, between_codes};
ghost use Rattle.tokens.specs.Held.{Added, Rewritten};
ghost use Rattle.tokens.specs.Copied.{Copied, again, nested};

use arrays::{Codes, Pattern};

// The codes of parts that are no leaves: their kinds.
pub const EMPTY: u16 = Pattern::EMPTY as u16;

pub const SEQUENCE: u16 = Pattern::SEQUENCE as u16;

pub const ALTERNATION: u16 = Pattern::ALTERNATION as u16;

pub const STAR: u16 = Pattern::STAR as u16;

pub const LAZY_STAR: u16 = Pattern::LAZY_STAR as u16;

// One more code.
pub fn push(a: &mut Codes, code: u16)
    ensures added { Added a.old.items a.old.len (code ∷ []) a.new.items a.new.len }
{
    if a.len < Pattern::MAX_PARTS {
        a.items[a.len] = code;
        a.len += 1;
    }
}

// One code n times.
fn pushes(a: &mut Codes, code: u16, n: usize)
    ensures added { Added a.old.items a.old.len (replicate n code) a.new.items a.new.len }
{
    for _ in 0..n {
        push(a, code);
    }
}

// What ends an optional copy: the choice between it and the empty sequence, which a lazy repeat has in front of it already. Lazy is a flag as it is read, by the sign
// after the repeat: it adds or leaves out one code, here and in what calls this.
fn shut(a: &mut Codes, lazy: bool)
    ensures added { Added a.old.items a.old.len (shut_codes (manner lazy)) a.new.items a.new.len }
{
    if !lazy {
        push(a, EMPTY);
    }
    push(a, ALTERNATION);
}

// The ends of n optional copies, from the inside out: the copy in sequence with what is inside it, and its end.
fn closes(a: &mut Codes, n: usize, lazy: bool)
    ensures added { Added a.old.items a.old.len (close_codes (manner lazy) n) a.new.items a.new.len }
{
    for _ in 0..n {
        push(a, SEQUENCE);
        shut(a, lazy);
    }
}

// The empty sequence in front of the part: each of its codes goes one place up.
fn lead(a: &mut Codes, from: usize)
    ensures written { Rewritten a.old.items a.old.len from (λ k. empty_kind ∷ k) a.new.items a.new.len }
{
    if a.len < from {
        return;
    }
    if Pattern::MAX_PARTS < a.len {
        return;
    }
    let mut carried = EMPTY;
    for i in from..a.len {
        let code = a.items[i];
        a.items[i] = carried;
        carried = code;
    }
    push(a, carried);
}

// The `size` codes from `from` on, once more. A full array takes none, so that many copies cost no more than fit. Code by code, since those past the last place are lost.
fn copy(a: &mut Codes, from: usize, size: usize)
    requires { from + size ≤ a.old.len }
    ensures copied { Copied a.old.items a.old.len from size (λ k. k) a.new.items a.new.len }
{
    if Pattern::MAX_PARTS <= a.len {
        return;
    }
    for i in 0..size {
        let code = a.items[from + i];
        push(a, code);
    }
}

// The part from `from` on, n times more.
fn copies(a: &mut Codes, from: usize, n: usize)
    ensures written { (a.old.len ≤ a.new.len) × Rewritten a.old.items a.old.len from (again n) a.new.items a.new.len }
{
    if a.len < from {
        return;
    }
    let size = a.len - from;
    for _ in 0..n {
        copy(a, from, size);
    }
}

// The code of a star.
fn star_code(lazy: bool) -> u16
    ensures { result ≡ star_of (manner lazy) }
{
    if lazy { LAZY_STAR } else { STAR }
}

// `*`: the star of the part that begins at `from`.
pub fn star(a: &mut Codes, from: usize, lazy: bool)
    ensures written { Rewritten a.old.items a.old.len from (λ k. k ++ (star_of (manner lazy) ∷ [])) a.new.items a.new.len }
{
    push(a, star_code(lazy));
}

// `{times}`: the copies, then the sequences that join them. No copy is the empty sequence, and the part is cut off.
pub fn exactly(a: &mut Codes, from: usize, times: usize)
    ensures written { Rewritten a.old.items a.old.len from (exactly_codes times) a.new.items a.new.len }
{
    if times == 0 {
        if a.len < from {
            return;
        }
        a.len = from;
        push(a, EMPTY);
        return;
    }
    let joins = times - 1;
    copies(a, from, joins);
    pushes(a, SEQUENCE, joins);
}

// `{times,}`: the copies, then the star of one more.
pub fn at_least(a: &mut Codes, from: usize, times: usize, lazy: bool)
    ensures written { Rewritten a.old.items a.old.len from (at_least_codes (manner lazy) times) a.new.items a.new.len }
{
    copies(a, from, times);
    let starred = star_code(lazy);
    push(a, starred);
    pushes(a, SEQUENCE, times);
}

// The copies of a lazy repeat: `least` of them, then `around` and one with the empty sequence in front. The first of these is the part itself if none must be.
fn led_copies(a: &mut Codes, from: usize, least: usize, around: usize)
    ensures written { Rewritten a.old.items a.old.len from (nested (empty_kind ∷ []) least around) a.new.items a.new.len }
{
    if a.len < from {
        return;
    }
    let size = a.len - from;
    if least == 0 {
        lead(a, from);
        copies(a, from, around);
        return;
    }
    copies(a, from, least - 1);
    let last = a.len;
    push(a, EMPTY);
    copy(a, from, size);
    copies(a, last, around);
}

// The copies that must be, and the optional ones, `around` and one.
fn all_copies(a: &mut Codes, from: usize, least: usize, most: usize, lazy: bool)
    requires { least < most }
    ensures written { Rewritten a.old.items a.old.len from (nested (lead_codes (manner lazy)) least (most - least - 1)) a.new.items a.new.len }
{
    if lazy {
        led_copies(a, from, least, most - least - 1);
        return;
    }
    copies(a, from, most - 1);
}

// `{least,most}`: the copies that must be, then the optional ones, each inside the one before.
pub fn between(a: &mut Codes, from: usize, least: usize, most: usize, lazy: bool)
    ensures written { Rewritten a.old.items a.old.len from (between_codes (manner lazy) least (most - least)) a.new.items a.new.len }
{
    if most <= least {
        exactly(a, from, least);
        return;
    }
    all_copies(a, from, least, most, lazy);
    shut(a, lazy);
    closes(a, most - least - 1, lazy);
    pushes(a, SEQUENCE, least);
}
