// A standing as a record, and back: paper 01, "Standings and their records", in the width of request 7.
// Byte 0 is the count of (a) with (b), byte 1 (d), bytes 2 to 9 (c), 10 and 11 the record that it comes from, 12 by which byte; from 13 on the leaf numbers of (a), four to three bytes.
// Code holds a record in 64 bytes, and those past its width are zero: so one `pack` and one `unpack` do for every width.
#![tactic(auto)]

ghost use Rattle.std.specs.Prelude.{◌≡◌, [], ◌∷◌, ◌+◌, ◌*◌, ◌/◌, ◌%◌, ◌≤◌, ◌<◌, min, length, get_or, drop, replicate};
ghost use Rattle.std.proofs.lemmas.List.Edits.{sets};
ghost use Rattle.verdict.specs.Record.{narrow};
ghost use Rattle.records.specs.Packing.{Packed, Unpacked};
ghost use Rattle.records.specs.Bytes.{one, turn, bytes_of, set_of, three, threes, four, fours};

use standing::Standing;

// How many bytes a record has, of a pattern with so many leaves; a pattern has no more than 64.
pub fn width(leaves: usize) -> usize
    ensures width { result ≡ (narrow (min leaves 64)).bytes }
{
    13 + (6 * leaves.min(words::LEAVES) + 7) / 8
}

// The count of (a), (b) and (d). Store by store: each byte holds something else, so a loop or a copy would be no shorter.
fn put_flags(v: &mut [u8; 64], n: usize, first: bool, some: bool)
    requires { n ≤ 64 }
    ensures { v.new ≡ sets v.old 0 ((2 * n + one first) ∷ (one some * 128) ∷ []) }
{
    v[0] = 2 * (n as u8) + u8::from(first);
    v[1] = u8::from(some) * 128;
}

// The lowest eight bits of y the other way round: a set has leaf 0 in its lowest bit, a record in its highest. By hand, since std's `reverse_bits` goes bit by bit in a
// loop, which takes a record in and out a third more instructions.
fn turned(y: u64) -> u64
    ensures { (result ≡ turn 8 y) × (result < 256) }
{
    y % 2 * 128
        + y / 2 % 2 * 64
        + y / 4 % 2 * 32
        + y / 8 % 2 * 16
        + y / 16 % 2 * 8
        + y / 32 % 2 * 4
        + y / 64 % 2 * 2
        + y / 128 % 2
}

// (c), eight leaves to a byte.
fn put_set(v: &mut [u8; 64], x: u64)
    ensures { v.new ≡ sets v.old 2 (bytes_of 8 x) }
{
    let mut y = x;
    for i in 2..10 {
        v[i] = turned(y) as u8;
        y /= 256;
    }
}

// The record that it comes from, and by which byte.
fn put_origin(v: &mut [u8; 64], origin: usize, byte: u8)
    ensures { v.new ≡ sets v.old 10 ((origin / 256 % 256) ∷ (origin % 256) ∷ byte ∷ []) }
{
    v[10..12].copy_from_slice(&((origin % 65536) as u16).to_be_bytes());
    v[12] = byte;
}

// The leaf number at place i, or 0 past them.
fn entry(leaves: &[u8], i: usize) -> u8
    ensures { result ≡ get_or leaves.now i 0 }
{
    leaves.get(i).copied().unwrap_or(0)
}

// Four leaf numbers in the three bytes from place `at` on. Store by store: each byte is put together otherwise.
fn put_four(v: &mut [u8; 64], at: usize, a: u8, b: u8, c: u8, d: u8)
    requires { at + 3 ≤ 64 }
    ensures { v.new ≡ sets v.old at (three a b c d) }
{
    v[at] = a % 64 * 4 + b / 16 % 4;
    v[at + 1] = b % 16 * 16 + c / 4 % 16;
    v[at + 2] = c % 4 * 64 + d % 64;
}

// A record with nothing but (a): these leaf numbers. Those past them are zero from the start.
fn with_order(leaves: &[u8]) -> [u8; 64]
    requires { length leaves.now ≤ 64 }
    ensures { result ≡ sets (replicate 64 0) 13 (threes 16 leaves.now) }
{
    let mut v = [0u8; 64];
    for i in 0..leaves.len().div_ceil(4) {
        let j = 4 * i;
        put_four(
            &mut v,
            13 + 3 * i,
            entry(leaves, j),
            entry(leaves, j + 1),
            entry(leaves, j + 2),
            entry(leaves, j + 3),
        );
    }
    v
}

// The record of a standing that comes from the record `origin` by that byte.
pub fn pack(s: Standing, origin: usize, byte: u8) -> [u8; 64]
    ensures packed { Packed s origin byte result }
{
    let n = s.n.min(words::LEAVES);
    let mut v = with_order(&s.list[..n]);
    put_flags(&mut v, n, s.first, s.some);
    put_set(&mut v, s.all);
    put_origin(&mut v, origin, byte);
    v
}

// (c), from its eight bytes, the last first.
fn set_of(v: &[u8; 64]) -> u64
    ensures { result ≡ set_of 8 (drop 2 v.now) }
{
    let mut x = 0u64;
    for i in (2..10).rev() {
        x = x * 256 + turned(u64::from(v[i]));
    }
    x
}

// Four leaf numbers from three bytes, to the places from `at` on. Store by store: each is put together otherwise.
fn take_four(list: &mut [u8; 64], at: usize, a: u8, b: u8, c: u8)
    requires { at + 4 ≤ 64 }
    ensures { list.new ≡ sets list.old at (four a b c) }
{
    list[at] = a / 4;
    list[at + 1] = a % 4 * 16 + b / 16;
    list[at + 2] = b % 16 * 4 + c / 64;
    list[at + 3] = c % 64;
}

// (a), with the unused numbers.
fn order_of(v: &[u8; 64]) -> [u8; 64]
    ensures { result ≡ fours 16 (drop 13 v.now) }
{
    let mut list = [0u8; 64];
    for (i, bytes) in v[13..61].chunks_exact(3).enumerate() {
        take_four(&mut list, 4 * i, bytes[0], bytes[1], bytes[2]);
    }
    list
}

// The standing whose record it is.
pub fn unpack(v: [u8; 64]) -> Standing
    ensures unpacked { Unpacked v result }
{
    let list = order_of(&v);
    let all = set_of(&v);
    Standing {
        list,
        n: usize::from(v[0] / 2),
        first: v[0] % 2 == 1,
        all,
        some: v[1] / 128 == 1,
    }
}
