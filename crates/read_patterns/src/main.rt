// Reads patterns from standard input, one a line, and prints what the reader hands over for each: 'refused NUMBER PLACE', or
// 'accepted PARTS LEAVES MEMBERS least LEAST greatest GREATEST', the parts and leaves of the written-out pattern, how many bytes the sets of its leaves hold together, and
// how long a match can be (request 6); 'no limit' stands for a greatest length that there is none of.
#![tactic(auto)]

ghost use Rattle.std.specs.Prelude.{◌≡◌, sum_by, count_ones};
ghost use Rattle.read_patterns.specs.Line.{Told};

use lines::{Input, Responder};
use printing::Output;

// How many bytes the sets of the leaves hold together.
fn members(masks: &[u64; 256]) -> usize
    ensures { result ≡ sum_by count_ones masks.now }
{
    let mut held = 0;
    for mask in masks {
        held += mask.count_ones() as usize;
    }
    held
}

// Answers a pattern with what the reader hands over.
#[derive(Drop)]
struct Patterns;

impl Responder for Patterns {
    ghost answers = { λ x p w y. Told p w };

    ghost LONGEST = { 65536 };

    // No answer has more than 129 bytes; asking for the whole output has each written out before the next line is looked at.
    fn longest(&self) -> usize {
        printing::SIZE
    }

    fn answer(&mut self, out: &mut Output, pattern: &[u8]) {
        match reader::read(&sets::fixed(), pattern) {
            Ok(x) => out.accepted(
                x.pattern.len,
                x.pattern.leaves,
                members(&x.pattern.masks),
                x.lengths.least,
                x.lengths.greatest,
            ),
            Err(e) => out.refused(e.fault.number(), e.place),
        }
    }
}

fn main(rt: HostRuntime) {
    let mut input = Input::new();
    input.run(&rt, &mut rt.stdin(), &mut Patterns, &mut Output::new());
    input.tell(&rt);
}
