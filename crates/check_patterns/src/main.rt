// Reads patterns from standard input, one a line, and prints the checker's verdict on each: paper 01, "The programs". A blank line is the empty pattern.
// Lines may have any length; input and output go by chunks, so memory stays the same. What is known is printed before more is read. A failed read or write ends
// the program with a line on standard error.
#![tactic(auto)]

use answers::Verdicts;

fn main(rt: HostRuntime) {
    answers::serve(&rt, &mut rt.stdin(), Verdicts).tell(&rt);
}
