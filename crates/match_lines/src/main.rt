// Reads a pattern line and then order lines from standard input, and prints for each order line both spans, 'none' or a refusal: paper 01, "The programs".
// A refused pattern prints its refusal only. Lines may have any length; input and output go by chunks, so memory stays the same. What is known is printed before
// more is read. A failed read or write ends the program with a line on standard error.
#![tactic(auto)]

ghost use Rattle.std.specs.Prelude.{◌≡◌};

use lines::Input;
use printing::Output;
use std::io::Read;

// Prepares the pattern on the first line, and prints its refusal or answers the order lines. Nothing waits then.
fn serve<P: Print, R: Read>(rt: &P, reader: &mut R, input: &mut Input, out: &mut Output)
    ensures { out.new.used ≡ 0 }
{
    let fixed = sets::fixed();
    let prepared = orders::prepare(&fixed, input, 0);
    orders::serve(rt, reader, input, out, prepared);
}

fn main(rt: HostRuntime) {
    let mut reader = rt.stdin();
    let mut out = Output::new();
    let mut input = Input::new();
    input.first_line(&rt, &mut reader, &mut out);
    if input.line.whole {
        serve(&rt, &mut reader, &mut input, &mut out);
    }
    input.tell(&rt);
}
