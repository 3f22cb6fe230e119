// Reads patterns from standard input, one a line, and prints the checker's verdict on each as `check_patterns` does; an unlike line also has both spans of the
// witness and its readable form: 'unlike 4 6162 greedy 0 1 posix 0 2 readable 6162'.
#![tactic(auto)]

use answers::Spans;

fn main(rt: HostRuntime) {
    answers::serve(&rt, &mut rt.stdin(), Spans).tell(&rt);
}
