// The ends from a known start: the POSIX end by the set of wanted leaves, the greedy end by the standing. Runs of bytes that change nothing are passed over.
#![tactic(auto)]

ghost use Rattle.standing.specs.Stands.{arrays_of};
ghost use Rattle.ends.specs.Ends.{Last, Ended};

use follow::TablesView;
use seeking::Alike;
use standing::Standing;

// From a place on, to the line's end or until no leaf is wanted: the last end that the leaves lead to, or what is found before.
// The loop is no `for`: a turn goes past a whole run of bytes. Two of the tables alone, as it needs no more.
pub fn last_end(
    line: &[u8],
    from: usize,
    leaves: u64,
    found: Option<usize>,
    ending: u64,
    masks: &[u64; 256],
    sets: &[u64; 65],
) -> Option<usize>
    ensures last { Last masks.now sets.now line.now ending from leaves found result }
{
    let mut last = found;
    let mut set = leaves;
    let mut i = from;
    while i < line.len() {
        if set == 0 {
            return last;
        }
        let took = set & masks[usize::from(line[i])];
        let to = facts::carried(took, sets);
        let alike = Alike {
            all: set,
            kind: took,
            masks,
        };
        i = seeking::pass_if(set == to, line, i + 1, alike);
        if took & ending != 0 {
            last = Some(i);
        }
        set = to;
    }
    last
}

// From the start on, to the line's end or until no leaf of (a) is wanted: the last place where (b) holds. Here too a turn may go past a run of bytes.
pub fn greedy_end(line: &[u8], start: usize, tables: TablesView) -> Option<usize>
    ensures ended { Ended (arrays_of tables.entry) line.now start result }
{
    let masks = tables.masks;
    let mut s = Standing::initial(tables);
    let mut last = s.first.then_some(start);
    let mut i = start;
    while i < line.len() {
        if s.n == 0 {
            return last;
        }
        let t = s.next(line[i], tables);
        let alike = Alike {
            all: s.all,
            kind: s.all & masks[usize::from(line[i])],
            masks,
        };
        i = seeking::pass_if(s == t, line, i + 1, alike);
        s = t;
        if s.first {
            last = Some(i);
        }
    }
    last
}
