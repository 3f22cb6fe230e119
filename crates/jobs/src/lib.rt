// A job file's patterns: where each stands in the file.
#![tactic(auto)]

ghost use Rattle.std.specs.Prelude.{◌≡◌, ◌==◌, ◌∷◌, ◌+◌, ◌≤◌, ◌<◌, length, drop, set};
ghost use Rattle.std.specs.List.{position};
ghost use Rattle.jobs.specs.Job.{lines_of, between, JobOf};

// How many patterns are noted.
pub const PATTERNS: usize = 8;

// Where a pattern stands in a text.
#[derive(Clone, Copy, PartialEq, Eq)]
pub struct Place {
    pub start: usize,
    pub end: usize,
}

// How many patterns there are, and where each of the first eight stands.
#[derive(Clone, Copy)]
pub struct Job {
    pub count: usize,
    pub places: [Place; PATTERNS],
}

// The bytes from a place to before another; what is not there is left out.
pub fn between(text: &[u8], from: usize, to: usize) -> &[u8]
    ensures part { result.now ≡ between from to text.now }
{
    let end = to.min(text.len());
    &text[from.min(end)..end]
}

impl Job {
    // One pattern more; the ninth is only counted.
    fn note(&mut self, start: usize, end: usize)
        requires { self.old.count ≤ 8 }
        ensures { self.new ≡ record { count = self.old.count + 1; places = set self.old.places self.old.count (record { start = start; end = end }) } }
    {
        if self.count < PATTERNS {
            self.places[self.count] = Place { start, end };
        }
        self.count += 1;
    }
}

// Where the first newline stands. As in lines, which this crate does not use.
fn newline(s: &[u8]) -> Option<usize>
    ensures { result ≡ position (λ b. b == 10) s.now }
{
    s.iter().position(|b| *b == b'\n')
}

// The end of the line that begins at a place: its newline, or the end of the file.
fn line_end(file: &[u8], start: usize) -> usize
    requires { start < length file.now }
    ensures { (start ≤ result) × (result ≤ length file.now) × (lines_of (drop start file.now) ≡ between start result file.now ∷ lines_of (drop (result + 1) file.now)) }
{
    match newline(&file[start..]) {
        Some(n) => start + n,
        None => file.len(),
    }
}

// Where the patterns of a job file stand, one a line, the last newline optional. Of more than eight the first eight are noted, and the count is 9.
pub fn lines_of(file: &[u8]) -> Job
    ensures lines { JobOf file.now result }
{
    let mut job = Job {
        count: 0,
        places: [Place { start: 0, end: 0 }; PATTERNS],
    };
    let mut start = 0;
    while start < file.len() {
        if job.count == PATTERNS {
            job.note(start, start);
            return job;
        }
        let end = line_end(file, start);
        job.note(start, end);
        if end == file.len() {
            return job;
        }
        start = end + 1;
    }
    job
}
