// Lists of outcomes, as the closure makes them.

ghost use Rattle.follow.specs.Good.{Good};

// A list of outcomes, each once. It is lent wherever it goes, so that no array is copied on the way.
#[derive(Drop)]
pub struct Outcomes {
    // the numbers in order, at the first `len` places
    pub items: [u8; 65],
    // at the place of each number the fields on the way to it: bit f - 1 if the field f is opened, bit f + 7 if it is closed
    pub fields: [u16; 65],
    pub len: usize,
    // its wanted leaves as bits
    pub set: u64,
    // whether it has the end
    pub end: bool,
    ghost good: { Good items fields len set end },
}

impl Outcomes {
    ghost use Rattle.std.specs.Prelude.{◌≡◌, false, [], ◌≤◌, get_or};
    ghost use Rattle.std.specs.Int.Bits.{bit_or};
    ghost use Rattle.theory.specs.Standing.{member};
    ghost use Rattle.follow.specs.Outcomes.{listed, Lists, Added, Joined};

    // The empty list.
    pub fn none() -> Outcomes
        ensures { Lists result [] }
    {
        Outcomes {
            items: [0; 65],
            fields: [0; 65],
            len: 0,
            set: 0,
            end: false,
        }
    }

    // Without its outcomes. The masks stay where they are.
    pub fn clear(&mut self)
        ensures { Lists self.new [] }
    {
        self.len = 0;
        self.set = 0;
        self.end = false;
    }

    pub fn holds(&self, p: u8) -> bool
        requires { p ≤ 64 }
        ensures { result ≡ member p (listed self.now) }
    {
        if p == 0 {
            return self.end;
        }
        words::has(self.set, usize::from(p - 1))
    }

    // One outcome more, which the list does not have.
    pub fn append(&mut self, p: u8, marks: u16)
        requires { (p ≤ 64) × (member p (listed self.old) ≡ false) }
        ensures { Added self.old p marks self.new }
    {
        self.items[self.len] = p;
        self.fields[usize::from(p)] = marks;
        self.len += 1;
        if p == 0 {
            self.end = true;
        } else {
            self.set = words::with(self.set, usize::from(p - 1));
        }
    }

    // What a list has already stays as it came first.
    pub fn add(&mut self, p: u8, marks: u16)
        requires { p ≤ 64 }
        ensures { Added self.old p marks self.new }
    {
        if !self.holds(p) {
            self.append(p, marks);
        }
    }

    // The outcome p of y, after the fields `marks`.
    pub fn add_from(&mut self, y: &Outcomes, p: u8, marks: u16)
        requires { p ≤ 64 }
        ensures { Added self.old p (bit_or marks (get_or y.now.fields p 0)) self.new }
    {
        let before = y.fields[usize::from(p)];
        self.add(p, marks | before);
    }

    // The list y after the fields `marks`.
    pub fn join(&mut self, y: &Outcomes, marks: u16)
        ensures { Joined self.old y.now marks self.new }
    {
        for &p in &y.items[..y.len] {
            self.add_from(y, p, marks);
        }
    }
}
