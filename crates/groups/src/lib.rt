// The byte groups of a pattern, bytes that no leaf tells apart, and lines in bytes of the same groups that a person can read.
#![tactic(auto)]

ghost use Rattle.std.specs.Prelude.{◌≡◌, ◌==◌, map, ◌+◌, ◌<◌, get_or, take};
ghost use Rattle.std.specs.List.{position};
ghost use Rattle.groups.specs.Numbers.{groups_by};
ghost use Rattle.groups.specs.Readable.{is_printable, printables, readable_by};
ghost use Rattle.groups.specs.Turns.{same, GroupedTo};

#[derive(Drop)]
pub struct Groups {
    // the number of each byte's group
    pub group: [u8; 256],
    // the lowest byte of each group, with zeros after the last
    pub lowest: [u8; 256],
    // how many groups there are
    pub count: usize,
}

// The first of the bytes below b that has the mask of b.
fn first_with(masks: &[u64; 256], b: usize) -> Option<usize>
    requires { b < 256 }
    ensures { result ≡ position (λ x. x == get_or masks.now b 0) (take b masks.now) }
{
    let own = masks[b];
    masks[..b].iter().position(|x| *x == own)
}

impl Groups {
    // The byte b, after those below it: it joins the group of the first byte with its mask, or begins the next group and is its lowest byte.
    fn place(&mut self, masks: &[u64; 256], b: usize)
        requires { (b < 256) × GroupedTo masks.now b self.old }
        ensures { GroupedTo masks.now (b + 1) self.new }
    {
        // Mostly the byte before has the same mask: no other is looked for then.
        if b > 0 && masks[b - 1] == masks[b] {
            self.group[b] = self.group[b - 1];
            return;
        }
        match first_with(masks, b) {
            Some(first) => {
                self.group[b] = self.group[first];
            }
            None => {
                // No more groups than bytes before b: the number fits a byte.
                self.group[b] = self.count as u8;
                self.lowest[self.count] = b as u8;
                self.count += 1;
            }
        }
    }
}

// The groups of bytes with equal masks, numbered by their lowest byte, upwards from 0 (request 3).
pub fn groups_of(masks: &[u64; 256]) -> Groups
    ensures grouped { result ≡ groups_by (same masks.now) }
{
    let mut groups = Groups {
        group: [0; 256],
        lowest: [0; 256],
        count: 0,
    };
    for b in 0..256 {
        groups.place(masks, b);
    }
    groups
}

// From the space to the tilde.
fn is_printable(b: u8) -> bool
    ensures { result ≡ is_printable b }
{
    b' ' <= b && b <= b'~'
}

// The printable bytes in the order of preference, from the digits on, the space last: 48 to 126, 33 to 47, 32.
#[tactic(auto, unfolding(crate::specs::Readable::printables))]
fn printables() -> [u8; 95]
    ensures { result ≡ printables }
{
    *b"0123456789:;<=>?@ABCDEFGHIJKLMNOPQRSTUVWXYZ[\\]^_`abcdefghijklmnopqrstuvwxyz{|}~!\"#$%&'()*+,-./ "
}

// The byte itself if it is printable or none of its group is, else the first printable one of its group.
fn readable_byte(group: &[u8; 256], b: u8) -> u8
    ensures { result ≡ readable_by (same group.now) b }
{
    if is_printable(b) {
        return b;
    }
    let own = group[usize::from(b)];
    for c in printables() {
        if group[usize::from(c)] == own {
            return c;
        }
    }
    b
}

// Replaces each byte of a line by a printable one of its group, where there is one.
pub fn readable(group: &[u8; 256], line: &mut [u8])
    ensures replaced { line.new ≡ map (readable_by (same group.now)) line.old }
{
    for b in line.iter_mut() {
        *b = readable_byte(group, *b);
    }
}
