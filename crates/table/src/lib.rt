// A table of slots, of any length: records put in and taken out, the look for one, and the origin fields. The table comes with the width of its records.
#![tactic(auto)]

ghost use Rattle.std.specs.Prelude.{◌≡◌, ◌+◌, ◌≤◌, min, length, take, drop, None, Some, MatchOption};
ghost use Rattle.table.specs.Slots.{slot_count, slot_at, put, loaded, origin_at, byte_at};
ghost use Rattle.table.specs.Looks.{first_unequal, comparison_end, look, place_below};

pub mod count;

// The slots of a table, for records of so many bytes.
#[derive(Clone, Copy)]
pub struct Slots<'a> {
    pub bytes: &'a [u8],
    pub width: usize,
}

// The same, to put records into.
#[derive(Drop)]
pub struct SlotsMut<'a> {
    pub bytes: &'a mut [u8],
    pub width: usize,
}

// What a look through the records hands back.
#[derive(Clone, Copy)]
pub struct Look {
    // the number of the first record that has the standing; if none has: the number that a further record gets
    pub number: Result<usize, usize>,
    // how many records were compared
    pub compared: usize,
}

// The place of the first byte in which u and v differ.
fn first_unequal(u: &[u8], v: &[u8]) -> Option<usize>
    requires { length u.now ≡ length v.now }
    ensures { result ≡ place_below (length u.now) (first_unequal (length u.now) 0 u.now v.now) }
{
    u.iter().zip(v).position(|(x, y)| x != y)
}

// Where the comparison of two records ends: the origin fields, bytes 10 to 12, may differ.
fn comparison_end(u: &[u8], v: &[u8]) -> Option<usize>
    requires { (13 ≤ length u.now) × (length u.now ≡ length v.now) }
    ensures { result ≡ place_below (length u.now) (comparison_end (length u.now) u.now v.now) }
{
    if let Some(place) = first_unequal(&u[..10], &v[..10]) {
        return Some(place);
    }
    let place = first_unequal(&u[13..], &v[13..])?;
    Some(13 + place)
}

impl<'a> Slots<'a> {
    // How many slots there are.
    pub fn count(self) -> usize
        ensures slots { result ≡ slot_count self.entry.width (length self.entry.bytes.now) }
    {
        count::slots(self.bytes.len(), self.width)
    }

    // The bytes of slot k, if the table has it.
    fn slot(self, k: usize) -> Option<&'a [u8]>
        ensures { MatchOption result (slot_count self.entry.width (length self.entry.bytes.now) ≤ k)
            (λ u. (k + 1 ≤ slot_count self.entry.width (length self.entry.bytes.now)) × (13 ≤ length u.now) × (length u.now ≤ 64) × (u.now ≡ slot_at self.entry.width self.entry.bytes.now k)) }
    {
        if self.count() <= k {
            return None;
        }
        let at = self.width * k;
        Some(&self.bytes[at..at + self.width])
    }

    // The record in slot k, and zeros after it; zeros alone if the table does not have it.
    pub fn load(self, k: usize) -> [u8; 64]
        ensures loaded { result ≡ loaded self.entry.width self.entry.bytes.now k }
    {
        let Some(record) = self.slot(k) else {
            return [0; 64];
        };
        let mut v = [0; 64];
        v[..record.len()].copy_from_slice(record);
        v
    }

    // Looks through n records, from record 0 upwards, for the first that has the standing of the record that v begins with. No more are looked at than there are slots.
    pub fn find(self, n: usize, v: &[u8; 64]) -> Look
        ensures looked { result ≡ look self.entry.width self.entry.bytes.now (min n (slot_count self.entry.width (length self.entry.bytes.now))) (take self.entry.width v.now) }
    {
        let end = n.min(self.count());
        // no record: the width may be 0, by which nothing is cut
        if end == 0 {
            return Look {
                number: Err(0),
                compared: 0,
            };
        }
        let wanted = &v[..self.width];
        // The bytes left alone say how many records are passed: a counter beside them is slower.
        let stop = self.width * end;
        let mut records = self.bytes[..stop].chunks_exact(self.width);
        while let Some(record) = records.next() {
            if comparison_end(record, wanted).is_none() {
                let left = records.len();
                return Look {
                    number: Ok(end - left - 1),
                    compared: end - left,
                };
            }
        }
        Look {
            number: Err(end),
            compared: end,
        }
    }

    // The number of the record that slot k's comes from.
    pub fn origin(self, k: usize) -> usize
        ensures origin { result ≡ origin_at self.entry.width self.entry.bytes.now k }
    {
        let Some(record) = self.slot(k) else {
            return 0;
        };
        usize::from(u16::from_be_bytes([record[10], record[11]]))
    }

    // The byte by which it comes from it.
    pub fn byte(self, k: usize) -> u8
        ensures byte { result ≡ byte_at self.entry.width self.entry.bytes.now k }
    {
        match self.slot(k) {
            Some(record) => record[12],
            None => 0,
        }
    }
}

impl<'a> SlotsMut<'a> {
    // The slots to be read.
    pub fn view(&self) -> Slots<'_>
        ensures bytes { result.bytes.now ≡ self.now.bytes.now }
        ensures width { result.width ≡ self.now.width }
    {
        Slots {
            bytes: self.bytes,
            width: self.width,
        }
    }

    // Puts the record that v begins with into slot k, if the table has it.
    pub fn store(&mut self, k: usize, v: &[u8; 64])
        ensures same_reference { self.new.bytes.ghost_name ≡ self.old.bytes.ghost_name }
        ensures same_width { self.new.width ≡ self.old.width }
        ensures stored { self.new.bytes.now ≡ put self.old.width self.old.bytes.now k v.now }
    {
        if self.view().count() <= k {
            return;
        }
        let n = self.width;
        let at = n * k;
        self.bytes[at..at + n].copy_from_slice(&v[..n]);
    }
}
