// The slots of a table by its length.

ghost use Rattle.std.specs.Prelude.{◌≡◌};
ghost use Rattle.table.specs.Slots.{slot_count};

// How many slots a table of so many bytes has: none if no record has that width.
pub fn slots(len: usize, width: usize) -> usize
    ensures slots { result ≡ slot_count width len }
{
    if !(13..=64).contains(&width) {
        return 0;
    }
    len / width
}
