// What the operators' screen shows of a pattern (request 3): its byte groups, and a line in bytes that a person can read.
#![tactic(auto)]

ghost use Rattle.screen.specs.Shows.{Shows, Rewrites};

use groups::Groups;
use reader::refusal::Refusal;

// Reads a pattern, and hands out its groups: the number of each byte's group and the lowest byte of each group, with zeros after the last. Table of named sets and pattern
// are two parameters, as they are the reader's.
pub fn groups(loaded: &[u8], pattern: &[u8]) -> Result<Groups, Refusal>
    ensures shown { Shows loaded.now pattern.now result }
{
    let reading = reader::read(loaded, pattern)?;
    // of ten thousand bytes that are read no more than these are moved
    let masks = reading.pattern.masks;
    Ok(groups::groups_of(&masks))
}

// Replaces each byte of a line by a printable byte of its group, where there is one: both readings cut the line at the places where they cut it before. A refused
// pattern leaves it as it is.
pub fn readable(loaded: &[u8], pattern: &[u8], line: &mut [u8]) -> Result<(), Refusal>
    ensures replaced { Rewrites loaded.now pattern.now line.old result line.new }
{
    let own = groups(loaded, pattern)?;
    groups::readable(&own.group, line);
    Ok(())
}
