// A block of text: lines are carried from one block to the next. A place in the block or the buffer stands beside it, and no shorter slice: `feed` is given places and hands places back.
ghost use Rattle.std.specs.Prelude.{◌≡◌, ◌<◌, ◌≤◌, length, drop, get_or};
ghost use Rattle.bench.specs.Block.{scan_of, has_room, line_room};

use crate::Carry;

// What ends a line.
const NEWLINE: u8 = b'\n';

// The block's bytes from a place on go to the carry, up to a newline or the block's end, which is the place that is returned.
// By index, byte by byte: tried with `position` and one copy, and by a zip, which miss the bar of speed (docs/PERFORMANCE.md).
pub fn scan_line(block: &[u8], from: usize, carry: &mut Carry) -> usize
    ensures scan { record { carry = carry.new.bytes; len = carry.new.len; next = result; rest = drop result block.now } ≡ scan_of carry.old.bytes carry.old.len from (drop from block.now) }
    ensures stops { (from ≤ result) × (result < length block.now → get_or block.now result 0 ≡ 10) }
{
    let mut next = from;
    while next < block.len() && block[next] != NEWLINE {
        carry.keep(block[next]);
        next += 1;
    }
    next
}

// Whether there is room for that many bytes.
pub fn has_room(out: &[u8], at: usize, need: usize) -> bool
    ensures { result ≡ has_room need out.now at }
{
    out.len().checked_sub(need).is_some_and(|last| at <= last)
}

// How many lines have room for their output.
#[tactic(auto, unfolding(crate::specs::Block::line_room))]
pub fn line_room(out: &[u8], at: usize) -> usize
    ensures { result ≡ line_room out.now at }
{
    out.len().saturating_sub(at) / 2048
}
