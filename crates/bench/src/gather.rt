// Lines gathered into a block of events: three numbers each. A place in the block, and how many lines may be run, stand beside it: `feed` hands them on, and `pour` speaks of both.
ghost use Rattle.std.specs.Prelude.{◌≡◌, ◌*◌, ◌≤◌, length};
ghost use Rattle.bench.specs.Gather.{three_of_event, three_of, most_of, Gathers};

use crate::read::Command;
use crate::{Carry, Phase, block, read};
use rules::{Event, Line};

// What gathering leaves beside the carry and the events: the next place, and how many lines were gathered.
#[derive(Clone, Copy)]
pub struct Gathered {
    pub next: usize,
    pub count: usize,
}

// An event's numbers, if it is run in a block: a match on the enum's own cases, which gives a value. A function, since neither type is this crate's and `From` could not be implemented here.
fn three_of_event(e: Event) -> Option<[u32; 3]>
    ensures { result ≡ three_of_event e }
{
    match e {
        Event::Put(i, x) => Some([1, i, x]),
        Event::Take(i) => Some([2, i, 0]),
        Event::Go(i) => Some([3, i, 0]),
        Event::Back(Line::Cell(j)) => Some([4, j, 0]),
        Event::Back(Line::Copy(j)) => Some([5, j, 0]),
        Event::Back(Line::Tail) => Some([6, 0, 0]),
        Event::Back(Line::None) | Event::Cut => None,
    }
}

// A command's numbers, if it is run in a block. A line that is refused is 0 0 0, which is no event, so that `ring::run` answers 9 in its turn. A function like the one above, for an Option.
fn three_of(c: Option<Command>) -> Option<[u32; 3]>
    ensures { result ≡ three_of c }
{
    match c {
        Some(Command::Event(e)) => three_of_event(e),
        Some(Command::Ring(_, _, _)) | None => Some([0; 3]),
    }
}

// How many lines may be gathered, of those that are left: a match that gives a number, and chooses no step.
pub fn most_of(phase: Phase, left: usize) -> usize
    ensures most { result ≡ most_of phase left }
    ensures small { (result ≤ left) × (result ≤ 256) }
{
    match phase {
        Phase::Running => left.min(256),
        Phase::First | Phase::Ended => 0,
    }
}

// Lines from a place on go to the block of events, up to the text's end, or a line that is run by itself.
// By places: tried, and events lent out by chunks_exact_mut or as_chunks_mut come back with none of their numbers known, so the `ensures` stays open.
#[tactic(auto, using(crate::proofs::Gathering::gather_none, crate::proofs::Gathering::gather_scan))]
pub fn gather(
    block: &[u8],
    from: usize,
    carry: &mut Carry,
    most: usize,
    events: &mut [u32],
) -> Gathered
    requires { 3 * most ≤ length events.old }
    ensures within { (result.count ≤ most) × (from ≤ result.next) }
    ensures gathers { Gathers carry.old.bytes carry.old.len from block.now most events.new carry.new.bytes carry.new.len result.next result.count }
{
    let mut next = from;
    for count in 0..most {
        next = block::scan_line(block, next, carry);
        if block.len() <= next {
            return Gathered { next, count };
        }
        let Some(three) = three_of(read::line(carry.line())) else {
            return Gathered { next, count };
        };
        events[3 * count..3 * count + 3].copy_from_slice(&three);
        carry.clear();
        next += 1;
    }
    Gathered { next, count: most }
}
