// A block of events run at once, and its answers printed. Bench, images and text are lent one by one, as in `run`.
ghost use Rattle.std.specs.Prelude.{◌≡◌, ◌+◌, ◌*◌, ◌/◌, ◌≤◌, [], length, drop};
ghost use Rattle.bench.specs.Bench.{run_with};
ghost use Rattle.bench.specs.Block.{pour};
ghost use Rattle.bench.specs.Print.{SameBuffer};
ghost use Rattle.bench.specs.Gather.{told_to, said_six, next_count, printed_to, LinesRan, AnswersPrinted};

use crate::print::{Said, Text};
use crate::{Bench, Carry, gather, run};
use rules::Found;

// What gathered lines leave beside the carry, the images and the text: the bench, the next place in the block, and how many lines may still be run.
#[derive(Clone, Copy)]
pub struct Batch {
    pub bench: Bench,
    pub next: usize,
    pub left: usize,
}

// The event count after an answer with that number, which is 0 for a refusal: `ring::run` leaves answers as numbers. A count of 32 bits stays at its largest number.
#[tactic(auto, unfolding(crate::specs::Gather::next_count))]
fn next_count(e: u32, k: u32) -> u32
    ensures { result ≡ next_count e k }
{
    if k == 0 { e } else { e.saturating_add(1) }
}

// What is printed of an answer's six numbers, if anything: a match that gives a value. Beside `said_of`, since `ring::run` leaves answers as numbers, and an answer read back whole would be taken apart again.
#[tactic(auto, unfolding(crate::specs::Gather::said_six))]
fn said_of_six(six: [u32; 6]) -> Option<Said>
    ensures { result ≡ said_six six }
{
    match six {
        [0, k, ..] => Some(Said::Refused(k)),
        [9, t, _, x, ..] => Some(Said::Ok(t, x)),
        [10, t, ..] => Some(Said::Closed(t)),
        [18, t, _, x, ..] => Some(Said::Item(t, x)),
        [19, t, ..] => Some(Said::Empty(t)),
        [21, mark, head, tail, closed, count] => Some(Said::Cut(Found {
            mark,
            head,
            tail,
            closed,
            count,
        })),
        _ => None,
    }
}

// The lines of a room's answers, after event count e and line l. The last line's number is returned.
fn print_all(e: u32, l: u64, room: &[u32], text: &mut Text) -> u64
    requires { 1 ≤ length room.now / 6 → text.old.at + 2048 * (length room.now / 6) ≤ length text.old.out.now }
    ensures { AnswersPrinted (printed_to e l room.now (length room.now / 6)) (length room.now / 6) text.old result text.new }
{
    let mut count = e;
    let mut line = l;
    let (answers, _) = room.as_chunks::<6>();
    for six in answers {
        count = next_count(count, six[0]);
        line = run::next_line(line);
        text.said(count, line, said_of_six(*six), &[]);
    }
    line
}

// The first n events of a block, and what their answers print. n stands beside the two slices, since `told_to` speaks of a whole block and a count:
// shorter slices would put `take (3 * n)` in both clauses.
fn run_gathered(
    b: Bench,
    running: &mut [u32],
    kept: &mut [u32],
    events: &[u32],
    n: usize,
    room: &mut [u32],
    text: &mut Text,
) -> Bench
    requires { (3 * n ≤ length events.now) × (6 * n ≤ length room.old) × (1 ≤ n → text.old.at + 2048 * n ≤ length text.old.out.now) }
    ensures { LinesRan (told_to (run_with b running.old kept.old) events.now n) n text.old result running.new kept.new text.new }
{
    let d = ring::run(b.control, running, kept, &events[..3 * n], room);
    let lines = print_all(b.control.ring.events, b.lines, &room[..6 * n], text);
    Bench {
        lines,
        control: d.control,
        ..b
    }
}

// Lines from a place on, as many as one block of events holds, run and printed. It may be none. from and left are `feed`'s: `pour` speaks of both.
pub fn run_lines(
    b: Bench,
    carry: &mut Carry,
    running: &mut [u32],
    kept: &mut [u32],
    block: &[u8],
    from: usize,
    left: usize,
    text: &mut Text,
) -> Batch
    requires { 1 ≤ left → text.old.at + 2048 * left ≤ length text.old.out.now }
    ensures same { pour left (run_with b running.old kept.old) carry.old.bytes carry.old.len from (drop from block.now) text.old.out.now text.old.at ≡ pour result.left (run_with result.bench running.new kept.new) carry.new.bytes carry.new.len result.next (drop result.next block.now) text.new.out.now text.new.at }
    ensures room { (from ≤ result.next) × (text.old.at ≤ text.new.at) × (text.new.at + 2048 * result.left ≤ text.old.at + 2048 * left) }
    ensures buffer { SameBuffer text.old text.new }
{
    let mut events = [0u32; 768];
    let mut room = [0u32; 1536];
    let most = gather::most_of(b.phase, left);
    let g = gather::gather(block, from, carry, most, &mut events);
    let bench = run_gathered(b, running, kept, &events, g.count, &mut room, text);
    Batch {
        bench,
        next: g.next,
        left: left - g.count,
    }
}
