// ringrun's text: a line read, blocks of text run over the ring, answers printed. Public entries, which take anything.
#![tactic(auto)]

mod block;
mod carry;
mod gather;
mod print;
pub mod read;
mod run;
mod tell;

ghost use Rattle.std.specs.Prelude.{◌≡◌, ◌+◌, ◌<◌, ◌≤◌, length, drop};
ghost use Rattle.bench.specs.Bench.{run_with, fresh_bench};
ghost use Rattle.bench.specs.Block.{poured, line_room, pour, finished};

pub use carry::Carry;
use print::Text;
use rules::Control;
use tell::Batch;

// Before the first line, running, or ended by a refused first line.
#[derive(Clone, Copy, PartialEq, Eq)]
pub enum Phase {
    First,
    Running,
    Ended,
}

// How far the input has come, beside the images: the phase, the lines read, the control record.
#[derive(Clone, Copy)]
pub struct Bench {
    pub phase: Phase,
    pub lines: u64,
    pub control: Control,
}

// What a block leaves beside the carry, the images and the buffer: the bench, the next place in the block and in the buffer.
#[derive(Clone, Copy)]
pub struct Fed {
    pub bench: Bench,
    pub next: usize,
    pub at: usize,
}

// What the end of the input leaves beside the images and the buffer: the bench, and the place after the last line.
#[derive(Clone, Copy)]
pub struct Finished {
    pub bench: Bench,
    pub at: usize,
}

impl Bench {
    // Before the first line. No derive: a control record has no default, it is made of R, n and S.
    pub fn fresh() -> Self
        ensures { result ≡ fresh_bench }
    {
        Bench {
            phase: Phase::First,
            lines: 0,
            control: Control::fresh(0, 0, 0),
        }
    }
}

// A block of input from a place on, until it is over or as many lines were run as the buffer has room for, at 2,048 bytes each.
// Places stand beside the block and the buffer, and no shorter slices: any place may be given, and `pour` speaks of them. Bench, carry and images are lent one by one: it speaks of each.
pub fn feed(
    mut bench: Bench,
    carry: &mut Carry,
    running: &mut [u32],
    kept: &mut [u32],
    block: &[u8],
    from: usize,
    out: &mut [u8],
    at: usize,
) -> Fed
    ensures outcome { poured (run_with result.bench running.new kept.new) carry.new.bytes carry.new.len result.next out.new result.at ≡ pour (line_room out.old at) (run_with bench running.old kept.old) carry.old.bytes carry.old.len from (drop from block.now) out.old at }
    ensures room { (at ≤ length out.old → result.at ≤ length out.new) × (from < length block.now → at + 2048 ≤ length out.old → from < result.next) }
{
    let mut next = from;
    let mut left = block::line_room(out, at);
    let mut text = Text { out, at };
    // A while, since a turn goes on where the lines of the turn before it end, which no range gives.
    while next < block.len() {
        Batch { bench, next, left } = tell::run_lines(
            bench, carry, running, kept, block, next, left, &mut text,
        );
        next = block::scan_line(block, next, carry);
        if block.len() <= next || left == 0 {
            break;
        }
        bench = run::run_line(bench, carry.line(), running, kept, &mut text);
        carry.clear();
        next += 1;
        left -= 1;
    }
    Fed {
        bench,
        next,
        at: text.at,
    }
}

// The end of the input: the last line, if its newline is missing or no line was read, and the event count. It wants room for 4,096 bytes.
// The carried bytes, their number and the place are given one by one: `finished` speaks of any of them.
pub fn finish(
    bench: Bench,
    carry: &[u8],
    len: usize,
    running: &mut [u32],
    kept: &mut [u32],
    out: &mut [u8],
    at: usize,
) -> Finished
    ensures outcome { record { run = run_with result.bench running.new kept.new; out = out.new; at = result.at } ≡ finished (run_with bench running.old kept.old) carry.now len out.old at }
    ensures room { at ≤ length out.old → result.at ≤ length out.new }
{
    if !block::has_room(out, at, 4096) {
        return Finished { bench, at };
    }
    let mut text = Text { out, at };
    let bench = run::run_last(bench, carry, len, running, kept, &mut text);
    text.end(bench.control.ring.events);
    Finished { bench, at: text.at }
}
