// Lines run over the ring.
// Bench, images and text are lent one by one: the entries of `ring` take the images so, and in a struct of references each clause would say `b.old.running.now`.
ghost use Rattle.std.specs.Prelude.{◌≡◌, ◌≤◌, length, take, Some};
ghost use Rattle.rules.specs.Record.{zero_control};
ghost use Rattle.rules.specs.State.{state};
ghost use Rattle.rules.specs.Events.{event};
ghost use Rattle.bench.specs.Print.{HasRoom, LineWritten};
ghost use Rattle.bench.specs.Bench.{run_with, LineRan, next_line, first_line, first_says, Lists, run, next_state, next_says, event_says, refused_text, ran_line, line_says};
ghost use Rattle.bench.specs.Stream.{is_open, last_ran, last_says};

use crate::print::Text;
use crate::read::Command;
use crate::{Bench, Phase, print, read};
use rules::{Control, Event, Refusal};

// The next line's number. A count of 64 bits stays at its largest number.
#[tactic(auto, unfolding(crate::specs::Bench::next_line))]
pub fn next_line(l: u64) -> u64
    ensures { result ≡ next_line l }
{
    l.saturating_add(1)
}

// A line that is not understood.
fn not_understood(b: Bench, text: &mut Text) -> Bench
    requires { HasRoom text.old }
    ensures bench { result ≡ b }
    ensures printed { LineWritten text.old (refused_text b.lines 9) text.new }
{
    text.refused(b.lines, u32::from(Refusal::Text));
    b
}

// A first line with a ring's numbers, as `setup` takes them.
fn set_up(
    l: u64,
    cells: u32,
    threads: u32,
    tries: u32,
    running: &mut [u32],
    kept: &mut [u32],
    text: &mut Text,
) -> Bench
    requires { HasRoom text.old }
    ensures { LineRan (first_line l (state zero_control running.old kept.old) (Some (Command.Ring cells threads tries))) (first_says l (state zero_control running.old kept.old) (Some (Command.Ring cells threads tries))) text.old result running.new kept.new text.new }
{
    let s = ring::setup(cells, threads, tries, running, kept);
    match s.done {
        Ok(()) => Bench {
            phase: Phase::Running,
            lines: l,
            control: s.control,
        },
        Err(r) => {
            text.refused(l, r.into());
            Bench {
                phase: Phase::Ended,
                lines: l,
                control: s.control,
            }
        }
    }
}

// The first line.
#[tactic(auto, unfolding(crate::specs::Bench::first_line, crate::specs::Bench::first_says))]
fn first_line(
    b: Bench,
    c: Option<Command>,
    running: &mut [u32],
    kept: &mut [u32],
    text: &mut Text,
) -> Bench
    requires { HasRoom text.old }
    ensures { LineRan (first_line b.lines (state b.control running.old kept.old) c) (first_says b.lines (state b.control running.old kept.old) c) text.old result running.new kept.new text.new }
{
    match c {
        Some(Command::Ring(cells, threads, tries)) => {
            set_up(b.lines, cells, threads, tries, running, kept, text)
        }
        Some(Command::Event(_)) | None => {
            let ended = Bench {
                phase: Phase::Ended,
                ..b
            };
            not_understood(ended, text)
        }
    }
}

// The items that a cut would queue, in front of the room, and how many.
fn list_items(control: Control, kept: &[u32], room: &mut [u32; 64]) -> usize
    ensures few { result ≤ 64 }
    ensures lists { Lists control kept.now Event.Cut room.new result }
{
    let g = control.ring;
    ring::list(g.cells, g.threads, g.tries, g.events, kept, room).unwrap_or(0) as usize
}

// The items that the event queues if it is a cut, in front of the room, and how many: `Lists` speaks of a room and a count. The match gives that number, and chooses no step.
fn list_for(e: Event, control: Control, kept: &[u32], room: &mut [u32; 64]) -> usize
    ensures few { result ≤ 64 }
    ensures lists { Lists control kept.now e room.new result }
{
    match e {
        Event::Cut => list_items(control, kept, room),
        _ => 0,
    }
}

// A line that is an event.
fn event_line(b: Bench, e: Event, running: &mut [u32], kept: &mut [u32], text: &mut Text) -> Bench
    requires { HasRoom text.old }
    ensures { LineRan (run b.phase b.lines (event (state b.control running.old kept.old) e).state) (event_says b.lines (state b.control running.old kept.old) e) text.old result running.new kept.new text.new }
{
    let mut room = [0u32; 64];
    let n = list_for(e, b.control, kept, &mut room);
    let o = ring::event(b.control, running, kept, e);
    let s = print::said_of(o.answer);
    text.said(o.control.ring.events, b.lines, s, &room[..n]);
    Bench {
        control: o.control,
        ..b
    }
}

// A line after the first.
fn later_line(
    b: Bench,
    c: Option<Command>,
    running: &mut [u32],
    kept: &mut [u32],
    text: &mut Text,
) -> Bench
    requires { HasRoom text.old }
    ensures { LineRan (run b.phase b.lines (next_state (state b.control running.old kept.old) c)) (next_says b.lines (state b.control running.old kept.old) c) text.old result running.new kept.new text.new }
{
    match c {
        Some(Command::Event(e)) => event_line(b, e, running, kept, text),
        Some(Command::Ring(_, _, _)) | None => not_understood(b, text),
    }
}

// A line, without its newline: the phase's own match, each phase a function.
#[tactic(auto, unfolding(crate::specs::Bench::ran_line, crate::specs::Bench::line_says))]
pub fn run_line(
    b: Bench,
    line: &[u8],
    running: &mut [u32],
    kept: &mut [u32],
    text: &mut Text,
) -> Bench
    requires { HasRoom text.old }
    ensures { LineRan (ran_line (run_with b running.old kept.old) line.now) (line_says (run_with b running.old kept.old) line.now) text.old result running.new kept.new text.new }
{
    let c = read::line(line);
    let counted = Bench {
        lines: next_line(b.lines),
        ..b
    };
    match b.phase {
        Phase::First => first_line(counted, c, running, kept, text),
        Phase::Running => later_line(counted, c, running, kept, text),
        Phase::Ended => counted,
    }
}

// Whether a line is still to be run at the end: it has bytes, or none was read. A function, under the name by which `Stream` and an edit speak of it.
fn is_open(phase: Phase, n: usize) -> bool
    ensures { result ≡ is_open phase n }
{
    0 < n || phase == Phase::First
}

// The last line, which the first n bytes of the carry hold, if it is open. n stands beside it, since `last_ran` asks n and not the line whether it is open.
#[tactic(auto, unfolding(crate::specs::Stream::last_ran, crate::specs::Stream::last_says))]
pub fn run_last(
    b: Bench,
    carry: &[u8],
    n: usize,
    running: &mut [u32],
    kept: &mut [u32],
    text: &mut Text,
) -> Bench
    requires { HasRoom text.old }
    ensures { LineRan (last_ran (run_with b running.old kept.old) (take n carry.now) n) (last_says (run_with b running.old kept.old) (take n carry.now) n) text.old result running.new kept.new text.new }
{
    if is_open(b.phase, n) {
        return run_line(b, &carry[..n.min(carry.len())], running, kept, text);
    }
    b
}
