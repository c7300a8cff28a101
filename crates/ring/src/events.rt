// The events of a sound state: begin, step, write back, cut. `Sound` stays a clause: it speaks of the record and of both images, which are lent beside it.
ghost use Rattle.std.specs.Prelude.{◌≡◌, map, true, ◌<◌, ◌≤◌, length};
ghost use Rattle.rules.specs.Numbers.{run_limit};
ghost use Rattle.rules.specs.Record.{control_of, headed};
ghost use Rattle.rules.specs.Memory.{size};
ghost use Rattle.rules.specs.Line.{carried, released, line_exists};
ghost use Rattle.rules.specs.State.{state, out};
ghost use Rattle.rules.specs.Facts.{Sound};
ghost use Rattle.rules.specs.Refusal.{answer_of};
ghost use Rattle.rules.specs.declared.Event.TheVariants.{Put, Take, Go, Back, Cut};
ghost use Rattle.rules.specs.Events.{counts, inner};
ghost use Rattle.ring.specs.OneThread.{placed};

use crate::memory::Shape;
use crate::rows::Turn;
use crate::{memory, one, recovery, refusals};
use rules::{Answer, Control, Event, Line, Moved, Outcome, Refusal, Ring, Thread};

// A refusal: nothing has moved.
pub fn refused(c: Control, r: Refusal) -> Outcome
    ensures { result ≡ record { control = c; answer = answer_of r } }
{
    Outcome {
        control: c,
        answer: r.into(),
    }
}

// The record with one event more.
#[tactic(auto, using(rules::proofs::Limit::counts_below))]
fn count(c: Control) -> Control
    requires { c.ring.events < run_limit }
    ensures { result ≡ counts c }
{
    Control {
        ring: c.ring.count(),
        ..c
    }
}

// The record with what an event left of its thread i.
#[tactic(auto, unfolding(rules::specs::Record::with_thread))]
fn placed(c: Control, i: u32, m: Moved) -> Outcome
    ensures { result ≡ record { control = placed c i m; answer = m.answer } }
{
    Outcome {
        control: Control {
            ring: m.ring,
            ..c.with_thread(i, m.thread)
        },
        answer: m.answer,
    }
}

// Begins a put.
pub fn put(c: Control, running: &[u32], kept: &[u32], i: u32, x: u32) -> Outcome
    requires { Sound (state c running.now kept.now) }
    ensures { out (state result.control running.now kept.now) result.answer ≡ inner (state c running.now kept.now) (Put i x) }
{
    let mut t = Turn::of(c, i);
    let answer = one::put(&mut t, x);
    placed(c, i, t.done(answer))
}

// Begins a take.
pub fn take(c: Control, running: &[u32], kept: &[u32], i: u32) -> Outcome
    requires { Sound (state c running.now kept.now) }
    ensures { out (state result.control running.now kept.now) result.answer ≡ inner (state c running.now kept.now) (Take i) }
{
    let mut t = Turn::of(c, i);
    let answer = one::take(&mut t);
    placed(c, i, t.done(answer))
}

// Steps a thread.
pub fn go(c: Control, running: &mut [u32], kept: &[u32], i: u32) -> Outcome
    requires { Sound (state c running.old kept.now) }
    ensures { out (state result.control running.new kept.now) result.answer ≡ inner (state c running.old kept.now) (Go i) }
{
    let mut t = Turn::of(c, i);
    let answer = one::go(&mut t, running);
    placed(c, i, t.done(answer))
}

// The thread once the line is written.
#[tactic(auto, unfolding(rules::specs::Line::released, rules::specs::Line::ends, rules::specs::Line::carries_cell, rules::specs::Line::carries_copy, rules::specs::Line::carries_tail))]
fn release(line: Line, t: &mut Thread)
    ensures { t.new ≡ released line t.old }
{
    if t.awaited == line {
        t.awaited = Line::None;
    }
}

// All threads once the line is written. In place: the array's map misses the speed bar, with 12 ns an event more in `pace`.
fn release_all(line: Line, threads: &mut [Thread; 8])
    ensures { threads.new ≡ map (released line) threads.old }
{
    for t in threads.iter_mut() {
        release(line, t);
    }
}

// The line goes from running to kept.
#[tactic(auto, unfolding(rules::specs::Line::line_exists, rules::specs::Line::carried))]
fn carry(s: Shape, line: Line, running: &[u32], kept: &mut [u32])
    requires { (size s.cells s.threads ≤ length running.now) × (size s.cells s.threads ≤ length kept.old) × (line_exists s.cells s.threads line ≡ true) }
    ensures { kept.new ≡ carried s.cells s.threads line running.now kept.old }
{
    match line {
        Line::None => {}
        Line::Cell(j) => s.set_cell(kept, j, s.cell(running, j)),
        Line::Copy(t) => s.set_copy(kept, t, s.copy(running, t)),
        Line::Tail => {
            s.set_closed(kept, s.closed(running));
            s.set_tail(kept, s.tail(running));
        }
    }
}

// Writes a line back that exists: what that leaves of the threads.
pub fn written(s: Shape, threads: &mut [Thread; 8], line: Line, running: &[u32], kept: &mut [u32])
    requires { (size s.cells s.threads ≤ length running.now) × (size s.cells s.threads ≤ length kept.old) × (line_exists s.cells s.threads line ≡ true) }
    ensures threads { threads.new ≡ map (released line) threads.old }
    ensures kept { kept.new ≡ carried s.cells s.threads line running.now kept.old }
{
    carry(s, line, running, kept);
    release_all(line, threads);
}

// Writes a line back.
#[tactic(auto, using(crate::proofs::Entries::inner_refused, crate::proofs::Entries::inner_accepted, rules::proofs::Limit::counts_below), unfolding(rules::specs::Refusals::own_refusal, rules::specs::Events::write_back, rules::specs::Events::does))]
pub fn back(mut c: Control, running: &[u32], kept: &mut [u32], line: Line) -> Outcome
    requires { Sound (state c running.now kept.old) }
    ensures { out (state result.control running.now kept.new) result.answer ≡ inner (state c running.now kept.old) (Back line) }
{
    let g = c.ring;
    match refusals::of_back(g, line) {
        Err(r) => refused(c, r),
        Ok(()) => {
            written(Shape::of(g), &mut c.thread, line, running, kept);
            Outcome {
                control: Control {
                    ring: g.count(),
                    ..c
                },
                answer: Answer::Written(line),
            }
        }
    }
}

// The record after a cut: all threads idle, Head as recovered.
fn after_cut(g: Ring, head: u32) -> Control
    ensures { result ≡ control_of (headed g head) }
{
    Control {
        ring: Ring { head, ..g },
        ..Control::fresh(g.cells, g.threads, g.tries)
    }
}

// A power cut.
#[tactic(auto, using(crate::proofs::Entries::inner_refused, crate::proofs::Entries::inner_accepted), unfolding(rules::specs::Refusals::own_refusal, rules::specs::Events::cut, rules::specs::Events::does))]
pub fn cut(c: Control, running: &mut [u32], kept: &mut [u32]) -> Outcome
    requires { Sound (state c running.old kept.old) }
    ensures { out (state result.control running.new kept.new) result.answer ≡ inner (state c running.old kept.old) Cut }
{
    let g = c.ring;
    match refusals::of_cut(g) {
        Err(r) => refused(c, r),
        Ok(()) => {
            let shape = Shape::of(g);
            let found = recovery::recover(shape, kept);
            memory::over(kept, running, shape.size());
            Outcome {
                control: count(after_cut(g, found.head)),
                answer: Answer::Cut(found),
            }
        }
    }
}

// Any event: the enum's own match, each case with its numbers.
pub fn any(c: Control, running: &mut [u32], kept: &mut [u32], e: Event) -> Outcome
    requires { Sound (state c running.old kept.old) }
    ensures { out (state result.control running.new kept.new) result.answer ≡ inner (state c running.old kept.old) e }
{
    match e {
        Event::Put(i, x) => put(c, running, kept, i, x),
        Event::Take(i) => take(c, running, kept, i),
        Event::Go(i) => go(c, running, kept, i),
        Event::Back(line) => back(c, running, kept, line),
        Event::Cut => cut(c, running, kept),
    }
}
