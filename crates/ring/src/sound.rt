// Whether a record, an image, a state is sound. The event count stands beside the image: it is the call's.
ghost use Rattle.std.specs.Prelude.{◌≡◌, ◌≤◌, ◌+◌, ◌*◌, leb, length};
ghost use Rattle.rules.specs.Numbers.{run_limit, in_range};
ghost use Rattle.rules.specs.Memory.{size, cell_at, copy_at};
ghost use Rattle.rules.specs.Line.{line_exists};
ghost use Rattle.rules.specs.Upto.{all_to};
ghost use Rattle.rules.specs.Sound.{sound_ring, sound_number, sound_busy, sound_thread, sound_record, sound_cell, sound_image};

use crate::memory::Shape;
use rules::places::{P1, P10, T1, T10};
use rules::{Cell, Control, Line, Ring, Thread};

// R, n and S are in range: three numbers, since `setup` and recovery ask before there is a record.
#[tactic(auto, unfolding(rules::specs::Numbers::in_range))]
pub fn in_range(cells: u32, threads: u32, tries: u32) -> bool
    ensures { result ≡ in_range cells threads tries }
{
    (1..=Control::MAX_CELLS).contains(&cells)
        && (1..=Control::MAX_THREADS).contains(&threads)
        && (1..=Control::MAX_TRIES).contains(&tries)
}

// The ring's numbers are sound.
#[tactic(auto, unfolding(rules::specs::Sound::sound_ring))]
fn sound_ring(g: Ring) -> bool
    ensures { result ≡ sound_ring g }
{
    in_range(g.cells, g.threads, g.tries) && g.events <= Control::RUN_LIMIT && g.head <= g.events
}

// The line is one of the ring's.
#[tactic(auto, unfolding(rules::specs::Line::line_exists))]
pub fn line_exists(g: Ring, line: Line) -> bool
    ensures { result ≡ line_exists g.cells g.threads line }
{
    match line {
        Line::None => false,
        Line::Cell(j) => j < g.cells,
        Line::Copy(t) => t < g.threads,
        Line::Tail => true,
    }
}

// A number below the event count; at P1 and T1 zero will do.
#[tactic(auto, unfolding(rules::specs::Sound::sound_number))]
fn sound_number(g: Ring, t: Thread) -> bool
    ensures { result ≡ sound_number g t }
{
    t.number < g.events || matches!(t.place, P1 | T1) && t.number == 0
}

// A busy thread is sound.
#[tactic(auto, unfolding(rules::specs::Sound::sound_busy))]
fn sound_busy(g: Ring, t: Thread) -> bool
    ensures { result ≡ sound_busy g t }
{
    let putting = matches!(t.place, P1..=P10);
    matches!(t.place, P1..=T10)
        && t.tries < g.tries
        && (t.awaited == Line::None || line_exists(g, t.awaited))
        && !(putting && t.item == 0)
        && sound_number(g, t)
}

// Thread i is sound.
#[tactic(auto, unfolding(rules::specs::Sound::sound_thread, rules::specs::Sound::all_zero, rules::specs::Table::same))]
fn sound_thread(g: Ring, i: u32, t: Thread) -> bool
    ensures { result ≡ sound_thread g i t }
{
    if t.place == 0 || g.threads <= i {
        t == Thread::idle()
    } else {
        sound_busy(g, t)
    }
}

// The control record is sound.
#[tactic(auto, unfolding(rules::specs::Record::thread_at, rules::specs::Sound::sound_record))]
pub fn sound_record(c: Control) -> bool
    ensures { result ≡ sound_record c }
{
    sound_ring(c.ring)
        && c.thread
            .iter()
            .enumerate()
            .all(|(i, t)| sound_thread(c.ring, i as u32, *t))
}

// A cell is sound. Most indexes are below the event count, so that is asked first: 280 ns an event in `pace`, and not 360.
#[tactic(auto, unfolding(rules::specs::Sound::sound_cell))]
fn sound_cell(s: Shape, events: u32, c: Cell) -> bool
    requires { events ≤ run_limit }
    ensures { result ≡ sound_cell s.cells events c }
{
    c.safe <= 1
        && c.mark <= events
        && (c.index < events || c.item == 0 && c.index < events + s.cells)
}

// All cells are sound.
fn sound_cells(s: Shape, events: u32, m: &[u32]) -> bool
    requires { (events ≤ run_limit) × (4 * s.cells ≤ length m.now) }
    ensures { result ≡ all_to (λ j. sound_cell s.cells events (cell_at s.cells m.now j)) s.cells }
{
    s.all_cells(m).all(|c| sound_cell(s, events, c))
}

// All copies are sound.
fn sound_copies(s: Shape, events: u32, m: &[u32]) -> bool
    requires { 4 * s.cells + s.threads ≤ length m.now }
    ensures { result ≡ all_to (λ t. leb (copy_at s.cells m.now t) events) s.threads }
{
    s.copies(m).iter().all(|v| *v <= events)
}

// An image is sound.
#[tactic(auto, unfolding(rules::specs::Sound::sound_image))]
pub fn sound_image(s: Shape, events: u32, m: &[u32]) -> bool
    requires { (events ≤ run_limit) × (size s.cells s.threads ≤ length m.now) }
    ensures { result ≡ sound_image s.cells s.threads events m.now }
{
    sound_cells(s, events, m)
        && sound_copies(s, events, m)
        && s.closed(m) <= 1
        && s.tail(m) <= events
}
