// Each entry's refusals, in order. Numbers and images come one by one, as the entries are given them.
ghost use Rattle.std.specs.Prelude.{◌≡◌, ◌<◌, ◌≢◌, IfOk, true, List, ℕ, length, ◌≤◌};
ghost use Rattle.rules.specs.Numbers.{run_limit};
ghost use Rattle.rules.specs.State.{state};
ghost use Rattle.rules.specs.Facts.{Sound};
ghost use Rattle.rules.specs.Memory.{size};
ghost use Rattle.rules.specs.Line.{line_exists};
ghost use Rattle.rules.proofs.Kept.{SoundKept};
ghost use Rattle.rules.specs.Refusal.{refusal_of};
ghost use Rattle.rules.specs.Refusals.{refuse, full, no_thread, short, setup_refusal, unsound, put_refusal, take_refusal, go_refusal, back_refusal, cut_refusal, kept_refusal, listing_refusal};

use crate::memory::Shape;
use crate::rows::Turn;
use crate::sound;
use rules::{Control, Line, Refusal, Ring};

// An image long enough for the ring.
fn of_length(s: Shape, m: &[u32]) -> Result<(), Refusal>
    ensures { refusal_of result ≡ refuse (short s.cells s.threads m.now) 10 0 }
{
    if m.len() < s.size() {
        return Err(Refusal::Short);
    }
    Ok(())
}

// Setup: the shape of its images.
#[tactic(auto, using(rules::proofs::Sound::range_of), unfolding(rules::specs::Refusals::setup_refusal))]
pub fn of_setup(
    cells: u32,
    threads: u32,
    tries: u32,
    running: &[u32],
    kept: &[u32],
) -> Result<Shape, Refusal>
    ensures refusal { refusal_of result ≡ setup_refusal cells threads tries running.now kept.now }
    ensures shape { IfOk result (λ s. (s.cells ≡ cells) × (s.threads ≡ threads)) }
    ensures long { IfOk result (λ _. (size cells threads ≤ length running.now) × (size cells threads ≤ length kept.now)) }
{
    if !sound::in_range(cells, threads, tries) {
        return Err(Refusal::Range);
    }
    let shape = Shape { cells, threads };
    of_length(shape, running)?;
    of_length(shape, kept)?;
    Ok(shape)
}

// What every event tests first.
#[tactic(auto, using(rules::proofs::Sound::record_of), unfolding(rules::specs::Refusals::unsound))]
pub fn unsound(c: Control, running: &[u32], kept: &[u32]) -> Result<(), Refusal>
    ensures refusal { refusal_of result ≡ unsound (state c running.now kept.now) }
    ensures sound { IfOk result (λ _. Sound (state c running.now kept.now)) }
{
    if !sound::sound_record(c) {
        return Err(Refusal::Record);
    }
    let shape = Shape::of(c.ring);
    of_length(shape, running)?;
    of_length(shape, kept)?;
    if !sound::sound_image(shape, c.ring.events, running) {
        return Err(Refusal::Image);
    }
    if !sound::sound_image(shape, c.ring.events, kept) {
        return Err(Refusal::Image);
    }
    Ok(())
}

// What each event tests then. That the event count is within the limit is asked and stands in no type: a `Ring` is part of the public record, which takes any numbers.
// A cut is refused only at the run limit.
pub fn of_cut(g: Ring) -> Result<(), Refusal>
    requires { g.events ≤ run_limit }
    ensures refusal { refusal_of result ≡ cut_refusal g }
    ensures accepted { IfOk result (λ _. g.events < run_limit) }
{
    if g.events == Control::RUN_LIMIT {
        return Err(Refusal::Full);
    }
    Ok(())
}

pub fn of_back(g: Ring, line: Line) -> Result<(), Refusal>
    requires { g.events ≤ run_limit }
    ensures refusal { refusal_of result ≡ back_refusal g line }
    ensures accepted { IfOk result (λ _. (g.events < run_limit) × (line_exists g.cells g.threads line ≡ true)) }
{
    of_cut(g)?;
    if !sound::line_exists(g, line) {
        return Err(Refusal::Line);
    }
    Ok(())
}

// Any event of one thread.
fn of_thread(t: Turn) -> Result<(), Refusal>
    requires { t.ring.events ≤ run_limit }
    ensures refusal { refusal_of result ≡ refuse (full t.ring) 7 (refuse (no_thread t.ring t.who) 2 0) }
    ensures accepted { IfOk result (λ _. t.ring.events < run_limit) }
{
    of_cut(t.ring)?;
    if t.ring.threads <= t.who {
        return Err(Refusal::Thread);
    }
    Ok(())
}

pub fn of_take(t: Turn) -> Result<(), Refusal>
    requires { t.ring.events ≤ run_limit }
    ensures refusal { refusal_of result ≡ take_refusal t.ring t.who t.thread }
    ensures accepted { IfOk result (λ _. t.ring.events < run_limit) }
{
    of_thread(t)?;
    if t.thread.place != 0 {
        return Err(Refusal::Busy);
    }
    Ok(())
}

// A put is refused like a take, and for item 0.
pub fn of_put(t: Turn, x: u32) -> Result<(), Refusal>
    requires { t.ring.events ≤ run_limit }
    ensures refusal { refusal_of result ≡ put_refusal t.ring t.who t.thread x }
    ensures accepted { IfOk result (λ _. t.ring.events < run_limit) }
{
    of_take(t)?;
    if x == 0 {
        return Err(Refusal::Blank);
    }
    Ok(())
}

pub fn of_go(t: Turn) -> Result<(), Refusal>
    requires { t.ring.events ≤ run_limit }
    ensures refusal { refusal_of result ≡ go_refusal t.ring t.who t.thread }
    ensures accepted { IfOk result (λ _. (t.ring.events < run_limit) × (t.thread.place ≢ 0)) }
{
    of_thread(t)?;
    if t.thread.place == 0 {
        return Err(Refusal::Idle);
    }
    Ok(())
}

// Host recovery: the shape of its image.
#[tactic(auto, using(rules::proofs::Sound::range_of), unfolding(rules::specs::Refusals::kept_refusal))]
pub fn of_kept(
    cells: u32,
    threads: u32,
    tries: u32,
    events: u32,
    kept: &[u32],
) -> Result<Shape, Refusal>
    ensures refusal { refusal_of result ≡ kept_refusal cells threads tries events kept.now }
    ensures shape { IfOk result (λ s. (s.cells ≡ cells) × (s.threads ≡ threads)) }
    ensures sound { IfOk result (λ _. SoundKept cells threads tries events kept.now) }
{
    if !(sound::in_range(cells, threads, tries) && events <= Control::RUN_LIMIT) {
        return Err(Refusal::Record);
    }
    let shape = Shape { cells, threads };
    of_length(shape, kept)?;
    if !sound::sound_image(shape, events, kept) {
        return Err(Refusal::Image);
    }
    Ok(shape)
}

// The listing: host recovery's tests, and room for so many numbers, since of the room its length is asked alone.
#[tactic(auto, using(crate::proofs::Laws::listing_by))]
pub fn of_listing(
    cells: u32,
    threads: u32,
    tries: u32,
    events: u32,
    kept: &[u32],
    room: usize,
) -> Result<Shape, Refusal>
    ensures refusal { (l : List ℕ) → length l ≡ room → refusal_of result ≡ listing_refusal cells threads tries events kept.now l }
    ensures shape { IfOk result (λ s. (s.cells ≡ cells) × (s.threads ≡ threads)) }
    ensures sound { IfOk result (λ _. SoundKept cells threads tries events kept.now × (cells ≤ room)) }
{
    let shape = of_kept(cells, threads, tries, events, kept)?;
    if room < (cells as usize) {
        return Err(Refusal::Room);
    }
    Ok(shape)
}
