// The machine: public entries, which take anything. So numbers and images come one by one, as document 01 names them, and in no struct that has an invariant.
#![tactic(auto)]

mod block;
mod events;
mod fresh;
mod listing;
mod memory;
mod one;
mod puts;
mod reader;
mod recovery;
mod refusals;
mod rows;
mod sound;
mod takes;

ghost use Rattle.std.specs.Prelude.{◌≡◌, ◌+◌, cond};
ghost use Rattle.std.specs.Result.{result_unwrap_or};
ghost use Rattle.rules.specs.Answers.{numbers};
ghost use Rattle.rules.specs.State.{state, out};
ghost use Rattle.rules.specs.Refusal.{refusal_of};
ghost use Rattle.rules.specs.Refusals.{setup_refusal, kept_refusal, listing_refusal};
ghost use Rattle.rules.specs.Events.{event, setup};
ghost use Rattle.rules.specs.Listing.{host_kept, listed_count, listed_room};
ghost use Rattle.rules.specs.Reader.{cell_part, part_from};
ghost use Rattle.rules.specs.Block.{event_count, upto, run_block};

use rules::{Control, Event, Line, Outcome, Refusal};

// What setup hands back. No Result of a record: a refused setup hands back one of zeros, which clause `left` says.
#[derive(Clone, Copy)]
pub struct Started {
    pub control: Control,
    pub done: Result<(), Refusal>,
}

// A fresh ring: the control record, and both images made fresh.
#[tactic(auto, unfolding(rules::specs::Events::setup, rules::specs::Events::fresh_state))]
pub fn setup(cells: u32, threads: u32, tries: u32, running: &mut [u32], kept: &mut [u32]) -> Started
    ensures refusal { refusal_of result.done ≡ setup_refusal cells threads tries running.old kept.old }
    ensures left { state result.control running.new kept.new ≡ setup cells threads tries running.old kept.old }
{
    match refusals::of_setup(cells, threads, tries, running, kept) {
        Err(r) => Started {
            control: Control::fresh(0, 0, 0),
            done: Err(r),
        },
        Ok(shape) => {
            fresh::image(shape, running);
            fresh::image(shape, kept);
            Started {
                control: Control::fresh(cells, threads, tries),
                done: Ok(()),
            }
        }
    }
}

// Any event. Each entry below tests soundness and then does its event; no one function holds the six, since an image that an entry does not change is lent it shared.
#[tactic(auto, using(crate::proofs::Entries::entry))]
pub fn event(control: Control, running: &mut [u32], kept: &mut [u32], e: Event) -> Outcome
    ensures outcome { out (state result.control running.new kept.new) result.answer ≡ event (state control running.old kept.old) e }
    ensures answer_numbers { numbers result.answer ≡ numbers (event (state control running.old kept.old) e).answer }
{
    match refusals::unsound(control, running, kept) {
        Err(r) => events::refused(control, r),
        Ok(()) => events::any(control, running, kept, e),
    }
}

// Begin a put.
#[tactic(auto, using(crate::proofs::Entries::entry))]
pub fn put(control: Control, running: &[u32], kept: &[u32], thread: u32, item: u32) -> Outcome
    ensures outcome { out (state result.control running.now kept.now) result.answer ≡ event (state control running.now kept.now) (Event.Put thread item) }
    ensures answer_numbers { numbers result.answer ≡ numbers (event (state control running.now kept.now) (Event.Put thread item)).answer }
{
    match refusals::unsound(control, running, kept) {
        Err(r) => events::refused(control, r),
        Ok(()) => events::put(control, running, kept, thread, item),
    }
}

// Begin a take.
#[tactic(auto, using(crate::proofs::Entries::entry))]
pub fn take(control: Control, running: &[u32], kept: &[u32], thread: u32) -> Outcome
    ensures outcome { out (state result.control running.now kept.now) result.answer ≡ event (state control running.now kept.now) (Event.Take thread) }
    ensures answer_numbers { numbers result.answer ≡ numbers (event (state control running.now kept.now) (Event.Take thread)).answer }
{
    match refusals::unsound(control, running, kept) {
        Err(r) => events::refused(control, r),
        Ok(()) => events::take(control, running, kept, thread),
    }
}

// Step a thread.
#[tactic(auto, using(crate::proofs::Entries::entry))]
pub fn go(control: Control, running: &mut [u32], kept: &[u32], thread: u32) -> Outcome
    ensures outcome { out (state result.control running.new kept.now) result.answer ≡ event (state control running.old kept.now) (Event.Go thread) }
    ensures answer_numbers { numbers result.answer ≡ numbers (event (state control running.old kept.now) (Event.Go thread)).answer }
{
    match refusals::unsound(control, running, kept) {
        Err(r) => events::refused(control, r),
        Ok(()) => events::go(control, running, kept, thread),
    }
}

// Write back a line.
#[tactic(auto, using(crate::proofs::Entries::entry))]
pub fn back(control: Control, running: &[u32], kept: &mut [u32], line: Line) -> Outcome
    ensures outcome { out (state result.control running.now kept.new) result.answer ≡ event (state control running.now kept.old) (Event.Back line) }
    ensures answer_numbers { numbers result.answer ≡ numbers (event (state control running.now kept.old) (Event.Back line)).answer }
{
    match refusals::unsound(control, running, kept) {
        Err(r) => events::refused(control, r),
        Ok(()) => events::back(control, running, kept, line),
    }
}

// A power cut.
#[tactic(auto, using(crate::proofs::Entries::entry))]
pub fn cut(control: Control, running: &mut [u32], kept: &mut [u32]) -> Outcome
    ensures outcome { out (state result.control running.new kept.new) result.answer ≡ event (state control running.old kept.old) Event.Cut }
    ensures answer_numbers { numbers result.answer ≡ numbers (event (state control running.old kept.old) Event.Cut).answer }
{
    match refusals::unsound(control, running, kept) {
        Err(r) => events::refused(control, r),
        Ok(()) => events::cut(control, running, kept),
    }
}

// What a block hands back: the record, and how many events were run.
#[derive(Clone, Copy)]
pub struct Ran {
    pub control: Control,
    pub count: usize,
}

// A block of events, three numbers each, run one after the other; six numbers of each answer go to the room.
#[tactic(auto, unfolding(rules::specs::Block::event_count, rules::specs::Block::run_block))]
pub fn run(
    control: Control,
    running: &mut [u32],
    kept: &mut [u32],
    block: &[u32],
    room: &mut [u32],
) -> Ran
    ensures count { result.count ≡ event_count block.now room.old }
    ensures left { upto (state result.control running.new kept.new) room.new ≡ run_block (state control running.old kept.old) block.now room.old }
{
    let count = block::event_count(block, room);
    match refusals::unsound(control, running, kept) {
        Err(r) => {
            block::refuse_to(r, block, room, count);
            Ran { control, count }
        }
        Ok(()) => Ran {
            control: block::run_to(control, running, kept, block, room, count),
            count,
        },
    }
}

// Recovery of a kept image alone: the image as a cut would leave it.
#[tactic(auto, unfolding(rules::specs::Listing::host_kept))]
pub fn recover(
    cells: u32,
    threads: u32,
    tries: u32,
    events: u32,
    kept: &mut [u32],
) -> Result<(), Refusal>
    ensures refusal { refusal_of result ≡ kept_refusal cells threads tries events kept.old }
    ensures kept { kept.new ≡ host_kept cells threads tries events kept.old }
{
    let shape = refusals::of_kept(cells, threads, tries, events, kept)?;
    recovery::recover(shape, kept);
    Ok(())
}

// The items that a cut now would queue, into the room: their count.
#[tactic(auto, unfolding(rules::specs::Listing::listed_count, rules::specs::Listing::listed_room, rules::specs::Listing::in_front))]
pub fn list(
    cells: u32,
    threads: u32,
    tries: u32,
    events: u32,
    kept: &[u32],
    room: &mut [u32],
) -> Result<u32, Refusal>
    ensures refusal { refusal_of result ≡ listing_refusal cells threads tries events kept.now room.old }
    ensures count { result_unwrap_or result 0 ≡ listed_count cells threads tries events kept.now room.old }
    ensures room { room.new ≡ listed_room cells threads tries events kept.now room.old }
{
    let shape = refusals::of_listing(cells, threads, tries, events, kept, room.len())?;
    let mark = recovery::pass_mark(shape, kept);
    Ok(listing::write_items(shape, mark, kept, room))
}

// The four numbers of one cell, as part of the image that is told (true: kept, false: running); a part of length 0 is the refusal.
// Both are document 01's: a flag that names the image, and that part in place of a Result.
pub fn read_cell<'a>(
    which: bool,
    cells: u32,
    cell: u32,
    running: &'a [u32],
    kept: &'a [u32],
) -> &'a [u32]
    ensures numbers { result.now ≡ cell_part which cells cell running.now kept.now }
    ensures block { result.ref_ptr.0 ≡ cond which kept.entry.ref_ptr.0 running.entry.ref_ptr.0 }
    ensures place { result.ref_ptr.1 ≡ cond which kept.entry.ref_ptr.1 running.entry.ref_ptr.1 + part_from which cells cell running.now kept.now }
{
    reader::read(which, cells, cell, running, kept)
}
