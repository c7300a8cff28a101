// A block of events as numbers: three for each event, six for each answer. How many fit the block and the room stays a clause: a struct of a slice and that fact would be no shorter.
// n stands beside them, since `run_to` speaks of a whole block and a count.
ghost use Rattle.std.specs.Prelude.{◌≡◌, ◌+◌, ◌*◌, ◌≤◌, length};
ghost use Rattle.std.proofs.lemmas.List.Edits.{sets};
ghost use Rattle.rules.specs.State.{State, state};
ghost use Rattle.rules.specs.Refusals.{unsound};
ghost use Rattle.rules.specs.Facts.{Sound};
ghost use Rattle.rules.specs.Refusal.{number_of};
ghost use Rattle.rules.specs.Block.{six, upto, run_to, event_count};

use crate::memory::Shape;
use crate::rows::Turn;
use crate::{events, one, refusals};
use rules::{Answer, Control, Event, Refusal};

// As many events as stand whole in the block and have room for their answers.
#[tactic(auto, unfolding(rules::specs::Block::event_count))]
pub fn event_count(block: &[u32], room: &[u32]) -> usize
    ensures { result ≡ event_count block.now room.now }
{
    (block.len() / 3).min(room.len() / 6)
}

// The answer of event j into the room. By six stores: copy_from_slice misses the speed bar, with 11 ns an event more in `pace`.
#[tactic(auto, unfolding(rules::specs::Block::six))]
fn tell(room: &mut [u32], j: usize, a: Answer)
    requires { 6 * j + 6 ≤ length room.old }
    ensures { room.new ≡ sets room.old (6 * j) (six a) }
{
    let at = 6 * j;
    let s = wire::numbers(a);
    room[at] = s[0];
    room[at + 1] = s[1];
    room[at + 2] = s[2];
    room[at + 3] = s[3];
    room[at + 4] = s[4];
    room[at + 5] = s[5];
}

// The first n events of a state that is not sound, each refused.
// By index: tried, and after room.chunks_exact_mut(6) a proof knows the room's length and none of its numbers, so the `ensures` stays open.
pub fn refuse_to(r: Refusal, block: &[u32], room: &mut [u32], n: usize)
    requires { (3 * n ≤ length block.now) × (6 * n ≤ length room.old) }
    ensures { (s : State) → number_of r ≡ unsound s → upto s room.new ≡ run_to s block.now room.old n }
{
    for j in 0..n {
        let refusal = if wire::is_kind(block[3 * j]) {
            r
        } else {
            Refusal::Text
        };
        tell(room, j, refusal.into());
    }
}

// The first n events of a sound state, by index, since the room is stored to as above. The record is not moved for an event of one thread, nor for a write-back.
// Put, take and go have an arm each, since each calls another function: as one, an event would be matched twice.
#[tactic(auto, unfolding(rules::specs::Record::thread_at))]
pub fn run_to(
    c: Control,
    running: &mut [u32],
    kept: &mut [u32],
    block: &[u32],
    room: &mut [u32],
    n: usize,
) -> Control
    requires { Sound (state c running.old kept.old) × (3 * n ≤ length block.now) × (6 * n ≤ length room.old) }
    ensures { upto (state result running.new kept.new) room.new ≡ run_to (state c running.old kept.old) block.now room.old n }
{
    let mut g = c.ring;
    let mut threads = c.thread;
    for j in 0..n {
        let three = [block[3 * j], block[3 * j + 1], block[3 * j + 2]];
        let answer = match wire::event_in(three) {
            None => Refusal::Text.into(),
            Some(e) => match e {
                Event::Put(i, x) if i < g.threads => {
                    let mut t = Turn {
                        ring: g,
                        who: i,
                        thread: threads[i as usize],
                    };
                    let answer = one::put(&mut t, x);
                    g = t.ring;
                    threads[i as usize] = t.thread;
                    answer
                }
                Event::Take(i) if i < g.threads => {
                    let mut t = Turn {
                        ring: g,
                        who: i,
                        thread: threads[i as usize],
                    };
                    let answer = one::take(&mut t);
                    g = t.ring;
                    threads[i as usize] = t.thread;
                    answer
                }
                Event::Go(i) if i < g.threads => {
                    let mut t = Turn {
                        ring: g,
                        who: i,
                        thread: threads[i as usize],
                    };
                    let answer = one::go(&mut t, running);
                    g = t.ring;
                    threads[i as usize] = t.thread;
                    answer
                }
                Event::Back(line) => match refusals::of_back(g, line) {
                    Err(r) => r.into(),
                    Ok(()) => {
                        events::written(Shape::of(g), &mut threads, line, running, kept);
                        g = g.count();
                        Answer::Written(line)
                    }
                },
                _ => {
                    let d = Control {
                        ring: g,
                        thread: threads,
                    };
                    let o = events::any(d, running, kept, e);
                    g = o.control.ring;
                    threads = o.control.thread;
                    o.answer
                }
            },
        };
        tell(room, j, answer);
    }
    Control {
        ring: g,
        thread: threads,
    }
}
