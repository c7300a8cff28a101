// A thread's turn, and what the rows share: its cell, a cell that matches, a thread that waits.
ghost use Rattle.std.specs.Prelude.{◌≡◌, List, ℕ, ◌<◌, MatchOption, true, false};
ghost use Rattle.rules.specs.Record.{thread_at};
ghost use Rattle.rules.specs.Answers.{by};
ghost use Rattle.rules.specs.Facts.{Ready, SoundRing};
ghost use Rattle.rules.specs.Memory.{set_cell};
ghost use Rattle.rules.specs.Table.{leaves, to, spot, cell_of, matches, row_wait};
ghost use Rattle.ring.specs.OneThread.{moved};

use crate::memory::Shape;
use rules::{Answer, By, Cell, Control, Line, Moved, Ring, Thread};

// A thread's turn: the ring's numbers, the thread's number and its record. What a row needs, `Ready`, stays a clause: it speaks of the running image too, so a ghost field here would leave
// that image's length and Tail to be asked for, and ask soundness of the rows that need none. So does `events ≤ run_limit`, which a turn of any record need not meet.
// A row without an image asks what it needs of `Ready` alone: `SoundRing`, or `0 < cells`.
#[derive(Clone, Copy)]
pub struct Turn {
    pub ring: Ring,
    pub who: u32,
    pub thread: Thread,
}

impl Turn {
    // Thread i's turn.
    pub fn of(c: Control, i: u32) -> Turn
        ensures { result ≡ record { ring = c.ring; who = i; thread = thread_at c i } }
    {
        Turn {
            ring: c.ring,
            who: i,
            thread: c.thread_at(i),
        }
    }

    // The shape of the ring's images.
    pub fn shape(self) -> Shape
        requires { SoundRing self.ring }
        ensures { (result.cells ≡ self.ring.cells) × (result.threads ≡ self.ring.threads) }
    {
        Shape::of(self.ring)
    }

    // Whose answer it is.
    pub fn by(self) -> By
        ensures { result ≡ by self.who self.thread.number }
    {
        By {
            thread: self.who,
            number: self.thread.number,
        }
    }

    // The turn ends, and its thread is as it stands.
    pub fn done(self, answer: Answer) -> Moved
        ensures { result ≡ moved self.ring self.thread answer }
    {
        Moved {
            ring: self.ring,
            thread: self.thread,
            answer,
        }
    }

    // The thread goes to a place.
    pub fn to(&mut self, place: u32, answer: Answer) -> Answer
        ensures { moved self.new.ring self.new.thread result ≡ moved self.old.ring (to self.old.thread place) answer }
    {
        self.thread.place = place;
        answer
    }

    // Which cell is the thread's: its number mod R.
    pub fn spot(self) -> u32
        requires { 0 < self.ring.cells }
        ensures { (result ≡ spot self.ring self.thread) × (result < self.ring.cells) }
    {
        self.thread.number % self.ring.cells
    }

    // That cell.
    pub fn cell(self, m: &[u32]) -> Cell
        requires { Ready self.ring self.who self.thread m.now }
        ensures { result ≡ cell_of self.ring self.thread m.now }
    {
        self.shape().cell(m, self.spot())
    }

    // That cell becomes c.
    pub fn set_cell(self, m: &mut [u32], c: Cell)
        requires { Ready self.ring self.who self.thread m.old }
        ensures { m.new ≡ set_cell self.ring.cells m.old (spot self.ring self.thread) c }
    {
        self.shape().set_cell(m, self.spot(), c);
    }

    // P4, T3, T4, T5: that cell, if its four numbers are still those last looked at.
    #[tactic(auto, unfolding(rules::specs::Table::same))]
    pub fn matching(self, m: &[u32]) -> Option<Cell>
        requires { Ready self.ring self.who self.thread m.now }
        ensures { MatchOption result (matches self.ring self.thread m.now ≡ false) (λ c. (matches self.ring self.thread m.now ≡ true) × (c ≡ cell_of self.ring self.thread m.now)) }
    {
        let c = self.cell(m);
        (c == self.thread.looked).then_some(c)
    }

    // P4, T3, T4, T5: it doesn't match, and the thread goes to a place.
    pub fn missed(&mut self, place: u32) -> Answer
        requires { 0 < self.old.ring.cells }
        ensures { moved self.new.ring self.new.thread result ≡ moved self.old.ring (to self.old.thread place) (Answer.Missed (by self.old.who self.old.thread.number) (spot self.old.ring self.old.thread)) }
    {
        self.to(place, Answer::Missed(self.by(), self.spot()))
    }

    // P6, P10, T10: the last answer once nothing is awaited.
    #[tactic(auto, unfolding(rules::specs::Table::row_wait))]
    pub fn wait(&mut self, last: Answer) -> Answer
        ensures { (m : List ℕ) → leaves (moved self.new.ring self.new.thread result) m ≡ row_wait self.old.ring self.old.who self.old.thread m last }
    {
        if self.thread.awaited == Line::None {
            self.thread = Thread::idle();
            return last;
        }
        Answer::Waiting(self.by())
    }
}
