// Events of one thread, by its turn: a put's begin, a take's begin, a step.
ghost use Rattle.std.specs.Prelude.{◌≡◌, ◌≢◌, List, ℕ, ◌<◌, ◌≤◌};
ghost use Rattle.rules.specs.Numbers.{run_limit};
ghost use Rattle.rules.specs.Table.{leaves, row};
ghost use Rattle.rules.specs.Facts.{Ready};
ghost use Rattle.ring.specs.OneThread.{moved, put_of, take_of, go_of};

use crate::rows::Turn;
use crate::{puts, refusals, takes};
use rules::Answer;
use rules::places::{P1, P10, T1, T10};

// A put begins.
#[tactic(auto, using(rules::proofs::Limit::counts_below), unfolding(crate::specs::OneThread::put_of, crate::specs::OneThread::unless))]
pub fn put(t: &mut Turn, x: u32) -> Answer
    requires { t.old.ring.events ≤ run_limit }
    ensures { (m : List ℕ) → leaves (moved t.new.ring t.new.thread result) m ≡ put_of t.old.ring t.old.who t.old.thread x m }
{
    match refusals::of_put(*t, x) {
        Err(r) => r.into(),
        Ok(()) => {
            t.ring = t.ring.count();
            t.thread.place = P1;
            t.thread.item = x;
            Answer::Begun(t.who)
        }
    }
}

// A take begins.
#[tactic(auto, using(rules::proofs::Limit::counts_below), unfolding(crate::specs::OneThread::take_of, crate::specs::OneThread::unless))]
pub fn take(t: &mut Turn) -> Answer
    requires { t.old.ring.events ≤ run_limit }
    ensures { (m : List ℕ) → leaves (moved t.new.ring t.new.thread result) m ≡ take_of t.old.ring t.old.who t.old.thread m }
{
    match refusals::of_take(*t) {
        Err(r) => r.into(),
        Ok(()) => {
            t.ring = t.ring.count();
            t.thread.place = T1;
            Answer::Begun(t.who)
        }
    }
}

// One row of the step table, by document 01's one match on the place's number, each arm a small function for its row. A busy thread of a sound record has one of the twenty places.
#[tactic(auto, unfolding(rules::specs::Table::row))]
fn row(t: &mut Turn, m: &mut [u32]) -> Answer
    requires { Ready t.old.ring t.old.who t.old.thread m.old × (t.old.ring.events < run_limit) }
    ensures { leaves (moved t.new.ring t.new.thread result) m.new ≡ row t.old.ring t.old.who t.old.thread m.old }
{
    match t.thread.place {
        P1..=P10 => puts::put_row(t, m),
        T1..=T10 => takes::take_row(t, m),
        _ => unreachable!(),
    }
}

// A step.
#[inline(always)]
#[tactic(auto, unfolding(crate::specs::OneThread::go_of, crate::specs::OneThread::unless))]
pub fn go(t: &mut Turn, m: &mut [u32]) -> Answer
    requires { (t.old.ring.events ≤ run_limit) × (t.old.thread.place ≢ 0 → Ready t.old.ring t.old.who t.old.thread m.old) }
    ensures { leaves (moved t.new.ring t.new.thread result) m.new ≡ go_of t.old.ring t.old.who t.old.thread m.old }
{
    match refusals::of_go(*t) {
        Err(r) => r.into(),
        Ok(()) => {
            let answer = row(t, m);
            t.ring = t.ring.count();
            answer
        }
    }
}
