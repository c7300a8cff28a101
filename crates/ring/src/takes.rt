// The take rows, T1 to T10.
ghost use Rattle.std.specs.Prelude.{◌≡◌, List, ℕ, ◌+◌, ◌<◌, ◌≤◌};
ghost use Rattle.rules.specs.Facts.{Ready, SoundRing};
ghost use Rattle.rules.specs.Numbers.{run_limit};
ghost use Rattle.rules.specs.Record.{cell};
ghost use Rattle.rules.specs.Table.{leaves, row_t1, row_t2, row_t3, row_t4, row_t5, row_t6, row_t7, row_t8, row_t9, row_t10, take_row};
ghost use Rattle.ring.specs.OneThread.{moved};

use crate::rows::Turn;
use rules::places::{T1, T2, T3, T4, T5, T6, T7, T8, T9, T10};
use rules::{Answer, Cell, Line};

// T1: draws Head.
#[tactic(auto, using(rules::proofs::Limit::draws_below), unfolding(rules::specs::Table::row_t1))]
fn t1(t: &mut Turn) -> Answer
    requires { t.old.ring.head < run_limit }
    ensures { (m : List ℕ) → leaves (moved t.new.ring t.new.thread result) m ≡ row_t1 t.old.ring t.old.who t.old.thread m }
{
    t.thread.number = t.ring.head;
    t.thread.looked = Cell::default();
    t.ring = t.ring.draw();
    t.to(T2, Answer::Drew(t.by()))
}

// T2: looks at the cell.
#[tactic(auto, unfolding(rules::specs::Table::row_t2))]
fn t2(t: &mut Turn, m: &[u32]) -> Answer
    requires { Ready t.old.ring t.old.who t.old.thread m.now }
    ensures { leaves (moved t.new.ring t.new.thread result) m.now ≡ row_t2 t.old.ring t.old.who t.old.thread m.now }
{
    let c = t.cell(m);
    t.thread.looked = c;
    let place = if c.index > t.thread.number {
        T6
    } else if c.item == 0 {
        T5
    } else if c.index == t.thread.number {
        T3
    } else {
        T4
    };
    t.to(place, Answer::Looked(t.by(), t.spot()))
}

// T3, T5: what the cell c becomes.
fn passed(t: Turn, c: Cell) -> Cell
    requires { SoundRing t.ring × (t.thread.number ≤ t.ring.events) }
    ensures { result ≡ cell c.safe (t.thread.number + t.ring.cells) 0 (t.thread.number + 1) }
{
    Cell {
        index: t.thread.number + t.ring.cells,
        item: 0,
        mark: t.thread.number + 1,
        ..c
    }
}

// T3: takes, if the cell still matches.
#[tactic(auto, unfolding(rules::specs::Table::row_t3))]
fn t3(t: &mut Turn, m: &mut [u32]) -> Answer
    requires { Ready t.old.ring t.old.who t.old.thread m.old }
    ensures { leaves (moved t.new.ring t.new.thread result) m.new ≡ row_t3 t.old.ring t.old.who t.old.thread m.old }
{
    let Some(c) = t.matching(m) else {
        return t.missed(T2);
    };
    t.set_cell(m, passed(*t, c));
    t.thread.item = c.item;
    t.to(T8, Answer::Took(t.by(), t.spot(), c.item))
}

// T4: flags, if the cell still matches.
#[tactic(auto, unfolding(rules::specs::Table::row_t4))]
fn t4(t: &mut Turn, m: &mut [u32]) -> Answer
    requires { Ready t.old.ring t.old.who t.old.thread m.old }
    ensures { leaves (moved t.new.ring t.new.thread result) m.new ≡ row_t4 t.old.ring t.old.who t.old.thread m.old }
{
    let Some(c) = t.matching(m) else {
        return t.missed(T2);
    };
    t.set_cell(m, Cell { safe: 0, ..c });
    t.to(T6, Answer::Flagged(t.by(), t.spot()))
}

// T5: passes, if the cell still matches.
#[tactic(auto, unfolding(rules::specs::Table::row_t5))]
fn t5(t: &mut Turn, m: &mut [u32]) -> Answer
    requires { Ready t.old.ring t.old.who t.old.thread m.old }
    ensures { leaves (moved t.new.ring t.new.thread result) m.new ≡ row_t5 t.old.ring t.old.who t.old.thread m.old }
{
    let Some(c) = t.matching(m) else {
        return t.missed(T2);
    };
    t.set_cell(m, passed(*t, c));
    t.to(T6, Answer::Passed(t.by(), t.spot()))
}

// T6: compares Tail.
#[tactic(auto, unfolding(rules::specs::Table::row_t6))]
fn t6(t: &mut Turn, m: &[u32]) -> Answer
    requires { Ready t.old.ring t.old.who t.old.thread m.now }
    ensures { leaves (moved t.new.ring t.new.thread result) m.now ≡ row_t6 t.old.ring t.old.who t.old.thread m.now }
{
    let tail = t.shape().tail(m);
    let place = if tail <= t.thread.number + 1 { T7 } else { T1 };
    t.to(place, Answer::SawTail(t.by(), tail))
}

// T7: lifts Tail.
#[tactic(auto, unfolding(rules::specs::Table::row_t7))]
fn t7(t: &mut Turn, m: &mut [u32]) -> Answer
    requires { Ready t.old.ring t.old.who t.old.thread m.old }
    ensures { leaves (moved t.new.ring t.new.thread result) m.new ≡ row_t7 t.old.ring t.old.who t.old.thread m.old }
{
    let tail = t.shape().tail(m).max(t.ring.head);
    t.shape().set_tail(m, tail);
    t.to(T8, Answer::Lifted(t.by(), tail))
}

// T8: sets its own copy of Head.
#[tactic(auto, unfolding(rules::specs::Table::row_t8))]
fn t8(t: &mut Turn, m: &mut [u32]) -> Answer
    requires { Ready t.old.ring t.old.who t.old.thread m.old }
    ensures { leaves (moved t.new.ring t.new.thread result) m.new ≡ row_t8 t.old.ring t.old.who t.old.thread m.old }
{
    let next = t.thread.number + 1;
    t.shape().set_copy(m, t.who, next);
    t.to(T9, Answer::Copied(t.by(), next))
}

// T9: asks for its own copy.
#[tactic(auto, unfolding(rules::specs::Table::row_t9))]
fn t9(t: &mut Turn) -> Answer
    ensures { (m : List ℕ) → leaves (moved t.new.ring t.new.thread result) m ≡ row_t9 t.old.ring t.old.who t.old.thread m }
{
    t.thread.awaited = Line::Copy(t.who);
    t.to(T10, Answer::Asked(t.by()))
}

// T10: waits, then ITEM or EMPTY.
#[tactic(auto, unfolding(rules::specs::Table::row_t10))]
fn t10(t: &mut Turn) -> Answer
    ensures { (m : List ℕ) → leaves (moved t.new.ring t.new.thread result) m ≡ row_t10 t.old.ring t.old.who t.old.thread m }
{
    let last = if t.thread.item == 0 {
        Answer::Empty(t.by())
    } else {
        Answer::Item(t.by(), t.thread.item)
    };
    t.wait(last)
}

// The row of a take place: the take part of document 01's one match.
#[tactic(auto, unfolding(rules::specs::Table::take_row))]
pub fn take_row(t: &mut Turn, m: &mut [u32]) -> Answer
    requires ready { Ready t.old.ring t.old.who t.old.thread m.old }
    requires within { t.old.ring.head < run_limit }
    ensures { leaves (moved t.new.ring t.new.thread result) m.new ≡ take_row t.old.ring t.old.who t.old.thread m.old }
{
    match t.thread.place {
        T1 => t1(t),
        T2 => t2(t, m),
        T3 => t3(t, m),
        T4 => t4(t, m),
        T5 => t5(t, m),
        T6 => t6(t, m),
        T7 => t7(t, m),
        T8 => t8(t, m),
        T9 => t9(t),
        _ => t10(t),
    }
}
