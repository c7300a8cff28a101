// The put rows, P1 to P10.
ghost use Rattle.std.specs.Prelude.{◌≡◌, List, ℕ, ◌<◌};
ghost use Rattle.rules.specs.Facts.{Ready, SoundRing};
ghost use Rattle.rules.specs.Table.{leaves, row_p1, row_p2, row_p3, row_p4, row_p5, row_p6, row_p7, row_p8, row_p9, row_p10, put_row};
ghost use Rattle.ring.specs.OneThread.{moved};

use crate::rows::Turn;
use rules::places::{P1, P2, P3, P4, P5, P6, P7, P8, P9, P10};
use rules::{Answer, Cell, Line};

// P1: draws Tail.
#[tactic(auto, unfolding(rules::specs::Table::row_p1))]
fn p1(t: &mut Turn, m: &mut [u32]) -> Answer
    requires { Ready t.old.ring t.old.who t.old.thread m.old }
    ensures { leaves (moved t.new.ring t.new.thread result) m.new ≡ row_p1 t.old.ring t.old.who t.old.thread m.old }
{
    let tail = t.shape().tail(m);
    let closed = t.shape().closed(m);
    t.shape().set_tail(m, tail + 1);
    t.thread.number = tail;
    t.thread.looked = Cell::default();
    let place = if closed == 1 { P7 } else { P2 };
    t.to(place, Answer::Drew(t.by()))
}

// P2: looks at the cell.
#[tactic(auto, unfolding(rules::specs::Table::row_p2))]
fn p2(t: &mut Turn, m: &[u32]) -> Answer
    requires { Ready t.old.ring t.old.who t.old.thread m.now }
    ensures { leaves (moved t.new.ring t.new.thread result) m.now ≡ row_p2 t.old.ring t.old.who t.old.thread m.now }
{
    let c = t.cell(m);
    t.thread.looked = c;
    let place = if c.item == 0 && c.index <= t.thread.number {
        if c.safe == 1 { P4 } else { P3 }
    } else {
        P8
    };
    t.to(place, Answer::Looked(t.by(), t.spot()))
}

// P3: compares Head.
#[tactic(auto, unfolding(rules::specs::Table::row_p3))]
fn p3(t: &mut Turn) -> Answer
    ensures { (m : List ℕ) → leaves (moved t.new.ring t.new.thread result) m ≡ row_p3 t.old.ring t.old.who t.old.thread m }
{
    let head = t.ring.head;
    let place = if head <= t.thread.number { P4 } else { P8 };
    t.to(place, Answer::SawHead(t.by(), head))
}

// P4: lands, if the cell still matches.
#[tactic(auto, unfolding(rules::specs::Table::row_p4))]
fn p4(t: &mut Turn, m: &mut [u32]) -> Answer
    requires { Ready t.old.ring t.old.who t.old.thread m.old }
    ensures { leaves (moved t.new.ring t.new.thread result) m.new ≡ row_p4 t.old.ring t.old.who t.old.thread m.old }
{
    let Some(c) = t.matching(m) else {
        return t.missed(P8);
    };
    let landed = Cell {
        safe: 1,
        index: t.thread.number,
        item: t.thread.item,
        ..c
    };
    t.set_cell(m, landed);
    t.to(P5, Answer::Landed(t.by(), t.spot(), t.thread.item))
}

// P5: asks for the cell.
#[tactic(auto, unfolding(rules::specs::Table::row_p5))]
fn p5(t: &mut Turn) -> Answer
    requires { 0 < t.old.ring.cells }
    ensures { (m : List ℕ) → leaves (moved t.new.ring t.new.thread result) m ≡ row_p5 t.old.ring t.old.who t.old.thread m }
{
    t.thread.awaited = Line::Cell(t.spot());
    t.to(P6, Answer::Asked(t.by()))
}

// P6: waits, then OK.
#[tactic(auto, unfolding(rules::specs::Table::row_p6))]
fn p6(t: &mut Turn) -> Answer
    ensures { (m : List ℕ) → leaves (moved t.new.ring t.new.thread result) m ≡ row_p6 t.old.ring t.old.who t.old.thread m }
{
    t.wait(Answer::Ok(t.by(), t.thread.item))
}

// P7: asks for the Tail line.
#[tactic(auto, unfolding(rules::specs::Table::row_p7))]
fn p7(t: &mut Turn) -> Answer
    ensures { (m : List ℕ) → leaves (moved t.new.ring t.new.thread result) m ≡ row_p7 t.old.ring t.old.who t.old.thread m }
{
    t.thread.awaited = Line::Tail;
    t.to(P10, Answer::Asked(t.by()))
}

// P8: tries again, or gives up.
#[tactic(auto, unfolding(rules::specs::Table::row_p8))]
fn p8(t: &mut Turn) -> Answer
    requires { SoundRing t.old.ring × (t.old.thread.tries < t.old.ring.tries) }
    ensures { (m : List ℕ) → leaves (moved t.new.ring t.new.thread result) m ≡ row_p8 t.old.ring t.old.who t.old.thread m }
{
    let g = t.ring;
    let saw = Answer::SawHead(t.by(), g.head);
    t.thread.tries += 1;
    if g.head + g.cells <= t.thread.number || t.thread.tries == g.tries {
        t.thread.tries = g.tries - 1;
        return t.to(P9, saw);
    }
    t.to(P1, saw)
}

// P9: sets closed.
#[tactic(auto, unfolding(rules::specs::Table::row_p9))]
fn p9(t: &mut Turn, m: &mut [u32]) -> Answer
    requires { Ready t.old.ring t.old.who t.old.thread m.old }
    ensures { leaves (moved t.new.ring t.new.thread result) m.new ≡ row_p9 t.old.ring t.old.who t.old.thread m.old }
{
    t.shape().set_closed(m, 1);
    t.to(P7, Answer::SetClosed(t.by()))
}

// P10: waits, then CLOSED.
#[tactic(auto, unfolding(rules::specs::Table::row_p10))]
fn p10(t: &mut Turn) -> Answer
    ensures { (m : List ℕ) → leaves (moved t.new.ring t.new.thread result) m ≡ row_p10 t.old.ring t.old.who t.old.thread m }
{
    t.wait(Answer::Closed(t.by()))
}

// The row of a put place: the put part of document 01's one match.
#[tactic(auto, unfolding(rules::specs::Table::put_row))]
pub fn put_row(t: &mut Turn, m: &mut [u32]) -> Answer
    requires { Ready t.old.ring t.old.who t.old.thread m.old }
    ensures { leaves (moved t.new.ring t.new.thread result) m.new ≡ put_row t.old.ring t.old.who t.old.thread m.old }
{
    match t.thread.place {
        P1 => p1(t, m),
        P2 => p2(t, m),
        P3 => p3(t),
        P4 => p4(t, m),
        P5 => p5(t),
        P6 => p6(t),
        P7 => p7(t),
        P8 => p8(t),
        P9 => p9(t, m),
        _ => p10(t),
    }
}
