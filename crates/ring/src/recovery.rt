// What a cut reads from the kept image, and what it leaves there.
// That indexes fit stays a clause, and the mark a number beside the image: a struct of the three would be no shorter, and both belong to one call.
ghost use Rattle.std.specs.Prelude.{◌≡◌, ◌≤◌, ◌+◌, ◌*◌, length, take};
ghost use Rattle.std.specs.List.{All};
ghost use Rattle.rules.specs.Upto.{max_to};
ghost use Rattle.rules.specs.Memory.{size, cell_at, cells_in, copy_at};
ghost use Rattle.rules.specs.Cut.{pass_mark, queued, tail_of, head_to, count_of, finds, mended, recovered};
ghost use Rattle.ring.specs.Cells.{IndexFits, IndexesFit};

use crate::memory::Shape;
use rules::{Cell, Found};

// The largest mark.
fn top_mark(s: Shape, m: &[u32]) -> u32
    requires { 4 * s.cells ≤ length m.now }
    ensures { result ≡ max_to (λ j. (cell_at s.cells m.now j).mark) s.cells }
{
    s.all_cells(m).fold(0, |top, c| top.max(c.mark))
}

// The largest copy.
#[tactic(auto, using(crate::proofs::Images::top_copy_is))]
fn top_copy(s: Shape, m: &[u32]) -> u32
    requires { 4 * s.cells + s.threads ≤ length m.now }
    ensures { result ≡ max_to (copy_at s.cells m.now) s.threads }
{
    s.copies(m).iter().copied().fold(0, u32::max)
}

// The largest of all marks and copies.
#[tactic(auto, unfolding(rules::specs::Cut::pass_mark))]
pub fn pass_mark(s: Shape, m: &[u32]) -> u32
    requires { size s.cells s.threads ≤ length m.now }
    ensures { result ≡ pass_mark s.cells s.threads m.now }
{
    top_mark(s, m).max(top_copy(s, m))
}

// An occupied cell with index ≥ pass mark.
#[tactic(auto, unfolding(rules::specs::Cut::queued))]
pub fn is_queued(mark: u32, c: Cell) -> bool
    ensures { result ≡ queued mark c }
{
    c.item != 0 && mark <= c.index
}

// The largest queued index + 1, or the pass mark.
fn tail_of(s: Shape, mark: u32, m: &[u32]) -> u32
    requires { (4 * s.cells ≤ length m.now) × All IndexFits (cells_in (take (4 * s.cells) m.now)) }
    ensures { result ≡ tail_of s.cells mark m.now }
{
    s.all_cells(m)
        .filter_map(|c| is_queued(mark, c).then(|| c.index + 1))
        .fold(mark, u32::max)
}

// The smallest queued index, or Tail.
fn head_of(s: Shape, mark: u32, tail: u32, m: &[u32]) -> u32
    requires { 4 * s.cells ≤ length m.now }
    ensures { result ≡ head_to s.cells mark tail m.now s.cells }
{
    s.all_cells(m)
        .filter(|c| is_queued(mark, *c))
        .fold(tail, |head, c| head.min(c.index))
}

// How many cells are queued.
#[tactic(auto, using(crate::proofs::Images::few_cells))]
fn count_of(s: Shape, mark: u32, m: &[u32]) -> u32
    requires { 4 * s.cells ≤ length m.now }
    ensures { result ≡ count_of s.cells mark m.now }
{
    s.all_cells(m).filter(|c| is_queued(mark, *c)).count() as u32
}

// What a cut of the kept image finds.
#[tactic(auto, using(crate::proofs::Images::low_cells), unfolding(rules::specs::Cut::finds, rules::specs::Cut::head_of))]
fn find(s: Shape, m: &[u32]) -> Found
    requires { (size s.cells s.threads ≤ length m.now) × IndexesFit s.cells m.now }
    ensures { result ≡ finds s.cells s.threads m.now }
{
    let mark = pass_mark(s, m);
    let tail = tail_of(s, mark, m);
    let head = head_of(s, mark, tail, m);
    Found {
        mark,
        head,
        tail,
        closed: s.closed(m),
        count: count_of(s, mark, m),
    }
}

// A cell as recovery leaves it.
#[tactic(auto, unfolding(rules::specs::Cut::mended))]
fn mend(s: Shape, mark: u32, head: u32, c: Cell) -> Cell
    requires { IndexFits c }
    ensures { result ≡ mended s.cells mark head c }
{
    if c.item != 0 && c.index < mark {
        Cell {
            safe: 1,
            index: c.index + s.cells,
            item: 0,
            mark: head,
        }
    } else {
        Cell {
            safe: 1,
            mark: head,
            ..c
        }
    }
}

// The kept image becomes the recovered one.
#[tactic(auto, unfolding(rules::specs::Cut::finds, rules::specs::Cut::recovered))]
pub fn recover(s: Shape, m: &mut [u32]) -> Found
    requires { (size s.cells s.threads ≤ length m.old) × IndexesFit s.cells m.old }
    ensures found { result ≡ finds s.cells s.threads m.old }
    ensures image { m.new ≡ recovered s.cells s.threads m.old }
{
    let f = find(s, m);
    s.map_cells(m, |_, c| mend(s, f.mark, f.head, c));
    s.set_copies(m, f.head);
    s.set_tail(m, f.tail);
    f
}
