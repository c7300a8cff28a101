// The numbers of an image, where they stand.
ghost use Rattle.std.specs.Prelude.{◌≡◌, ℕ, ◌+◌, ◌*◌, ◌<◌, ◌≤◌, length, take, drop};
ghost use Rattle.std.specs.Iterator.{YieldsFirst, item_count};
ghost use Rattle.rules.specs.Numbers.{max_cells, max_threads};
ghost use Rattle.rules.specs.Facts.{SoundRing};
ghost use Rattle.rules.specs.Memory.{cell_at, cells_in, set_cell, copy_at, set_copy, closed_at, set_closed, tail_at, set_tail, size, cells_to, copies_to, over_to};

use rules::{Cell, Ring};

// The cells that stand in a run of numbers, in order.
#[derive(Drop)]
pub struct Cells<'a> {
    numbers: &'a [u32],
}

impl Iterator for Cells<'_> {
    type Item = Cell;

    ghost next_gives = { YieldsFirst (λ s. cells_in s.numbers.now) };

    ghost remaining = { item_count (λ s. cells_in s.numbers.now) };

    #[tactic(auto, unfolding(rules::specs::Memory::cells_in))]
    fn next(&mut self) -> Option<Cell> {
        let [safe, index, item, mark, rest @ ..] = self.numbers else {
            return None;
        };
        self.numbers = rest;
        Some(Cell {
            safe: *safe,
            index: *index,
            item: *item,
            mark: *mark,
        })
    }
}

// How many cells and threads an image has, of which its numbers' places follow. The image stays a slice beside it, and its length a fact of the clauses: in a struct with a
// reference inside, each clause would say `self.entry.shape.cells` and `self.entry.numbers.now`. Closed and Tail have methods of their own: one with an offset would be no shorter.
#[derive(Clone, Copy)]
pub struct Shape {
    pub cells: u32,
    pub threads: u32,
    ghost few_cells: { cells ≤ max_cells },
    ghost few_threads: { threads ≤ max_threads },
}

impl Shape {
    // The shape of a sound ring's images.
    pub fn of(g: Ring) -> Shape
        requires { SoundRing g }
        ensures { (result.cells ≡ g.cells) × (result.threads ≡ g.threads) }
    {
        Shape {
            cells: g.cells,
            threads: g.threads,
        }
    }

    // Where the copies begin.
    fn copies_at(self) -> usize
        ensures { result ≡ 4 * self.cells }
    {
        4 * (self.cells as usize)
    }

    // Where closed stands, with Tail after it.
    fn closed_at(self) -> usize
        ensures { result ≡ 4 * self.cells + self.threads }
    {
        self.copies_at() + (self.threads as usize)
    }

    // How many numbers the image has.
    pub fn size(self) -> usize
        ensures { result ≡ size self.cells self.threads }
    {
        self.closed_at() + 2
    }

    // Cell j, field by field, as the next one: by way of an array they would be no plainer.
    #[tactic(auto, unfolding(rules::specs::Memory::cell_at))]
    pub fn cell(self, m: &[u32], j: u32) -> Cell
        requires { (j < self.cells) × (4 * self.cells ≤ length m.now) }
        ensures { result ≡ cell_at self.cells m.now j }
    {
        let a = 4 * (j as usize);
        Cell {
            safe: m[a],
            index: m[a + 1],
            item: m[a + 2],
            mark: m[a + 3],
        }
    }

    // Cell j becomes c.
    #[tactic(auto, unfolding(rules::specs::Memory::set_cell))]
    pub fn set_cell(self, m: &mut [u32], j: u32, c: Cell)
        requires { (j < self.cells) × (4 * self.cells ≤ length m.old) }
        ensures { m.new ≡ set_cell self.cells m.old j c }
    {
        let a = 4 * (j as usize);
        m[a] = c.safe;
        m[a + 1] = c.index;
        m[a + 2] = c.item;
        m[a + 3] = c.mark;
    }

    // All cells, in order.
    pub fn all_cells(self, m: &[u32]) -> Cells<'_>
        requires { 4 * self.cells ≤ length m.now }
        ensures { result.numbers.now ≡ take (4 * self.cells) m.now }
    {
        Cells {
            numbers: &m[..self.copies_at()],
        }
    }

    // Each cell becomes what f makes of its place and what it was, by any function g that gives each result that f may give.
    // By places: tried, and m lent out by chunks_exact_mut or as_chunks_mut comes back with none of its numbers known, so the `ensures` stays open.
    pub fn map_cells<F: Fn(u32, Cell) -> Cell>(self, m: &mut [u32], f: F)
        requires fits { 4 * self.cells ≤ length m.old }
        requires takes { (j : ℕ) → j < self.cells → F.pre f j (cell_at self.cells m.old j) }
        ensures { (g : _) → ((j : ℕ) (d : _) → j < self.cells → F.post f j (cell_at self.cells m.old j) d → d ≡ g j (cell_at self.cells m.old j)) → m.new ≡ cells_to self.cells g m.old self.cells }
    {
        for j in 0..self.cells {
            let c = self.cell(m, j);
            self.set_cell(m, j, f(j, c));
        }
    }

    // Thread t's local copy of Head.
    #[tactic(auto, unfolding(rules::specs::Memory::copy_at))]
    pub fn copy(self, m: &[u32], t: u32) -> u32
        requires { 4 * self.cells + t < length m.now }
        ensures { result ≡ copy_at self.cells m.now t }
    {
        m[self.copies_at() + (t as usize)]
    }

    // Thread t's local copy becomes v.
    #[tactic(auto, unfolding(rules::specs::Memory::set_copy))]
    pub fn set_copy(self, m: &mut [u32], t: u32, v: u32)
        requires { 4 * self.cells + t < length m.old }
        ensures { m.new ≡ set_copy self.cells m.old t v }
    {
        m[self.copies_at() + (t as usize)] = v;
    }

    // All copies, in order.
    pub fn copies(self, m: &[u32]) -> &[u32]
        requires { 4 * self.cells + self.threads ≤ length m.now }
        ensures { result.now ≡ take self.threads (drop (4 * self.cells) m.now) }
    {
        &m[self.copies_at()..self.closed_at()]
    }

    // Every copy becomes v.
    pub fn set_copies(self, m: &mut [u32], v: u32)
        requires { 4 * self.cells + self.threads ≤ length m.old }
        ensures { m.new ≡ copies_to self.cells v m.old self.threads }
    {
        m[self.copies_at()..self.closed_at()].fill(v);
    }

    // Closed.
    #[tactic(auto, unfolding(rules::specs::Memory::closed_at))]
    pub fn closed(self, m: &[u32]) -> u32
        requires { size self.cells self.threads ≤ length m.now }
        ensures { result ≡ closed_at self.cells self.threads m.now }
    {
        m[self.closed_at()]
    }

    // Closed becomes v.
    #[tactic(auto, unfolding(rules::specs::Memory::set_closed))]
    pub fn set_closed(self, m: &mut [u32], v: u32)
        requires { size self.cells self.threads ≤ length m.old }
        ensures { m.new ≡ set_closed self.cells self.threads m.old v }
    {
        m[self.closed_at()] = v;
    }

    // Tail.
    #[tactic(auto, unfolding(rules::specs::Memory::tail_at))]
    pub fn tail(self, m: &[u32]) -> u32
        requires { size self.cells self.threads ≤ length m.now }
        ensures { result ≡ tail_at self.cells self.threads m.now }
    {
        m[self.closed_at() + 1]
    }

    // Tail becomes v.
    #[tactic(auto, unfolding(rules::specs::Memory::set_tail))]
    pub fn set_tail(self, m: &mut [u32], v: u32)
        requires { size self.cells self.threads ≤ length m.old }
        ensures { m.new ≡ set_tail self.cells self.threads m.old v }
    {
        m[self.closed_at() + 1] = v;
    }
}

// The first k numbers of m over those of r. k stands beside them: `over_to` speaks of a count.
#[tactic(auto, using(crate::proofs::Images::over_front))]
pub fn over(m: &[u32], r: &mut [u32], k: usize)
    requires { (k ≤ length m.now) × (k ≤ length r.old) }
    ensures { r.new ≡ over_to m.now r.old k }
{
    r[..k].copy_from_slice(&m[..k]);
}
