// The cell reader.
ghost use Rattle.std.specs.Prelude.{◌≡◌, ◌+◌, ◌*◌, cond, []};
ghost use Rattle.rules.specs.Memory.{cell_from, cell_numbers};
ghost use Rattle.rules.specs.Reader.{readable, cell_part, part_from};

use rules::Control;

// R is in range, the cell is one of R, and the image has them all.
#[tactic(auto, unfolding(rules::specs::Reader::readable))]
fn is_readable(cells: u32, cell: u32, m: &[u32]) -> bool
    ensures { result ≡ readable cells cell m.now }
{
    (1..=Control::MAX_CELLS).contains(&cells) && cell < cells && 4 * (cells as usize) <= m.len()
}

// The cell's four numbers as part of the image, or a part of length 0.
#[tactic(auto, using(crate::proofs::Laws::part_fits), unfolding(rules::specs::Memory::cell_numbers))]
fn part_of<'a>(cells: u32, cell: u32, m: &'a [u32]) -> &'a [u32]
    ensures numbers { result.now ≡ cond (readable cells cell m.now) (cell_numbers cells m.now cell) [] }
    ensures block { result.ref_ptr.0 ≡ m.entry.ref_ptr.0 }
    ensures place { result.ref_ptr.1 ≡ m.entry.ref_ptr.1 + cond (readable cells cell m.now) (4 * cell_from cell) 0 }
{
    if is_readable(cells, cell, m) {
        let a = 4 * (cell as usize);
        &m[a..a + 4]
    } else {
        &m[..0]
    }
}

// The part of the image that is told: the kept one, or the running one. Document 01 has a flag name it.
#[tactic(auto, unfolding(rules::specs::Reader::cell_part, rules::specs::Reader::part_from))]
pub fn read<'a>(
    which: bool,
    cells: u32,
    cell: u32,
    running: &'a [u32],
    kept: &'a [u32],
) -> &'a [u32]
    ensures numbers { result.now ≡ cell_part which cells cell running.now kept.now }
    ensures block { result.ref_ptr.0 ≡ cond which kept.entry.ref_ptr.0 running.entry.ref_ptr.0 }
    ensures place { result.ref_ptr.1 ≡ cond which kept.entry.ref_ptr.1 running.entry.ref_ptr.1 + part_from which cells cell running.now kept.now }
{
    if which {
        part_of(cells, cell, kept)
    } else {
        part_of(cells, cell, running)
    }
}
