// A lent image made fresh.
ghost use Rattle.std.specs.Prelude.{◌≡◌, ◌≤◌, length};
ghost use Rattle.rules.specs.Memory.{size, fresh_image};

use crate::memory::Shape;
use rules::Cell;

// The whole image is fresh: cell j is (1, j, 0, 0), all else 0.
#[tactic(auto, unfolding(rules::specs::Memory::fresh_image))]
pub fn image(s: Shape, m: &mut [u32])
    requires { size s.cells s.threads ≤ length m.old }
    ensures { m.new ≡ fresh_image s.cells s.threads m.old }
{
    let fresh = |j, _| Cell {
        safe: 1,
        index: j,
        ..Cell::default()
    };
    s.map_cells(m, fresh);
    s.set_copies(m, 0);
    s.set_closed(m, 0);
    s.set_tail(m, 0);
}
