// Numbers in bytes, low byte first.
// By places: tried, and m by iter_mut in a zip, or b lent out by chunks_exact_mut or as_chunks_mut, comes back with none of its numbers known, so the `ensures` stays open.
// Reading by as_chunks needs a law of its own, and with it the loop's invariant did not close either.
ghost use Rattle.std.specs.Prelude.{◌≡◌, ◌+◌, ◌*◌, ◌≤◌, ◌<◌, length};
ghost use Rattle.host.specs.Bytes.{number_at, set_number, numbers_to, bytes_to};

// Number j of the bytes.
#[tactic(auto, unfolding(crate::specs::Bytes::number_at))]
fn read_number(b: &[u8], j: usize) -> u32
    requires { (j < 266) × (4 * j + 4 ≤ length b.now) }
    ensures { result ≡ number_at b.now j }
{
    let at = 4 * j;
    u32::from_le_bytes([b[at], b[at + 1], b[at + 2], b[at + 3]])
}

// Number j of the bytes becomes x.
#[tactic(auto, unfolding(crate::specs::Bytes::set_number))]
fn write_number(b: &mut [u8], j: usize, x: u32)
    requires { (j < 266) × (4 * j + 4 ≤ length b.old) }
    ensures { b.new ≡ set_number b.old j x }
{
    let at = 4 * j;
    let [first, second, third, fourth] = x.to_le_bytes();
    b[at] = first;
    b[at + 1] = second;
    b[at + 2] = third;
    b[at + 3] = fourth;
}

// The numbers in front of the bytes, as many as m has.
pub fn read_numbers(b: &[u8], m: &mut [u32])
    requires { (length m.old ≤ 266) × (4 * length m.old ≤ length b.now) }
    ensures { m.new ≡ numbers_to b.now (length m.old) }
{
    for (j, x) in m.iter_mut().enumerate() {
        *x = read_number(b, j);
    }
}

// The numbers of m, in front of the bytes.
pub fn write_numbers(m: &[u32], b: &mut [u8])
    requires { (length m.now ≤ 266) × (4 * length m.now ≤ length b.old) }
    ensures { b.new ≡ bytes_to m.now b.old (length m.now) }
{
    for (j, x) in m.iter().enumerate() {
        write_number(b, j, *x);
    }
}
