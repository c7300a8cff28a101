// ringrun: standard input, a block at a time, through the bench to standard output. A read or a write that fails ends it with the error.
#![tactic(auto)]

ghost use Rattle.std.specs.Prelude.{◌≤◌, length};

use bench::{Bench, Carry, Phase};
use std::io;
use std::io::Read;

// A block is fed, and its output written as often as the buffer is full. All is lent one by one, as `feed` takes it.
fn pour(
    rt: &impl Print,
    mut bench: Bench,
    carry: &mut Carry,
    running: &mut [u32],
    kept: &mut [u32],
    block: &[u8],
    out: &mut [u8],
) -> io::Result<Bench>
    requires { 2048 ≤ length out.old }
{
    let mut next = 0;
    // A while, since a turn goes on where the one before it stopped, which no range gives.
    while next < block.len() {
        let fed = bench::feed(bench, carry, running, kept, block, next, out, 0);
        rt.write_all(&out[..fed.at])?;
        bench = fed.bench;
        next = fed.next;
    }
    Ok(bench)
}

fn main(rt: HostRuntime) -> io::Result<()> {
    let mut carry = Carry::empty();
    let mut running = [0u32; 266];
    let mut kept = [0u32; 266];
    let mut block = [0u8; 65536];
    let mut out = [0u8; 524288];
    let mut input = rt.stdin();
    let mut bench = Bench::fresh();
    // A loop has to be seen to end, so its turns are counted.
    for _ in 0..u64::MAX {
        let n = input.read(&mut block)?;
        bench = pour(
            &rt,
            bench,
            &mut carry,
            &mut running,
            &mut kept,
            &block[..n],
            &mut out,
        )?;
        // The input is over, or a refused first line ends the reading.
        if n == 0 || bench.phase == Phase::Ended {
            break;
        }
    }
    let end = bench::finish(
        bench,
        &carry.bytes,
        carry.len,
        &mut running,
        &mut kept,
        &mut out,
        0,
    );
    rt.write_all(&out[..end.at])
}
