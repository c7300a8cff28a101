// A million events over a ring of 64 cells and 8 threads, one by one or in blocks, as the first byte of standard input says (1: one by one).
// speed/run times it: the difference is what it costs to take any memory at each event. A read or a write that fails ends it with the error.
#![tactic(auto)]

use rules::Control;
use std::io;
use std::io::Read;

// A put by thread 0 that lands and is confirmed, and a take by thread 0 that hands it out: 15 events, three numbers each. The sixth writes a cell back.
const ROUND: [u32; 45] = [
    1, 0, 7, 3, 0, 0, 3, 0, 0, 3, 0, 0, 3, 0, 0, 4, 0, 0, 3, 0, 0, //
    2, 0, 0, 3, 0, 0, 3, 0, 0, 3, 0, 0, 3, 0, 0, 3, 0, 0, 5, 0, 0, 3, 0, 0,
];

// Where the number of the cell written back stands.
const CELL: usize = 16;

// Seventeen rounds from a cell on: a block of 255 events.
fn fill(events: &mut [u32; 765], from: u32) {
    for (i, round) in events.chunks_exact_mut(45).enumerate() {
        round.copy_from_slice(&ROUND);
        round[CELL] = (from % 64 + i as u32) % 64;
    }
}

// A block's events one by one.
fn one_by_one(mut c: Control, running: &mut [u32], kept: &mut [u32], events: &[u32]) -> Control {
    let (threes, _) = events.as_chunks::<3>();
    for [kind, place, item] in threes {
        c = ring::event(c, running, kept, wire::event_of(*kind, *place, *item)).control;
    }
    c
}

// A block's events at once.
fn in_a_block(c: Control, running: &mut [u32], kept: &mut [u32], events: &[u32]) -> Control {
    let mut room = [0u32; 1530];
    ring::run(c, running, kept, events, &mut room).control
}

// All blocks, each run by what is passed: how many events were accepted. A block's number gives the cell that it begins at.
fn run<F: Fn(Control, &mut [u32], &mut [u32], &[u32]) -> Control>(
    block: F,
    running: &mut [u32],
    kept: &mut [u32],
) -> u32
    requires { F.IsAlwaysCallable block }
{
    let mut events = [0u32; 765];
    let mut c = ring::setup(64, 8, 255, running, kept).control;
    for b in 0..3921u32 {
        fill(&mut events, b * 17);
        c = block(c, running, kept, &events);
    }
    c.ring.events
}

fn main(rt: HostRuntime) -> io::Result<()> {
    let mut running = [0u32; 266];
    let mut kept = [0u32; 266];
    let mut input = [0u8; 1];
    rt.stdin().read(&mut input)?;
    let events = if input[0] == b'1' {
        run(one_by_one, &mut running, &mut kept)
    } else {
        run(in_a_block, &mut running, &mut kept)
    };
    if events == 999855 {
        rt.write_all(b"all\n")
    } else {
        rt.write_all(b"not all\n")
    }
}
