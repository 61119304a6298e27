// Drives a writing and a reading end over small rings, through many random events, and checks demand 3 on real bytes.
#![tactic(auto)]

mod calls;
mod copy;
mod events;
mod memory;
mod notes;
mod numbers;
mod report;
mod wanted;
mod world;

use report::Report;
use std::io;
use world::World;

// In each run.
const EVENTS: u64 = 4000;

// Over rings of 1 to 9 bytes, from every counter that a ring has.
fn main(rt: HostRuntime) -> io::Result<()> {
    let mut report = Report::default();
    for len in 1..10 {
        for start in 0..2 * len {
            let world = World::new(report, len, start);
            report = run(world, numbers::seed(len, start)).ended();
        }
    }
    print!(rt; "{report}")
}

fn run(mut world: World, seed: u64) -> World {
    let mut random = seed;
    for _ in 0..EVENTS {
        random = numbers::random(random);
        world = events::happened(world, random).checked();
    }
    world
}
