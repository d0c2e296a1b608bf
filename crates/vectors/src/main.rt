// Replays the stored calls that standard input has over the fourteen entries, and tells where
// they give or leave something else than the original.
#![tactic(auto)]

use input::take_text;
use std::io;

mod counted;
mod digits;
mod input;
mod scene;
mod state;
mod statement;

fn main(rt: HostRuntime) -> io::Result<()> {
    println!(rt; "the original's answers, replayed over the proved entries")?;
    let tally = take_text(&rt)?.tally;
    println!(rt; "{tally}")
}
