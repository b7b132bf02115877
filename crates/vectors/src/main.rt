// Vectors of the codec: reads request lines, and writes each with its answer.
#![tactic(auto)]

mod answers;
mod fields;
mod lines;
mod motion;
mod replies;
mod requests;

use std::io;

fn main(rt: HostRuntime) -> io::Result<()> {
    lines::run(&mut rt.stdin(), &mut rt.stdout())
}
