// Replay: reads a recorded session, hands each event to a station, and writes what the station answers.
#![tactic(auto)]

mod errors;
mod limits;
mod lines;
mod others;
mod turns;

use limits::BUFFER;
use lines::Streams;
use text::Text;

fn main(rt: HostRuntime) {
    let mut inp = [0u8; BUFFER];
    let mut out = Text::<BUFFER>::new();
    let streams = Streams {
        stdin: rt.stdin(),
        stdout: rt.stdout(),
        stderr: rt.stderr(),
    };
    if let Err(failure) = lines::run(&mut inp, &mut out, streams) {
        lines::complain(failure, streams);
    }
}
