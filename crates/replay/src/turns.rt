// The lines of the input, each answered on the lent station: the eight places. A call goes to the place that it names.
ghost use Rattle.std.specs.Prelude.{◌≡◌};
ghost use Rattle.text.specs.Put.{put};
ghost use Rattle.station.specs.lent.Lent.{station_of};
ghost use Rattle.replay.specs.Events as spec;
ghost use Rattle.replay.specs.Turns as turn;

use crate::limits::{BUFFER, ROOM};
use crate::others::take_other;
use answers::looks::put_looked;
use answers::said::{put_said, put_told};
use motor::motor::Motor;
use session::event::{Event, Line};
use session::line::{read_line, shown};
use station::call::{Answer, Asked, Call, Replied, time_of};
use station::lent::call::call;
use station::lent::look::look;
use station::limits::MOTORS;
use text::{Text, position_of};

// What is left of the bytes from a place on: half a line, which no LF ends, or lines, for whose answers there is no room.
#[derive(Clone, Copy)]
pub enum Left {
    Half(usize),
    Lines(usize),
}

// What a line says, which may end with a CR.
#[tactic(auto, unfolding(crate::specs::Events::line_says))]
fn line_says(line: &[u8]) -> Line
    ensures { result ≡ spec.line_says line.now }
{
    read_line(&line[..shown(line)])
}

// A call's reply; of a look what it shows is put_looked's.
#[tactic(auto, using(text::proofs::Putting::puts_joined), unfolding(crate::specs::Events::replied_text))]
fn put_replied<const N: usize>(replied: Replied, time: u64, out: &mut Text<N>)
    ensures { out.new ≡ put out.old (spec.replied_text replied time) }
{
    match replied.answer {
        Answer::Told(said) | Answer::Looked(said) => put_told(said, out),
        Answer::Moved(said) => put_said(said, replied.frame, replied.result, time, out),
    }
}

// A line without its LF, answered on the lent station: the places at exit and the text are those of the by-value calls.
fn take_line<const N: usize>(motors: &mut [Motor; MOTORS], line: &[u8], out: &mut Text<N>)
    ensures { (station_of motors.new ≡ spec.station_after_line (station_of motors.old) line.now) × (out.new ≡ put out.old (spec.text_after_line (station_of motors.old) line.now)) }
{
    let says = line_says(line);
    match says.event {
        Event::Call(asked) => match asked {
            Call::Look { id } => put_looked(look(motors, id), out),
            _ => {
                let frame = says.frame;
                let replied = call(motors, Asked { call: asked, frame });
                put_replied(replied, time_of(asked), out);
            }
        },
        Event::Other(other) => take_other(motors, other, out),
    }
}

// The lines that end among the bytes, as long as there is room for an answer. Their text is all that stands in the buffer.
pub(crate) fn take_lines(motors: &mut [Motor; MOTORS], inp: &[u8], out: &mut Text<BUFFER>) -> Left
    ensures { turn.LinesTaken (station_of motors.old) inp.now (station_of motors.new) result out.new }
{
    out.at = 0;
    let mut from: usize = 0;
    while let Some(end) = position_of(&inp[from..], b'\n') {
        if ROOM < out.at {
            return Left::Lines(from);
        }
        take_line(motors, &inp[from..from + end], out);
        from += end + 1;
    }
    Left::Half(from)
}
