// What a line of a session says.
ghost use Rattle.std.specs.Prelude.{◌≡◌};
ghost use Rattle.session.specs.Events as spec;

use codec::bus::CanFrame;
use motor::engine::requests::no_frame;
use station::call::Call;

// Why a line isn't an event. Words are counted from 1; a letter says what a word is to be (see arguments).
#[derive(Clone, Copy)]
pub enum Reason {
    LineTooLong,
    NoSuchEvent,
    NoSuchCommand,
    WordCount(usize),
    BadWord(usize, u8),
    LogWords,
    Stamp,
    Direction,
    FrameId,
    FrameData,
    RemoteFrame,
    FdFrame,
    ErrorFrame,
    TornLine,
}

// What a line says besides calls: nothing, which is a blank line or a comment; no event; a fresh station.
#[derive(Clone, Copy)]
pub enum Other {
    Nothing,
    Error(Reason),
    Fresh,
}

// A call on the station, or what a line says besides.
#[derive(Clone, Copy)]
pub enum Event {
    Call(Call),
    Other(Other),
}

// What a line says, and beside it the frame that is handed in; elsewhere the frame isn't looked at.
#[derive(Clone, Copy)]
pub struct Line {
    pub event: Event,
    pub frame: CanFrame,
}

// An event with no frame beside it.
pub(crate) fn bare(event: Event) -> Line
    ensures { result ≡ spec.bare event }
{
    Line {
        event,
        frame: no_frame(),
    }
}

// A line that is no event.
pub(crate) fn bad(reason: Reason) -> Line
    ensures { result ≡ spec.bad reason }
{
    bare(Event::Other(Other::Error(reason)))
}

// A frame is handed in.
pub(crate) fn hands(frame: CanFrame, time: u64) -> Line
    ensures { result ≡ spec.hands frame time }
{
    Line {
        event: Event::Call(Call::Frame { time }),
        frame,
    }
}
