// What is asked of a station, and what it answers.
ghost use Rattle.std.specs.Prelude.{◌≡◌};
ghost use Rattle.station.specs.Calls as spec;

use codec::bus::CanFrame;
use codec::error::Refusal;
use codec::model::Model;
use motor::engine::command::{Command, Said};
use motor::engine::requests::no_frame;

// The six calls.
#[derive(Clone, Copy)]
pub enum Call {
    Register {
        id: u16,
        host: u16,
        model: Option<Model>,
        wait: u64,
        time: u64,
    },
    Start {
        id: u16,
        command: Command,
        time: u64,
    },
    Step {
        id: u16,
        time: u64,
    },
    Frame {
        time: u64,
    },
    Look {
        id: u16,
    },
    Remove {
        id: u16,
        time: u64,
    },
}

// A call, and beside it the frame that is handed in; elsewhere the frame isn't looked at.
#[derive(Clone, Copy)]
pub struct Asked {
    pub call: Call,
    pub frame: CanFrame,
}

// What is answered: to a registration, a frame or a removal; to a start or a step; to a look, which shows all held beside it.
#[derive(Clone, Copy)]
pub enum Answer {
    Told(Result<(), Refusal>),
    Moved(Said),
    Looked(Result<(), Refusal>),
}

// An answer, with a start's or a step's frame and result bytes.
#[derive(Clone, Copy)]
pub struct Replied {
    pub answer: Answer,
    pub frame: CanFrame,
    pub result: [u8; 8],
}

// An answer without frame and result.
pub(crate) fn reply(answer: Answer) -> Replied
    ensures { result ≡ spec.reply answer }
{
    Replied {
        answer,
        frame: no_frame(),
        result: [0; 8],
    }
}

pub(crate) fn told(said: Result<(), Refusal>) -> Replied
    ensures { result ≡ spec.told said }
{
    reply(Answer::Told(said))
}

// What a start or a step says, with its frame and its result bytes.
pub(crate) fn moved(said: Said, frame: CanFrame, res: [u8; 8]) -> Replied
    ensures { result ≡ spec.moved said frame res }
{
    let answer = Answer::Moved(said);
    Replied {
        answer,
        frame,
        result: res,
    }
}

// The call's time; a look has none.
#[tactic(auto, unfolding(crate::specs::Calls::time_of))]
pub fn time_of(call: Call) -> u64
    ensures { result ≡ spec.time_of call }
{
    match call {
        Call::Register { time, .. }
        | Call::Start { time, .. }
        | Call::Step { time, .. }
        | Call::Frame { time }
        | Call::Remove { time, .. } => time,
        Call::Look { .. } => 0,
    }
}
