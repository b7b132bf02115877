// What an operation does next, and what follows each end of a wait. An operation is a walk over these: `operations` says which
// node follows which, `engine` what a node does.
use crate::engine::candidates::Hosts;
use crate::engine::command::Outcome;
use codec::error::Refusal;
use codec::protocol::ParameterValue;
use codec::registers::ControlMode;
use codec::word::Word;

// What ensure_control_mode is about: the mode, the read's timeout, the attempts left, and the last value read after a mode
// write.
#[derive(Clone, Copy)]
pub struct Aim {
    pub mode: ControlMode,
    pub timeout: u64,
    pub left: u8,
    pub actual: Option<i8>,
}

// Where ensure_control_mode stands: the motor off, before an attempt, the mode written, before reading it back.
#[derive(Clone, Copy)]
pub enum Ensure {
    Off,
    Try,
    Written,
    Back,
}

// What follows an acknowledgement, or a pause.
#[derive(Clone, Copy)]
pub enum Acked {
    Done,
    FaultCleared,
    ZeroState,
    Stopped(ControlMode),
    CspEnable(Word, Word),
    CspLimit(Word, Word),
    PpEnable(Word, Word, Word),
    PpVelocity(Word, Word, Word),
    PpAcceleration(Word, Word),
    Target(Word),
    Ensure(Ensure, Aim),
}

// What follows a value.
#[derive(Clone, Copy)]
pub enum Got {
    Value,
    Flag,
    F32,
    I8,
    Mode,
    StopMode(u64),
    StopCsp,
    StopMit,
    EnsureFirst(Aim),
    EnsureBack(Aim),
}

// What follows a ping reply.
#[derive(Clone, Copy)]
pub enum Pinged {
    Report,
    Rename(u8),
}

// What a frame asks.
#[derive(Clone, Copy)]
pub enum Request {
    Ping,
    Enable,
    Disable,
    ClearError,
    SetZeroPosition,
    Read(u16),
    Write(u16, u32),
    SaveParameters,
    ActiveReport(bool),
    SetProtocol(u8),
    Version,
}

// What acknowledges: a rise of the feedback sequence, or of the response count.
#[derive(Clone, Copy)]
pub enum Acknowledgement {
    Status,
    Response,
}

// What is waited for after a request, and what follows.
#[derive(Clone, Copy)]
pub enum Wait {
    Acknowledged(Acknowledgement, Request, Acked),
    Value(u16, Got),
    Ping(Pinged),
    Version,
}

// What a motion command aims at.
#[derive(Clone, Copy)]
pub struct Targets {
    pub position: Word,
    pub velocity: Word,
    pub kp: Word,
    pub kd: Word,
    pub torque: Word,
}

// What an operation does next.
#[derive(Clone, Copy)]
pub enum Node {
    Finish(Outcome),
    Report,
    ClearFault,
    Fail(Refusal),
    Pause(u32, Acked),
    Last(Request),
    Write(u16, ParameterValue, Acked),
    Await(Wait, u32, Hosts),
    Motion(Targets, Outcome),
    Rename(u8),
}
