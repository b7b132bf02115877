// The calls that start an operation, by the Rust's method names, and what they answer; get_version, the last, is document 02's T-01.
use codec::error::Refusal;
use codec::protocol::ParameterValue;
use codec::registers::ControlMode;
use codec::word::Word;

// A call with its arguments, in the Rust's order. Timeouts are milliseconds; a float is its word.
#[derive(Clone, Copy)]
pub enum Command {
    Ping(u64),
    PingWithHostId(u16, u64),
    SetMode(ControlMode),
    EnsureControlMode(ControlMode, u64),
    SetZeroPosition,
    SaveParameters,
    GetProtocolFlag(u64),
    SetProtocol(u8, u64),
    SetDeviceId(u8),
    Enable,
    Disable,
    ClearError,
    SetActiveReport(bool),
    SendCmdMit(Word, Word, Word, Word, Word),
    SetVelocityTarget(Word),
    GetControlMode(u64),
    ControlledStop(u64),
    WriteParameter(u16, ParameterValue),
    SendCmdPosVelCsp(Word, Word),
    SendCmdPosVelPp(Word, Word, Word),
    RequestParameter(u16),
    GetParameter(u16, u64),
    GetParameterWithHostId(u16, u16, u64),
    GetParameterF32(u16, u64),
    GetParameterI8(u16, u64),
    GetVersion,
}

// What a finished operation gives: nothing, a ping's device and responder (its payload stands beside), a mode, a value, the
// protocol flag, a float, a signed number, a version's device (its four bytes stand beside).
#[derive(Clone, Copy)]
pub enum Outcome {
    Done,
    Ping(u8, u8),
    Mode(ControlMode),
    Value(ParameterValue),
    Flag(u8),
    F32(Word),
    I8(i8),
    Version(u8),
}

// What a start or a step says: sent or waiting, with the next due time; finished, or finished together with a last frame; or
// a number.
#[derive(Clone, Copy)]
pub enum Said {
    Sent(u64),
    Waiting(u64),
    Finished(Outcome),
    FinishedWith(Outcome),
    Refused(Refusal),
}
