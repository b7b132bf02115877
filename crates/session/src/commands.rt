// The command of a start: a name, which is the Rust method's, and its arguments in the Rust's order.
ghost use Rattle.std.specs.Prelude.{◌≡◌};
ghost use Rattle.session.specs.Commands as spec;

use crate::arguments::{arguments, low8, low16, low32};
use crate::event::Reason;
use crate::table::{COMMANDS, row_of};
use codec::protocol::ParameterValue;
use codec::registers::ControlMode;
use codec::word::{Word, signed_of};
use motor::engine::command::Command;
use station::call::Call;

// start ID TIME COMMAND ARGS
#[tactic(auto, unfolding(crate::specs::Commands::started))]
pub(crate) fn started(line: &[u8]) -> Result<Call, Reason>
    ensures { result ≡ spec.started line.now }
{
    let row = row_of(&COMMANDS, text::word(line, 3)).ok_or(Reason::NoSuchCommand)?;
    let shape = text::word(&COMMANDS, 2 * row + 1);
    start_event(row, shape, arguments(line, shape)?)
}

// The start of row k, whose arguments stand in v from place 3 on.
#[tactic(auto, unfolding(crate::specs::Commands::start_event))]
fn start_event(k: usize, shape: &[u8], v: [u64; 8]) -> Result<Call, Reason>
    ensures { result ≡ spec.start_event k shape.now v }
{
    if let Some(word) = too_wide(shape, v) {
        return Err(Reason::BadWord(word, b'V'));
    }
    Ok(Call::Start {
        id: low16(v[0]),
        command: command_of(k, v),
        time: v[1],
    })
}

// The word of a value that is wider than the kind before it, counted from 1.
#[tactic(auto, unfolding(crate::specs::Commands::too_wide))]
fn too_wide(shape: &[u8], v: [u64; 8]) -> Option<usize>
    ensures { result ≡ spec.too_wide shape.now v }
{
    let kind = text::position_of(shape, b'K')?;
    if 7 <= kind || v[kind + 1] <= widest(v[kind]) {
        return None;
    }
    Some(kind + 3)
}

// The command of row k, ping's being 0. By the row's place in the table: an enum of rows would have that order once more.
#[tactic(auto, unfolding(crate::specs::Commands::command_of))]
fn command_of(k: usize, v: [u64; 8]) -> Command
    ensures { result ≡ spec.command_of k v }
{
    match k {
        1 => Command::PingWithHostId(low16(v[3]), v[4]),
        2 => Command::SetMode(mode_of(v[3])),
        3 => Command::EnsureControlMode(mode_of(v[3]), v[4]),
        4 => Command::SetZeroPosition,
        5 => Command::SaveParameters,
        6 => Command::GetProtocolFlag(v[3]),
        7 => Command::SetProtocol(low8(v[3]), v[4]),
        8 => Command::SetDeviceId(low8(v[3])),
        9 => Command::Enable,
        10 => Command::Disable,
        11 => Command::ClearError,
        12 => Command::SetActiveReport(v[3] == 1),
        13 => motion_of(v),
        14 => Command::SetVelocityTarget(low_word(v[3])),
        15 => Command::GetControlMode(v[3]),
        16 => Command::ControlledStop(v[3]),
        17 => Command::WriteParameter(low16(v[3]), typed_value(v[4], v[5])),
        18 => Command::SendCmdPosVelCsp(low_word(v[3]), low_word(v[4])),
        19 => Command::SendCmdPosVelPp(low_word(v[3]), low_word(v[4]), low_word(v[5])),
        20 => Command::RequestParameter(low16(v[3])),
        21 => Command::GetParameter(low16(v[3]), v[4]),
        22 => Command::GetParameterWithHostId(low16(v[3]), low16(v[4]), v[5]),
        23 => Command::GetParameterF32(low16(v[3]), v[4]),
        24 => Command::GetParameterI8(low16(v[3]), v[4]),
        25 => Command::GetVersion,
        _ => Command::Ping(v[3]),
    }
}

// A motion command.
fn motion_of(v: [u64; 8]) -> Command
    ensures { result ≡ spec.motion_of v }
{
    Command::SendCmdMit(
        low_word(v[3]),
        low_word(v[4]),
        low_word(v[5]),
        low_word(v[6]),
        low_word(v[7]),
    )
}

// A mode by its place among the names.
#[tactic(auto, unfolding(crate::specs::Commands::mode_of))]
fn mode_of(n: u64) -> ControlMode
    ensures { result ≡ spec.mode_of n }
{
    match n {
        0 => ControlMode::Mit,
        1 => ControlMode::Position,
        2 => ControlMode::Velocity,
        _ => ControlMode::PositionCsp,
    }
}

// A value by its kind's place among the names, and its bits.
#[tactic(auto, unfolding(crate::specs::Commands::typed_value))]
fn typed_value(kind: u64, bits: u64) -> ParameterValue
    ensures { result ≡ spec.typed_value kind bits }
{
    match kind {
        0 => ParameterValue::I8(signed_of(low8(bits))),
        1 => ParameterValue::U8(low8(bits)),
        2 => ParameterValue::U16(low16(bits)),
        3 => ParameterValue::U32(low32(bits)),
        _ => ParameterValue::F32(low_word(bits)),
    }
}

// The widest value of a kind.
#[tactic(auto, unfolding(crate::specs::Commands::widest_of))]
fn widest(kind: u64) -> u64
    ensures { result ≡ spec.widest_of kind }
{
    match kind {
        0 | 1 => 0xFF,
        2 => 0xFFFF,
        _ => 0xFFFF_FFFF,
    }
}

fn low_word(n: u64) -> Word
    ensures { result ≡ spec.low_word n }
{
    Word { bits: low32(n) }
}
