// Frames, and stations to begin with: motors registered, and readings held by each.
ghost use Rattle.std.specs.Prelude.{◌≡◌};
ghost use Rattle.station_abi.specs.Loaded.{frame_from, status_frame, read_reply, last_parameter, registered_of, read_by_all, loaded_to};

use codec::bus::CanFrame;
use codec::protocol::{CommunicationType, build_ext_id};
use motor::limits::READINGS;
use station::station::{Station, frame, new, register};

const HOST: u8 = 0xFD;

// The first parameter held; the others follow it.
const FIRST: u16 = 0x3000;

// A frame of motor `id` to the host.
fn frame_from(id: u16, comm_type: u32, bytes: [u8; 8]) -> CanFrame
    ensures { result ≡ frame_from id comm_type bytes }
{
    CanFrame {
        arbitration_id: build_ext_id(comm_type, id, HOST),
        data: bytes,
        dlc: 8,
        is_extended: true,
        is_rx: true,
    }
}

// A status frame: at rest, 25 degrees.
pub(crate) fn status_frame(id: u16) -> CanFrame
    ensures { result ≡ status_frame id }
{
    let bytes = [0x7F, 0xFF, 0x7F, 0xFF, 0x7F, 0xFF, 0, 0xFA];
    frame_from(id, CommunicationType::OPERATION_STATUS, bytes)
}

// A read reply: the value is 0.
pub(crate) fn read_reply(id: u16, parameter: u16) -> CanFrame
    ensures { result ≡ read_reply id parameter }
{
    let [low, high] = parameter.to_le_bytes();
    let bytes = [low, high, 0, 0, 0, 0, 0, 0];
    frame_from(id, CommunicationType::READ_PARAMETER, bytes)
}

// The largest parameter held where so many are, and the first where none is.
#[tactic(auto, unfolding(crate::specs::Loaded::last_parameter))]
pub(crate) fn last_parameter(held: u64) -> u16
    ensures { result ≡ last_parameter held }
{
    if held == 0 {
        return FIRST;
    }
    if (READINGS as u64) < held {
        return FIRST + READINGS - 1;
    }
    FIRST + (held as u16) - 1
}

// A station with the motors 1, 2, ..
fn registered(motors: u16) -> Station
    ensures { result ≡ registered_of motors }
{
    let mut st = new();
    for id in 1..=motors {
        st = register(st, id, u16::from(HOST), b"rs-00", 0, 0).station;
    }
    st
}

// The station after a reply of every motor for one parameter.
fn read_by_all(st: Station, motors: u16, parameter: u16) -> Station
    ensures { result ≡ read_by_all st motors parameter }
{
    let mut after = st;
    for id in 1..=motors {
        after = frame(after, read_reply(id, parameter), 0).station;
    }
    after
}

// A station whose motors hold so many readings each.
pub(crate) fn loaded(motors: u16, held: u64) -> Station
    ensures { result ≡ loaded_to motors held }
{
    let mut st = registered(motors);
    for count in 1..=held {
        st = read_by_all(st, motors, last_parameter(count));
    }
    st
}
