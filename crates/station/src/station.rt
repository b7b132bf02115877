// The six calls on a station by value: each is the call on the places of the station that went in (calls).
ghost use Rattle.std.specs.Prelude.{◌≡◌, List};
ghost use Rattle.codec.specs.Models.{model_named};
ghost use Rattle.station.specs.Calls as asked;
ghost use Rattle.station.specs.Station.{Place, empty, station_call};
ghost use Rattle.station.specs.Stations.{new_station, call_by, register_in, start_in, step_in, frame_in, look_in, remove_in};
ghost use Rattle.station.specs.Stations.{Shows, LeavesAs, reply_of};

use crate::call::{Asked, Call, Replied};
use crate::calls;
use crate::limits::MOTORS;
use crate::place::free_motor;
use codec::bus::CanFrame;
use codec::error::Refusal;
use codec::model::model_named;
use motor::engine::command::Command;
use motor::engine::requests::no_frame;
use motor::motor::{Motor, Seen};

// Eight places, each free or taken by a motor.
#[derive(Clone, Copy)]
pub struct Station {
    pub motors: [Motor; MOTORS],
}

// What a call other than a look replies, and the station after it.
#[derive(Clone, Copy)]
pub struct After {
    pub station: Station,
    pub replied: Replied,
}

// A station with no motor.
pub fn new() -> Station
    ensures is { result ≡ new_station }
    ensures means { Shows result empty }
{
    let motors = [free_motor(); MOTORS];
    Station { motors }
}

// A call other than a look, on the station's own places.
#[tactic(auto, unfolding(crate::specs::Stations::call_in))]
fn called(st: Station, asked: Asked) -> After
    ensures { result ≡ call_by st asked.call asked.frame }
{
    let mut station = st;
    let replied = calls::call(&mut station.motors, asked);
    After { station, replied }
}

// A call with no frame beside it.
fn asks(call: Call) -> Asked
    ensures { result ≡ asked.asks call }
{
    Asked {
        call,
        frame: no_frame(),
    }
}

// A motor is registered: its model is named by any bytes.
pub fn register(st: Station, id: u16, host: u16, name: &[u8], wait: u64, time: u64) -> After
    ensures is { result ≡ register_in st id host (model_named name.now) wait time }
    ensures means { (s : List Place) → Shows st s → LeavesAs result (station_call s (asked.register id host (model_named name.now) wait time)) }
{
    let model = model_named(name);
    called(
        st,
        asks(Call::Register {
            id,
            host,
            model,
            wait,
            time,
        }),
    )
}

// A call starts an operation.
pub fn start(st: Station, id: u16, command: Command, now: u64) -> After
    ensures is { result ≡ start_in st id command now }
    ensures means { (s : List Place) → Shows st s → LeavesAs result (station_call s (asked.start id command now)) }
{
    called(
        st,
        asks(Call::Start {
            id,
            command,
            time: now,
        }),
    )
}

// The operation goes on.
pub fn step(st: Station, id: u16, now: u64) -> After
    ensures is { result ≡ step_in st id now }
    ensures means { (s : List Place) → Shows st s → LeavesAs result (station_call s (asked.step id now)) }
{
    called(st, asks(Call::Step { id, time: now }))
}

// A frame goes to the registered motor that accepts it.
pub fn frame(st: Station, frame: CanFrame, now: u64) -> After
    ensures is { result ≡ frame_in st frame now }
    ensures means { (s : List Place) → Shows st s → LeavesAs result (station_call s (asked.frame frame now)) }
{
    let call = Call::Frame { time: now };
    called(st, Asked { call, frame })
}

// All that a motor holds. A look changes nothing.
pub fn look(st: Station, id: u16) -> Result<Seen, Refusal>
    ensures is { result ≡ look_in st id }
    ensures means { (s : List Place) → Shows st s → (reply_of result, s) ≡ station_call s (asked.look id) }
{
    calls::look(&st.motors, id)
}

// A motor is removed.
pub fn remove(st: Station, id: u16, now: u64) -> After
    ensures is { result ≡ remove_in st id now }
    ensures means { (s : List Place) → Shows st s → LeavesAs result (station_call s (asked.remove id now)) }
{
    called(st, asks(Call::Remove { id, time: now }))
}
