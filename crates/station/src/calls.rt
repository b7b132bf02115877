// Each call on the eight places: the place that it names is changed where it lies, and no other.
ghost use Rattle.std.specs.Prelude.{◌≡◌, true, false};
ghost use Rattle.motor.specs.Receive.{is_read, process_feedback_frame};
ghost use Rattle.station.specs.Calls.{told};
ghost use Rattle.station.specs.Stations.{station_of, left, register_in, start_in, step_in, frame_in, remove_in, call_in, look_in};

use crate::call::{Answer, Asked, Call, Replied, moved, reply, told};
use crate::limits::MOTORS;
use crate::place::{find_motor, find_place, free_motor};
use codec::bus::CanFrame;
use codec::error::Refusal;
use codec::model::Model;
use motor::edits::hear_read;
use motor::engine::command::{Command, Said};
use motor::motor::{Motor, Seen, removal};
use motor::quiet::hear_state;
use motor::receive::arrival_of;
use motor::registration::registration_of;

// ---- registration: 1, 2, 3, 9, 7, 5, 4

// A motor is registered in the first free place. No struct: Call::Register hands the five out, and motor takes them one by one.
fn register(
    motors: &mut [Motor; MOTORS],
    id: u16,
    host: u16,
    model: Option<Model>,
    wait: u64,
    time: u64,
) -> Result<(), Refusal>
    ensures { left (station_of motors.new) (told result) ≡ register_in (station_of motors.old) id host model wait time }
{
    let model = registration_of(id, host, model, wait, time)?;
    if find_motor(motors, id).is_some() {
        return Err(Refusal::IdRegistered);
    }
    let i = find_place(motors, 0).ok_or(Refusal::StationFull)?;
    motors[i] = motor::motor::new(id, host, model, wait, time);
    Ok(())
}

// ---- start: 6, then the motor's. Step: 6, then the motor's

// The motor of an id starts.
fn start(motors: &mut [Motor; MOTORS], id: u16, command: Command, now: u64) -> Replied
    ensures { left (station_of motors.new) result ≡ start_in (station_of motors.old) id command now }
{
    let Some(i) = find_motor(motors, id) else {
        return reply(Answer::Moved(Said::Refused(Refusal::IdNotRegistered)));
    };
    let answered = motor::motor::start(motors[i], command, now);
    motors[i] = answered.motor;
    moved(answered.said, answered.frame, answered.result)
}

// The motor of an id goes on.
fn step(motors: &mut [Motor; MOTORS], id: u16, now: u64) -> Replied
    ensures { left (station_of motors.new) result ≡ step_in (station_of motors.old) id now }
{
    let Some(i) = find_motor(motors, id) else {
        return reply(Answer::Moved(Said::Refused(Refusal::IdNotRegistered)));
    };
    let answered = motor::motor::step(motors[i], now);
    motors[i] = answered.motor;
    moved(answered.said, answered.frame, answered.result)
}

// ---- frame: 13, then the motor's

// A read reply at its motor: the state is stored, and of the readings what the edit names.
fn hear_read_at(m: &mut Motor, frame: CanFrame, now: u64) -> Result<(), Refusal>
    ensures { is_read frame ≡ true → record { motor = m.new; said = result } ≡ process_feedback_frame m.old frame now }
{
    let heard = hear_read(*m, frame, now);
    let edit = heard.edit;
    m.state = heard.state;
    m.readings.records[edit.first] = edit.one;
    m.readings.records[edit.second].next = edit.link;
    m.readings.free = edit.free;
    heard.said
}

// Any other frame at its motor: the state is stored.
fn hear_state_at(m: &mut Motor, frame: CanFrame, now: u64) -> Result<(), Refusal>
    ensures { is_read frame ≡ false → record { motor = m.new; said = result } ≡ process_feedback_frame m.old frame now }
{
    let heard = hear_state(m.state, frame, now);
    m.state = heard.state;
    heard.said
}

// A frame goes to the registered motor that accepts it.
fn frame(motors: &mut [Motor; MOTORS], frame: CanFrame, now: u64) -> Result<(), Refusal>
    ensures { left (station_of motors.new) (told result) ≡ frame_in (station_of motors.old) frame now }
{
    let arrival = arrival_of(frame);
    if !arrival.accepted {
        return Err(Refusal::FrameNotAccepted);
    }
    let i = find_motor(motors, arrival.source).ok_or(Refusal::FrameNotAccepted)?;
    if arrival.read {
        return hear_read_at(&mut motors[i], frame, now);
    }
    hear_state_at(&mut motors[i], frame, now)
}

// ---- remove: 6, 7, 8

// The place is free again where the motor may go.
fn remove(motors: &mut [Motor; MOTORS], id: u16, now: u64) -> Result<(), Refusal>
    ensures { left (station_of motors.new) (told result) ≡ remove_in (station_of motors.old) id now }
{
    let i = find_motor(motors, id).ok_or(Refusal::IdNotRegistered)?;
    removal(motors[i], now)?;
    motors[i] = free_motor();
    Ok(())
}

// ---- look: 6

// The motor of an id is copied out where it lies, and nothing is stored.
pub(crate) fn look(motors: &[Motor; MOTORS], id: u16) -> Result<Seen, Refusal>
    ensures { result ≡ look_in (station_of motors.now) id }
{
    let i = find_motor(motors, id).ok_or(Refusal::IdNotRegistered)?;
    Ok(motor::motor::look(motors[i]))
}

// ---- any of them

// What a look shows is `look`'s.
#[tactic(auto, unfolding(crate::specs::Stations::call_in))]
pub(crate) fn call(motors: &mut [Motor; MOTORS], asked: Asked) -> Replied
    ensures { (result ≡ (call_in (station_of motors.old) asked).replied) × (station_of motors.new ≡ (call_in (station_of motors.old) asked).station) }
{
    match asked.call {
        Call::Register {
            id,
            host,
            model,
            wait,
            time,
        } => told(register(motors, id, host, model, wait, time)),
        Call::Start { id, command, time } => start(motors, id, command, time),
        Call::Step { id, time } => step(motors, id, time),
        Call::Frame { time } => told(frame(motors, asked.frame, time)),
        Call::Look { id } => {
            let place = find_motor(motors, id);
            reply(Answer::Looked(place.map(|_| ()).ok_or(Refusal::IdNotRegistered)))
        }
        Call::Remove { id, time } => told(remove(motors, id, time)),
    }
}
