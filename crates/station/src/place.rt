// The eight places of a station. A place is free where its motor has the id 0, which no registration takes.
ghost use Rattle.std.specs.Prelude.{◌≡◌, ◌<◌, IfSome};
ghost use Rattle.station.specs.Limits.{most_motors};
ghost use Rattle.station.specs.Stations.{free_motor, find_place, find_motor};

use crate::limits::MOTORS;
use codec::model::Model;
use motor::motor::{Motor, new};

// What stands in a free place.
#[tactic(auto, unfolding(crate::specs::Stations::free_motor))]
pub(crate) fn free_motor() -> Motor
    ensures { result ≡ free_motor }
{
    new(0, 0, Model::Rs00, 0, 0)
}

// The first place of an id. That of 0 is the first free place.
pub(crate) fn find_place(motors: &[Motor; MOTORS], id: u16) -> Option<usize>
    ensures is { result ≡ find_place motors.now id }
    ensures inside { IfSome result (λ i. i < most_motors) }
{
    motors.iter().position(|m| m.state.motor_id == id)
}

// The place of a registered motor.
pub(crate) fn find_motor(motors: &[Motor; MOTORS], id: u16) -> Option<usize>
    ensures is { result ≡ find_motor motors.now id }
    ensures inside { IfSome result (λ i. i < most_motors) }
{
    if id == 0 {
        return None;
    }
    find_place(motors, id)
}
