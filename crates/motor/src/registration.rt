// A registration's tests that only its arguments decide.
ghost use Rattle.std.specs.Prelude.{◌≡◌, Some};
ghost use Rattle.codec.specs.Models.{model_named};
ghost use Rattle.motor.specs.Numbers.{first_of};
ghost use Rattle.motor.specs.Calls.{id_numbers, model_numbers, last_numbers, registered_by, registration_of};

use crate::limits::{LATEST, LONGEST};
use codec::error::Refusal;
use codec::model::{Model, model_named};

// 9 and 7, a registration's last tests.
fn admitted_at(model: Model, write_wait: u64, time: u64) -> Result<Model, Refusal>
    ensures { result ≡ registered_by (first_of (last_numbers write_wait time)) (Some model) }
{
    if write_wait > LONGEST {
        return Err(Refusal::TimeoutTooLong);
    }
    if time > LATEST {
        return Err(Refusal::TimeOutOfRange);
    }
    Ok(model)
}

// 1 and 2, its first tests.
fn ids_checked(motor_id: u16, feedback_id: u16) -> Result<(), Refusal>
    ensures { result ≡ first_of (id_numbers motor_id feedback_id) }
{
    if motor_id == 0 || motor_id > 255 {
        return Err(Refusal::MotorIdOutOfRange);
    }
    if feedback_id > 255 {
        return Err(Refusal::HostIdOutOfRange);
    }
    Ok(())
}

// 3, 9 and 7.
fn model_checked(found: Option<Model>, write_wait: u64, time: u64) -> Result<Model, Refusal>
    ensures { result ≡ registered_by (first_of (model_numbers found write_wait time)) found }
{
    admitted_at(found.ok_or(Refusal::UnknownModel)?, write_wait, time)
}

// The tests of a registration that only its arguments decide: 1, 2, 3, 9, 7.
pub fn registration_of(
    motor_id: u16,
    feedback_id: u16,
    found: Option<Model>,
    write_wait: u64,
    time: u64,
) -> Result<Model, Refusal>
    ensures { result ≡ registration_of motor_id feedback_id found write_wait time }
{
    ids_checked(motor_id, feedback_id)?;
    model_checked(found, write_wait, time)
}

// The same, the model named by any bytes.
pub fn registration(
    motor_id: u16,
    feedback_id: u16,
    name: &[u8],
    write_wait: u64,
    time: u64,
) -> Result<Model, Refusal>
    ensures { result ≡ registration_of motor_id feedback_id (model_named name.now) write_wait time }
{
    registration_of(motor_id, feedback_id, model_named(name), write_wait, time)
}
