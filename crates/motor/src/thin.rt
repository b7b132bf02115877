// The thin receive call: the motor is lent, copied out, handed to process_feedback_frame, and stored back.
ghost use Rattle.std.specs.Prelude.{◌≡◌};
ghost use Rattle.motor.specs.Receive.{process_feedback_frame};

use crate::motor::Motor;
use crate::receive::process_feedback_frame;
use codec::bus::CanFrame;
use codec::error::Refusal;

// A frame at a time, heard in place: what is said, and what the motor is afterwards, are those of the by-value call.
pub fn process_feedback_frame_in_place(
    m: &mut Motor,
    frame: CanFrame,
    time: u64,
) -> Result<(), Refusal>
    ensures { (result ≡ (process_feedback_frame m.old frame time).said) × (m.new ≡ (process_feedback_frame m.old frame time).motor) }
{
    let h = process_feedback_frame(*m, frame, time);
    *m = h.motor;
    h.said
}
