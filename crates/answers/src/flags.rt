// Flags by name.
#![tactic(auto, using(text::proofs::Putting::puts_joined))]

ghost use Rattle.std.specs.Prelude.{◌≡◌};
ghost use Rattle.text.specs.Put.{put};
ghost use Rattle.answers.specs.Flags as spec;

use codec::faults::{FaultFlags, WarningFlags};
use motor::feedback::MotorFeedbackState;
use text::Text;

// The names of the flags that are set, joined by commas, or - where none is.
fn put_flags<const N: usize>(flags: &[(bool, &[u8])], out: &mut Text<N>)
    ensures { out.new ≡ put out.old (spec.names_text (spec.named flags.now)) }
{
    let mut any = false;
    for &(set, name) in flags {
        put_flag(any, set, name, out);
        any |= set;
    }
    if !any {
        out.put_byte(b'-');
    }
}

// A flag's name where it is set, after a comma where one before it is.
fn put_flag<const N: usize>(any: bool, set: bool, name: &[u8], out: &mut Text<N>)
    ensures { out.new ≡ put out.old (spec.name_after any (set, name.now)) }
{
    if set {
        if any {
            out.put_byte(b',');
        }
        out.put_bytes(name);
    }
}

// FLAGS
pub(crate) fn put_state_flags<const N: usize>(s: MotorFeedbackState, out: &mut Text<N>)
    ensures { out.new ≡ put out.old (spec.state_flags_text s) }
{
    put_flags(
        &[
            (s.undervoltage, b"undervoltage"),
            (s.overcurrent, b"overcurrent"),
            (s.overtemperature, b"overtemperature"),
            (s.magnetic_encoder_fault, b"magnetic_encoder_fault"),
            (s.stall, b"stall"),
            (s.uncalibrated, b"uncalibrated"),
        ],
        out,
    );
}

// FAULTS
pub(crate) fn put_fault_flags<const N: usize>(f: FaultFlags, out: &mut Text<N>)
    ensures { out.new ≡ put out.old (spec.fault_flags_text f) }
{
    put_flags(
        &[
            (f.overtemperature, b"overtemperature"),
            (f.driver_fault, b"driver_fault"),
            (f.undervoltage, b"undervoltage"),
            (f.overvoltage, b"overvoltage"),
            (f.phase_b_overcurrent, b"phase_b_overcurrent"),
            (f.phase_c_overcurrent, b"phase_c_overcurrent"),
            (f.encoder_uncalibrated, b"encoder_uncalibrated"),
            (f.hardware_id_fault, b"hardware_id_fault"),
            (f.position_init_fault, b"position_init_fault"),
            (f.stall_overload, b"stall_overload"),
            (f.phase_a_overcurrent, b"phase_a_overcurrent"),
        ],
        out,
    );
}

// WARNINGS
pub(crate) fn put_warning_flags<const N: usize>(w: WarningFlags, out: &mut Text<N>)
    ensures { out.new ≡ put out.old (spec.warning_flags_text w) }
{
    put_flags(
        &[(w.overtemperature_warning, b"overtemperature_warning")],
        out,
    );
}
