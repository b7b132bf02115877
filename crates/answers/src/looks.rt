// A look: what a motor was registered with, and all that it holds.
#![tactic(auto, using(text::proofs::Putting::puts_joined))]

ghost use Rattle.std.specs.Prelude.{◌≡◌};
ghost use Rattle.text.specs.Put.{put};
ghost use Rattle.answers.specs.Looks as spec;

use crate::flags::{put_fault_flags, put_state_flags, put_warning_flags};
use crate::names::command_text;
use crate::said::{put_ping, put_refused, put_version};
use crate::values::{put_line, put_named, put_numbers, put_value};
use codec::error::Refusal;
use codec::faults::FaultReport;
use codec::model::Model;
use codec::replies::{PingReply, VersionReply};
use codec::word::word_of;
use motor::engine::command::Command;
use motor::engine::operation::{Gains, Operation, Phase};
use motor::feedback::MotorFeedbackState;
use motor::limits::ENTRIES;
use motor::motor::{Seen, State};
use motor::readings::{Entry, Listing};
use text::Text;

// A look's lines, or refused.
#[tactic(auto, using(text::proofs::Putting::puts_joined), unfolding(crate::specs::Looks::looked_text))]
pub fn put_looked<const N: usize>(looked: Result<Seen, Refusal>, out: &mut Text<N>)
    ensures { out.new ≡ put out.old (spec.looked_text looked) }
{
    match looked {
        Ok(seen) => put_seen(seen, out),
        Err(refusal) => put_refused(refusal, out),
    }
}

fn put_seen<const N: usize>(seen: Seen, out: &mut Text<N>)
    ensures { out.new ≡ put out.old (spec.seen_text seen) }
{
    put_state(seen.state, out);
    put_readings(seen.readings, out);
    out.put_bytes(b"end\n");
}

// The lines above the readings.
fn put_state<const N: usize>(s: State, out: &mut Text<N>)
    ensures { out.new ≡ put out.old (spec.state_text s) }
{
    put_motor(s.motor_id, s.feedback_id, s.model, s.write_wait, out);
    put_line(b"clock", s.clock, b"D", out);
    put_line(b"responses", s.responses, b"D", out);
    put_line(b"sequence", s.feedback.sequence, b"D", out);
    put_feedback(s.feedback.latest, out);
    put_fault(s.fault_report, out);
    put_held_ping(s.ping_reply, out);
    put_held_version(s.operation.answer, out);
    put_gains(s.gains, out);
    put_running(s.operation, s.command, out);
}

// motor ID HOST MODEL WAIT
fn put_motor<const N: usize>(id: u16, host: u16, model: Model, wait: u64, out: &mut Text<N>)
    ensures { out.new ≡ put out.old (spec.motor_text id host model wait) }
{
    out.put_bytes(b"motor");
    put_numbers(u64::from(id), u64::from(host), b"22", out);
    out.put_byte(b' ');
    out.put_bytes(model.name());
    put_line(b"", wait, b"D", out);
}

// feedback ID DEVICE MODE_STATE POS VEL TORQUE TEMP FLAGS
fn put_feedback<const N: usize>(latest: Option<MotorFeedbackState>, out: &mut Text<N>)
    ensures { out.new ≡ put out.old (spec.feedback_text latest) }
{
    match latest {
        None => out.put_bytes(b"feedback none\n"),
        Some(state) => {
            put_told_state(state, out);
            out.put_byte(b' ');
            put_state_flags(state, out);
            out.put_byte(b'\n');
        }
    }
}

fn put_told_state<const N: usize>(s: MotorFeedbackState, out: &mut Text<N>)
    ensures { out.new ≡ put out.old (spec.told_state_text s) }
{
    let numbers = [
        u64::from(s.arbitration_id),
        u64::from(s.device_id),
        u64::from(s.mode_state),
        u64::from(word_of(s.position).bits),
        u64::from(word_of(s.velocity).bits),
        u64::from(word_of(s.torque).bits),
        u64::from(word_of(s.temperature_c).bits),
        0,
    ];
    out.put_bytes(b"feedback");
    out.put_fields(numbers, b"8218888");
}

// fault FAULT_RAW WARNING_RAW FAULTS WARNINGS
fn put_fault<const N: usize>(fault: Option<FaultReport>, out: &mut Text<N>)
    ensures { out.new ≡ put out.old (spec.fault_text fault) }
{
    match fault {
        None => out.put_bytes(b"fault none\n"),
        Some(report) => put_report(report, out),
    }
}

fn put_report<const N: usize>(report: FaultReport, out: &mut Text<N>)
    ensures { out.new ≡ put out.old (spec.report_text report) }
{
    out.put_bytes(b"fault");
    put_numbers(
        u64::from(report.fault_raw),
        u64::from(report.warning_raw),
        b"88",
        out,
    );
    out.put_byte(b' ');
    put_fault_flags(report.faults, out);
    out.put_byte(b' ');
    put_warning_flags(report.warnings, out);
    out.put_byte(b'\n');
}

// ping DEVICE RESPONDER PAYLOAD
fn put_held_ping<const N: usize>(ping: Option<PingReply>, out: &mut Text<N>)
    ensures { out.new ≡ put out.old (spec.held_ping_text ping) }
{
    match ping {
        None => out.put_bytes(b"ping none\n"),
        Some(reply) => {
            put_ping(reply.device_id, reply.responder_id, reply.payload, out);
            out.put_byte(b'\n');
        }
    }
}

// version DEVICE BYTES: the answer that the running get_version has so far
fn put_held_version<const N: usize>(answer: Option<VersionReply>, out: &mut Text<N>)
    ensures { out.new ≡ put out.old (spec.held_version_text answer) }
{
    match answer {
        None => out.put_bytes(b"version none\n"),
        Some(reply) => {
            put_version(reply.device_id, reply.version, out);
            out.put_byte(b'\n');
        }
    }
}

// gains KP KD
fn put_gains<const N: usize>(gains: Gains, out: &mut Text<N>)
    ensures { out.new ≡ put out.old (spec.gains_text gains) }
{
    out.put_bytes(b"gains");
    put_numbers(
        u64::from(gains.kp.bits),
        u64::from(gains.kd.bits),
        b"88",
        out,
    );
    out.put_byte(b'\n');
}

// running COMMAND due TIME
fn put_running<const N: usize>(operation: Operation, command: Command, out: &mut Text<N>)
    ensures { out.new ≡ put out.old (spec.running_text operation command) }
{
    if matches!(operation.phase, Phase::Idle) {
        out.put_bytes(b"running none\n");
        return;
    }
    out.put_bytes(b"running ");
    out.put_bytes(command_text(command));
    put_line(b" due", operation.due, b"D", out);
}

// A line for each reading held, along the chain.
fn put_readings<const N: usize>(readings: Listing, out: &mut Text<N>)
    ensures { out.new ≡ put out.old (spec.readings_text readings) }
{
    let held = usize::from(readings.count).min(ENTRIES);
    for &entry in &readings.entries[..held] {
        put_reading(entry, out);
    }
}

// reading PARAM KIND BITS
fn put_reading<const N: usize>(entry: Entry, out: &mut Text<N>)
    ensures { out.new ≡ put out.old (spec.reading_text entry) }
{
    put_named(b"reading", u64::from(entry.id), b"4", out);
    out.put_byte(b' ');
    put_value(entry.held.value, out);
    out.put_byte(b'\n');
}
