// How an operation stands, what it sees of its motor, and what one move of it is.
use crate::engine::candidates::Hosts;
use crate::engine::command::Said;
use crate::engine::node::{Acked, Wait};
use codec::bus::CanFrame;
use codec::model::Model;
use codec::replies::{PingReply, VersionReply};
use codec::word::Word;

// Where an operation stands: nowhere, before what follows a pause (or is due at once), or in a wait.
#[derive(Clone, Copy)]
pub enum Phase {
    Idle,
    Pausing(Acked),
    Waiting(Wait),
}

// The running operation: its phase and next due time; of a wait its window, whom it asks, the host of this attempt, the place
// of the next, the count or sequence at this send, and the answer that a get_version has so far. What a phase doesn't use is 0.
#[derive(Clone, Copy)]
pub struct Operation {
    pub phase: Phase,
    pub due: u64,
    pub window: u32,
    pub hosts: Hosts,
    pub host: u16,
    pub candidate: u8,
    pub mark: u64,
    pub answer: Option<VersionReply>,
}

// The gains of the last motion command, as given before any clamp; at first 0.
#[derive(Clone, Copy)]
pub struct Gains {
    pub kp: Word,
    pub kd: Word,
}

// What an operation sees of its motor.
#[derive(Clone, Copy)]
pub struct Sight {
    pub motor_id: u16,
    pub feedback_id: u16,
    pub model: Model,
    pub write_wait: u64,
    pub sequence: u64,
    pub responses: u64,
    pub ping_reply: Option<PingReply>,
    pub gains: Gains,
}

// What a move changes of what is held.
#[derive(Clone, Copy)]
pub enum Effect {
    Nothing,
    ForgetReading(u16),
    ForgetPing,
    ForgetFault,
    HoldGains(Gains),
}

// One move of an operation: what is said, the frame sent and the result's bytes, how the operation stands then, and what
// changes of what is held. No frame is no_frame; the bytes are a ping's payload, or a version's four and zeros, else zeros.
#[derive(Clone, Copy)]
pub struct Move {
    pub said: Said,
    pub frame: CanFrame,
    pub result: [u8; 8],
    pub operation: Operation,
    pub effect: Effect,
}
