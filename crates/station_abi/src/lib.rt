// The station for C and Rust, for timing only: frames handed in many times over, and how many were not refused. What a frame does
// is said by the station; both loops promise the same count, by the station's definitions.
#![tactic(auto)]

pub mod beats;
pub mod frames;
pub mod loaded;
