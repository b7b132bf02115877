// The lines of a session (docs/REPLAY.md, the input): which event a line is, or why it is none.
#![tactic(auto)]

mod arguments;
mod commands;
pub mod event;
mod frame;
mod heard;
pub mod limits;
pub mod line;
pub mod table;
