// What a session is answered (docs/REPLAY.md, the output): text put into a lent buffer, after what stands there already.
// No impl of Display: the values are of other crates' types, so each would want a wrapper.
#![tactic(auto)]

mod flags;
pub mod lent;
pub mod looks;
mod names;
pub mod said;
mod values;
