// One motor: what it has heard, and the operations that it runs in steps. State goes in by value and comes back beside the
// answer. No public function asks anything of its caller; each promises its whole result.
#![tactic(auto)]

mod arguments;
pub mod edits;
mod effects;
pub mod engine;
pub mod feedback;
pub mod limits;
pub mod motor;
pub mod quiet;
pub mod readings;
pub mod receive;
pub mod registration;
pub mod thin;
mod version;
