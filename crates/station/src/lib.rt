// The station: up to 8 motors with different ids, and the six calls on them. The station goes in by value and comes back beside
// the answer. No public function asks anything of its caller; each promises its whole result.
#![tactic(auto)]

pub mod call;
mod calls;
pub mod lent;
pub mod limits;
mod place;
pub mod station;
