// The codec of the RobStride protocol: frame ids, parameters, motion and status values, faults and
// replies, as pure functions on values. No function asks anything of its caller, and each promises
// its whole result by a definition of specs/.
#![tactic(auto)]

pub mod bus;
pub mod error;
pub mod faults;
pub mod model;
pub mod motion;
pub mod names;
pub mod parameter_names;
pub mod protocol;
pub mod registers;
pub mod replies;
pub mod status;
pub mod word;
