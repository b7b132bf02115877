// The codec for C and Rust: codec_abi's functions as exports of a static library, each with the same promises.
#![tactic(auto)]

pub mod constants;
pub mod ids;
pub mod names;
pub mod parameters;
pub mod replies;
pub mod values;
