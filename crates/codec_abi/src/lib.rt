// The codec on numbers, for C and for vectors: one function for each of the codec's. A payload
// crosses as a u64, byte 0 lowest, and a refusal as its number, 0 where there is none. Each function
// promises its result and every byte lent to it by the codec's definitions and those of specs/.
// codec_abi_c exports them.
#![tactic(auto)]

pub mod constants;
pub mod ids;
pub mod names;
pub mod packing;
pub mod parameters;
pub mod replies;
pub mod values;
