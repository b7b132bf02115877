// How an operation runs: what it does first, what follows each end of a wait, and one move of it at a time. It sees of its motor
// what `Sight` holds, and says what is to change; `motor` holds the rest.
pub mod candidates;
pub mod command;
mod ensure;
pub mod kinds;
pub mod moves;
pub mod node;
pub mod operation;
mod operations;
mod position;
pub mod reading;
pub mod requests;
pub mod run;
pub mod script;
mod stop;
mod version;
