// A reading, as an operation sees it.
use codec::protocol::ParameterValue;

// What is kept for a parameter.
#[derive(Clone, Copy)]
pub struct Stored {
    pub value: ParameterValue,
}
