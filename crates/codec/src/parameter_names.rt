// The names of the parameters.
ghost use Rattle.std.specs.Prelude.{◌≡◌};
ghost use Rattle.codec.specs.ParameterNames.{parameter_name};

use crate::names::{Name, name_in};
use crate::registers::parameter_row;

// The name of a parameter; one of no byte if it is unlisted.
pub fn parameter_name(id: u16) -> Name
    ensures { result ≡ parameter_name id }
{
    match parameter_row(id) {
        Some(row) => name_in(row.name),
        None => name_in([b' '; 16]),
    }
}
