// A look on a station that is lent: nothing is stored.
ghost use Rattle.std.specs.Prelude.{◌≡◌};
ghost use Rattle.station.specs.Stations.{station_of, look_in};

use crate::calls;
use crate::limits::MOTORS;
use codec::error::Refusal;
use motor::motor::{Motor, Seen};

// A look on a lent station: the eight places. The answer is that of the by-value look; one motor is copied.
// Lent by `&mut`, though it only reads: LentPromises states its clause over such a reference.
pub fn look(motors: &mut [Motor; MOTORS], id: u16) -> Result<Seen, Refusal>
    ensures { (result ≡ look_in (station_of motors.old) id) × (motors.new ≡ motors.old) }
{
    calls::look(motors, id)
}
