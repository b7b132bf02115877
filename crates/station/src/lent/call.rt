// Any of the six calls on a station that is lent.
ghost use Rattle.std.specs.Prelude.{◌≡◌};
ghost use Rattle.station.specs.Stations.{station_of, call_in};

use crate::call::{Asked, Replied};
use crate::calls;
use crate::limits::MOTORS;
use motor::motor::Motor;

// A call on a lent station: the eight places. The reply, and the station at exit, are those of the by-value call; what a look
// shows is `look`'s.
pub fn call(motors: &mut [Motor; MOTORS], asked: Asked) -> Replied
    ensures { (result ≡ (call_in (station_of motors.old) asked).replied) × (station_of motors.new ≡ (call_in (station_of motors.old) asked).station) }
{
    calls::call(motors, asked)
}
