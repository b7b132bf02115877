// What a line says besides calls: nothing, no event, `fresh`.
ghost use Rattle.std.specs.Prelude.{◌≡◌};
ghost use Rattle.text.specs.Put.{put};
ghost use Rattle.station.specs.lent.Lent.{station_of};
ghost use Rattle.replay.specs.Events as spec;

use crate::errors::put_error;
use answers::said::put_ok;
use motor::motor::Motor;
use session::event::Other;
use station::limits::MOTORS;
use station::station::new;
use text::Text;

// Puts its answer: `fresh` is a new station, all else leaves it as it was.
#[tactic(auto, using(text::proofs::Putting::puts_joined), unfolding(crate::specs::Events::is_fresh, crate::specs::Events::station_of_other, crate::specs::Events::other_text))]
pub(crate) fn take_other<const N: usize>(
    motors: &mut [Motor; MOTORS],
    other: Other,
    out: &mut Text<N>,
)
    ensures { (station_of motors.new ≡ spec.station_of_other (station_of motors.old) other) × (out.new ≡ put out.old (spec.other_text other)) }
{
    match other {
        Other::Nothing => {}
        Other::Error(reason) => put_error(reason, out),
        Other::Fresh => {
            let st = new();
            let fresh = st.motors;
            *motors = fresh;
            put_ok(out);
        }
    }
}
