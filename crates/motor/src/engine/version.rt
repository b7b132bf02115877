// get_version's answer (document 02, T-01), as a move that finishes.
ghost use Rattle.std.specs.Prelude.{◌≡◌};
ghost use Rattle.motor.specs.engine.Run.{version_reported};

use crate::engine::command::{Outcome, Said};
use crate::engine::moves::only_said;
use crate::engine::operation::Move;
use codec::replies::VersionReply;

// A version: its device, and its four bytes beside.
pub(super) fn version_reported(reply: VersionReply) -> Move
    ensures { result ≡ version_reported reply }
{
    let v = reply.version;
    let outcome = Outcome::Version(reply.device_id);
    Move {
        result: [v[0], v[1], v[2], v[3], 0, 0, 0, 0],
        ..only_said(Said::Finished(outcome))
    }
}
