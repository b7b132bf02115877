// A frame of the interface: a payload's number as its eight bytes, the highest first.
ghost use Rattle.std.specs.Prelude.{◌≡◌};
ghost use Rattle.session.specs.Events as spec;

use codec::bus::CanFrame;

pub(crate) fn can_frame(id: u32, bytes: u64, extended: bool, dlc: u8, rx: bool) -> CanFrame
    ensures { result ≡ spec.can_frame id bytes extended dlc rx }
{
    CanFrame {
        arbitration_id: id,
        data: bytes.to_be_bytes(),
        dlc,
        is_extended: extended,
        is_rx: rx,
    }
}
