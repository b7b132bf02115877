// The refusals: document 01's "Numbers a caller may get".
ghost use Rattle.std.specs.Prelude.{◌≡◌};
ghost use Rattle.codec.specs.Refusals.{number_of};

// A case for each number, in the table's order. 14 and 18 carry values, the others none.
#[derive(Clone, Copy)]
pub enum Refusal {
    MotorIdOutOfRange,
    HostIdOutOfRange,
    UnknownModel,
    StationFull,
    IdRegistered,
    IdNotRegistered,
    TimeOutOfRange,
    OperationRunning,
    TimeoutTooLong,
    UnlistedParameter,
    KindDiffers,
    UnknownProtocol,
    FrameNotAccepted,
    ReadFailed { id: u16, status: u8 },
    ReadingsFull,
    WindowsGone,
    UnsupportedRunMode,
    ModeNotReached(Option<i8>),
    NewDeviceIdZero,
    ReadingOfAnotherKind,
    NothingRunning,
    NotPingReply,
    NotVersionReply,
}

// The number of a refusal.
// Kept as a function in place of a From: number(refusal) says what u8::from(refusal) doesn't.
pub fn number(refusal: Refusal) -> u8
    ensures { result ≡ number_of refusal }
{
    match refusal {
        Refusal::MotorIdOutOfRange => 1,
        Refusal::HostIdOutOfRange => 2,
        Refusal::UnknownModel => 3,
        Refusal::StationFull => 4,
        Refusal::IdRegistered => 5,
        Refusal::IdNotRegistered => 6,
        Refusal::TimeOutOfRange => 7,
        Refusal::OperationRunning => 8,
        Refusal::TimeoutTooLong => 9,
        Refusal::UnlistedParameter => 10,
        Refusal::KindDiffers => 11,
        Refusal::UnknownProtocol => 12,
        Refusal::FrameNotAccepted => 13,
        Refusal::ReadFailed { id: _, status: _ } => 14,
        Refusal::ReadingsFull => 15,
        Refusal::WindowsGone => 16,
        Refusal::UnsupportedRunMode => 17,
        Refusal::ModeNotReached(_) => 18,
        Refusal::NewDeviceIdZero => 19,
        Refusal::ReadingOfAnotherKind => 20,
        Refusal::NothingRunning => 21,
        Refusal::NotPingReply => 22,
        Refusal::NotVersionReply => 23,
    }
}
