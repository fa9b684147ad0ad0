// Why a call is refused (document 01, Refusal numbers and their order; document 02, W7).
#![tactic(auto)]

ghost use Rattle.std.specs.Prelude.{◌≡◌};
ghost use Rattle.refusals.specs.Refusals.{number_of};

// In the order of their numbers, 1 to 11.
#[derive(Clone, Copy, Debug, PartialEq, Eq)]
pub enum Refusal {
    WrongLength,
    Damaged,
    OutOfRange,
    TooLong,
    TallyFull,
    HalfReceived,
    WrongMode,
    UserOnMove,
    NoCharacter,
    NoRoom,
    Lost,
}

// The number by which the paper names it.
impl From<Refusal> for u32 {
    ghost from_gives = { λ refusal number. number ≡ number_of refusal };

    fn from(refusal: Refusal) -> u32 {
        match refusal {
            Refusal::WrongLength => 1,
            Refusal::Damaged => 2,
            Refusal::OutOfRange => 3,
            Refusal::TooLong => 4,
            Refusal::TallyFull => 5,
            Refusal::HalfReceived => 6,
            Refusal::WrongMode => 7,
            Refusal::UserOnMove => 8,
            Refusal::NoCharacter => 9,
            Refusal::NoRoom => 10,
            Refusal::Lost => 11,
        }
    }
}
