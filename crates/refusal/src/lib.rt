// The refusals, each with its number in paper 01's table. What refuses answers a `Result` with this error.
#![tactic(auto)]

ghost use Rattle.std.specs.Prelude.{◌≡◌};
ghost use Rattle.refusal.specs.Numbers.{number_of};

// In the order of the table; the paper's word stands behind each.
#[derive(Clone, Copy, Debug, PartialEq, Eq)]
pub enum Refusal {
    BadSettings, // 1 no such room
    TooManyFaulty, // 2 too many liars
    Unsound, // 3 spoiled
    NoSuchProcess, // 4 nobody there
    WrongRole, // 5 wrong hat
    Stopped, // 6 gone home
    Busy, // 7 at work
    NoEntry, // 8 no such entry
    Malformed, // 9 misprint
    EmptyChannel, // 10 empty tray
    Exhausted, // 11 numbers used up
    FullChannel, // 12 full tray
    ShortBuffer, // 13 short sheet
}

// The refusal's number in the table.
impl From<Refusal> for u8 {
    ghost from_gives = { λ why number. number ≡ number_of why };

    fn from(why: Refusal) -> u8 {
        match why {
            Refusal::BadSettings => 1,
            Refusal::TooManyFaulty => 2,
            Refusal::Unsound => 3,
            Refusal::NoSuchProcess => 4,
            Refusal::WrongRole => 5,
            Refusal::Stopped => 6,
            Refusal::Busy => 7,
            Refusal::NoEntry => 8,
            Refusal::Malformed => 9,
            Refusal::EmptyChannel => 10,
            Refusal::Exhausted => 11,
            Refusal::FullChannel => 12,
            Refusal::ShortBuffer => 13,
        }
    }
}
