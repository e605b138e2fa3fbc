// Digests of a year over every pattern of month and day that an entry can hold, real dates or not.
ghost use Rattle.std.specs.Prelude.{◌≡◌, ◌≤◌, ◌<◌};
ghost use Rattle.sheets.specs.Licences.{HasNeighbours};
ghost use Rattle.sheets.specs.Dates.{entry_of, with_number, with_state, with_states, with_date};
ghost use Rattle.sheets.specs.Dates.{year_digests};

use crate::digest::{mix, with_answer};
use crate::licences::{date, with_end, with_renewals};
use crate::sums::{Sums, with_sums};
use calendar::Date;

// States 1 to 3, and one too low and one too high.
const STATES: u8 = 5;

// Months 0 to 15, days 0 to 31.
const PATTERNS: u16 = 512;

// A year's digests: day numbers, renewals, days left with verdicts, two renewals beside one by the sum.
#[derive(Clone, Copy, Default)]
pub struct Digests {
    pub numbers: u64,
    pub renewals: u64,
    pub verdicts: u64,
    pub sums: Sums,
}

// An entry that ends on a date, with copies that change from date to date.
fn entry(end: Date, state: u8) -> u64
    ensures { result ≡ entry_of end state }
{
    let year = u64::from(end.year);
    let month = u64::from(end.month);
    let day = u64::from(end.day);
    ((year * 16 + month) * 32 + day) * 524288 + (month * 4000 + day) * 8 + u64::from(state)
}

#[tactic(auto, unfolding(crate::specs::Dates::with_number))]
fn with_number(digest: u64, on: Date) -> u64
    ensures { result ≡ with_number on digest }
{
    with_answer(
        digest,
        calendar::day_number(on),
        |before, number| mix(before, u64::from(number)),
    )
}

// All but the day number, for one entry.
#[tactic(auto, unfolding(crate::specs::Dates::with_state))]
fn with_state(digests: Digests, end: Date, state: u8) -> Digests
    requires { HasNeighbours end }
    ensures { result ≡ with_state end state digests }
{
    let given = entry(end, state);
    Digests {
        renewals: with_renewals(digests.renewals, given),
        verdicts: with_end(digests.verdicts, given, end),
        sums: with_sums(digests.sums, given),
        ..digests
    }
}

#[tactic(auto, unfolding(crate::specs::Digest::in_turn))]
fn with_states(digests: Digests, end: Date) -> Digests
    requires { HasNeighbours end }
    ensures { result ≡ with_states end digests }
{
    (0..STATES).fold(digests, |before, state| with_state(before, end, state))
}

fn with_date(digests: Digests, end: Date) -> Digests
    requires { HasNeighbours end }
    ensures { result ≡ with_date end digests }
{
    Digests {
        numbers: with_number(digests.numbers, end),
        ..with_states(digests, end)
    }
}

#[tactic(auto, unfolding(crate::specs::Digest::in_turn))]
pub fn of_year(year: u16) -> Digests
    requires le_year { 1 ≤ year }
    requires year_bound { year < 65535 }
    ensures { result ≡ year_digests year }
{
    (0..PATTERNS).fold(
        Digests::default(),
        |before, i| with_date(before, date(year, (i / 32) as u8, (i % 32) as u8)),
    )
}
