// Digests of two renewals, one after the other, and of where one by the sum of their years differs (C-12).
ghost use Rattle.std.specs.Prelude.{◌≡◌, ◌+◌, ◌≤◌};
ghost use Rattle.licence.specs.Renewal.{most_years};
ghost use Rattle.sheets.specs.Sums.{answer_number, with_years, with_seconds, with_sums};

use crate::digest::{mix, refusal_number};
use licence::MOST_YEARS;
use refusal::Refusal;

// Digests of what two renewals give, and of 1 where one by the sum differs, else 0: it is 0 while none does.
#[derive(Clone, Copy, Default)]
pub struct Sums {
    pub twice: u64,
    pub differing: u64,
}

// The entry, which is above every refusal's number, or the refusal's.
fn answer_number(answer: Result<u64, Refusal>) -> u64
    ensures { result ≡ answer_number answer }
{
    answer.unwrap_or_else(refusal_number)
}

#[tactic(auto, unfolding(crate::specs::Sums::with_years))]
fn with_years(sums: Sums, entry: u64, first: u8, second: u8) -> Sums
    requires { first + second ≤ most_years }
    ensures { result ≡ with_years entry first second sums }
{
    let renewed = licence::renew(entry, first).and_then(|renewed| licence::renew(renewed, second));
    let twice = answer_number(renewed);
    let once = answer_number(licence::renew(entry, first + second));
    Sums {
        twice: mix(sums.twice, twice),
        differing: mix(sums.differing, u64::from(twice != once)),
    }
}

#[tactic(auto, unfolding(crate::specs::Digest::in_turn))]
fn with_seconds(sums: Sums, entry: u64, first: u8) -> Sums
    requires { first ≤ most_years }
    ensures { result ≡ with_seconds entry first sums }
{
    (0..MOST_YEARS - first).fold(sums, |before, i| with_years(before, entry, first, i + 1))
}

#[tactic(auto, unfolding(crate::specs::Digest::in_turn, crate::specs::Sums::with_sums))]
pub fn with_sums(sums: Sums, entry: u64) -> Sums
    ensures { result ≡ with_sums entry sums }
{
    (0..MOST_YEARS - 1).fold(sums, |before, i| with_seconds(before, entry, i + 1))
}
