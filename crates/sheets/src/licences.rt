// Digests of what the crate `licence` answers about one entry.
ghost use Rattle.std.specs.Prelude.{◌≡◌, ◌≤◌, ◌<◌};
ghost use Rattle.sheets.specs.Licences.{with_renewal, with_renewals, with_days, with_verdict, with_day};
ghost use Rattle.sheets.specs.Licences.{near, month_before, years_beside, with_end, HasNeighbours};
ghost use Rattle.calendar.specs.Order.{date};

use crate::digest::{mix, raise, refusal_number, with_answer};
use calendar::Date;
use licence::{MOST_YEARS, Verdict};

// Lengths from 0 to the most, and one too many.
const LENGTHS: u8 = MOST_YEARS + 2;

#[tactic(auto, unfolding(crate::specs::Licences::with_renewal))]
fn with_renewal(digest: u64, entry: u64, years: u8) -> u64
    ensures { result ≡ with_renewal entry years digest }
{
    with_answer(digest, licence::renew(entry, years), mix)
}

#[tactic(auto, unfolding(crate::specs::Digest::in_turn))]
pub fn with_renewals(digest: u64, entry: u64) -> u64
    ensures { result ≡ with_renewals entry digest }
{
    (0..LENGTHS).fold(digest, |before, years| with_renewal(before, entry, years))
}

#[tactic(auto, unfolding(crate::specs::Licences::with_days))]
fn with_days(digest: u64, entry: u64, on: Date) -> u64
    ensures { result ≡ with_days entry on digest }
{
    with_answer(
        digest,
        licence::days_left(entry, on),
        |before, days| mix(before, raise(days)),
    )
}

#[tactic(auto, unfolding(crate::specs::Licences::with_verdict))]
fn with_verdict(digest: u64, entry: u64, on: Date) -> u64
    ensures { result ≡ with_verdict entry on digest }
{
    match licence::verdict_on(entry, on) {
        Ok(Verdict::Pulp) => mix(digest, 20),
        Ok(Verdict::Hold) => mix(digest, 21),
        Ok(Verdict::Print) => mix(digest, 22),
        Err(why) => mix(digest, refusal_number(why)),
    }
}

// Days left and verdict on a day. A digest goes first, as in a fold; an entry and a day are what it is of.
fn with_day(digest: u64, entry: u64, on: Date) -> u64
    ensures { result ≡ with_day entry on digest }
{
    with_verdict(with_days(digest, entry, on), entry, on)
}

// A date, or three numbers that are none.
pub fn date(year: u16, month: u8, day: u8) -> Date
    ensures { result ≡ date year month day }
{
    Date { year, month, day }
}

// A day and its neighbours in the month.
fn near_day(digest: u64, entry: u64, on: Date) -> u64
    requires { HasNeighbours on }
    ensures { result ≡ near entry on digest }
{
    let before = with_day(
        digest,
        entry,
        date(on.year, on.month, on.day.saturating_sub(1)),
    );
    let upon = with_day(before, entry, on);
    with_day(upon, entry, date(on.year, on.month, on.day + 1))
}

// The days 28 to 31 of the month before, some of which are none.
fn month_before(digest: u64, entry: u64, on: Date) -> u64
    ensures { result ≡ month_before entry on digest }
{
    let last = on.month.saturating_sub(1);
    (28..32).fold(
        digest,
        |before, day| with_day(before, entry, date(on.year, last, day)),
    )
}

// The first of the next month, the last day of the year before, the first of the year after.
fn years_beside(digest: u64, entry: u64, on: Date) -> u64
    requires { HasNeighbours on }
    ensures { result ≡ years_beside entry on digest }
{
    let first = with_day(digest, entry, date(on.year, on.month + 1, 1));
    let last = with_day(first, entry, date(on.year - 1, 12, 31));
    with_day(last, entry, date(on.year + 1, 1, 1))
}

// Days left and verdicts around the end of an entry.
pub fn with_end(digest: u64, entry: u64, on: Date) -> u64
    requires { HasNeighbours on }
    ensures { result ≡ with_end entry on digest }
{
    let near = near_day(digest, entry, on);
    let before = month_before(near, entry, on);
    years_beside(before, entry, on)
}
