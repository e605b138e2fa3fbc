// The Gregorian calendar from 1900 to 2199: leap years, real dates, day numbers (01, section 'Entry and
// calendar').
#![tactic(auto)]

ghost use Rattle.std.specs.Prelude.{◌≡◌, ◌<◌};
ghost use Rattle.calendar.specs.Calendar.{year_count, leap, first_day, month_length, days_before};
ghost use Rattle.calendar.specs.Calendar.{is_date, day_number};

mod tables;

use refusal::Refusal;
use tables::{DAYS_BEFORE, FIRST_DAY};

pub const FIRST_YEAR: u16 = 1900;

pub const LAST_YEAR: u16 = 2199;

// Three numbers, which may be a date or not. Months and days are counted from 1.
#[derive(Clone, Copy, PartialEq, Eq)]
pub struct Date {
    pub year: u16,
    pub month: u8,
    pub day: u8,
}

pub fn is_leap(year: u16) -> bool
    ensures { result ≡ leap year }
{
    if year % 4 != 0 {
        return false;
    }
    if year % 100 != 0 {
        return true;
    }
    year % 400 == 0
}

// Months are counted from 1.
fn month_length(leap: bool, month: u8) -> u8
    ensures { result ≡ month_length leap month }
{
    match month {
        2 => if leap { 29 } else { 28 },
        4 | 6 | 9 | 11 => 30,
        _ => 31,
    }
}

// The day number of 1 January, so many years after the first.
fn first_day(years: usize) -> u32
    requires { years < year_count }
    ensures { result ≡ first_day years }
{
    FIRST_DAY[years]
}

// The days before a month, whose places in the table are counted from 0.
fn days_before(leap: bool, place: usize) -> u16
    requires { place < 12 }
    ensures { result ≡ days_before leap place }
{
    DAYS_BEFORE[leap as usize][place]
}

pub fn is_date(given: Date) -> bool
    ensures { result ≡ is_date given.year given.month given.day }
{
    let Date { year, month, day } = given;
    if year < FIRST_YEAR || LAST_YEAR < year {
        return false;
    }
    if month < 1 || 12 < month {
        return false;
    }
    if day < 1 {
        return false;
    }
    day <= month_length(is_leap(year), month)
}

// The number of a day, 1 for 1 January 1900, or the refusal of what is no date.
pub fn day_number(given: Date) -> Result<u32, Refusal>
    ensures { result ≡ day_number given.year given.month given.day }
{
    if !is_date(given) {
        return Err(Refusal::NoEntry);
    }
    let Date { year, month, day } = given;
    let first = first_day((year - FIRST_YEAR) as usize);
    let before = days_before(is_leap(year), (month - 1) as usize) as u32;
    Ok(first + before + (day - 1) as u32)
}
