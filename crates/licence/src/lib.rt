// A licence entry of forty bits: its fields, its kind, renewal, days left and verdict (01, section 'Entry and
// calendar'; 02, C-12).
#![tactic(auto)]

ghost use Rattle.std.specs.Prelude.{◌≡◌, ◌^◌, ◌<◌, pos, ◌-ℤ◌};
ghost use Rattle.licence.specs.Entry.{fields_of, joined, Narrow, is_licensed, is_licence, kind_of};
ghost use Rattle.licence.specs.Entry.{joined_of};
ghost use Rattle.licence.specs.Renewal.{span, last_of_february, kept_day, later, renewed_of};
ghost use Rattle.licence.specs.Verdict.{days_left, end_of, verdict_by, verdict_of};

use calendar::Date;
use refusal::Refusal;

// Where each field stands, and the mask of its width.
const YEAR_AT: u64 = 28;

const YEAR_MASK: u64 = 0xFFF;

const MONTH_AT: u64 = 24;

const MONTH_MASK: u64 = 0xF;

const DAY_AT: u64 = 19;

const DAY_MASK: u64 = 0x1F;

const COPIES_AT: u64 = 3;

const COPIES_MASK: u64 = 0xFFFF;

const STATE_MASK: u64 = 0x7;

const LARGEST: u64 = 0xFF_FFFF_FFFF;

const EMPTY: u64 = 0;

const OPEN: u8 = 1;

const SUSPENDED: u8 = 2;

const WITHDRAWN: u8 = 3;

// The most years that a renewal adds.
pub const MOST_YEARS: u8 = 10;

const FEBRUARY: u8 = 2;

// The fields of an entry. The date is the licence's last day.
#[derive(Clone, Copy)]
pub struct Fields {
    pub year: u16,
    pub month: u8,
    pub day: u8,
    pub copies: u16,
    pub state: u8,
}

pub fn split(entry: u64) -> Fields
    ensures { result ≡ fields_of entry }
{
    Fields {
        year: ((entry >> YEAR_AT) & YEAR_MASK) as u16,
        month: ((entry >> MONTH_AT) & MONTH_MASK) as u8,
        day: ((entry >> DAY_AT) & DAY_MASK) as u8,
        copies: ((entry >> COPIES_AT) & COPIES_MASK) as u16,
        state: (entry & STATE_MASK) as u8,
    }
}

// The entry of fields that are within their widths.
fn packed(fields: Fields) -> u64
    requires { Narrow fields }
    ensures { result ≡ joined fields }
{
    ((fields.year as u64) << YEAR_AT)
        | ((fields.month as u64) << MONTH_AT)
        | ((fields.day as u64) << DAY_AT)
        | ((fields.copies as u64) << COPIES_AT)
        | (fields.state as u64)
}

// The licence's last day.
fn end_of(fields: Fields) -> Date
    ensures { result ≡ end_of fields }
{
    Date {
        year: fields.year,
        month: fields.month,
        day: fields.day,
    }
}

// Whether fields are those of a licence.
fn is_licensed(fields: Fields) -> bool
    ensures { result ≡ is_licensed fields }
{
    if !calendar::is_date(end_of(fields)) {
        return false;
    }
    if fields.state < OPEN {
        return false;
    }
    fields.state <= WITHDRAWN
}

pub fn is_licence(entry: u64) -> bool
    ensures { result ≡ is_licence entry }
{
    if LARGEST < entry {
        return false;
    }
    is_licensed(split(entry))
}

// What a value is: every one is exactly one of these.
#[derive(Clone, Copy)]
pub enum Kind {
    Licence,
    Empty,
    Nothing,
}

pub fn kind_of(entry: u64) -> Kind
    ensures { result ≡ kind_of entry }
{
    if is_licence(entry) {
        return Kind::Licence;
    }
    if entry == EMPTY {
        return Kind::Empty;
    }
    Kind::Nothing
}

// The entry of some fields.
pub fn join(fields: Fields) -> Result<u64, Refusal>
    ensures { result ≡ joined_of fields }
{
    if !is_licensed(fields) {
        return Err(Refusal::NoEntry);
    }
    Ok(packed(fields))
}

// The years that a renewal adds.
fn years_added(years: u8) -> u8
    ensures { result ≡ span years }
{
    if years == 0 { 1 } else { years }
}

// The last day of February in a year.
fn last_of_february(year: u16) -> u8
    ensures { result ≡ last_of_february year }
{
    if calendar::is_leap(year) { 29 } else { 28 }
}

// The day that the end falls on in another year.
fn kept_day(fields: Fields, year: u16) -> u8
    ensures { result ≡ kept_day fields year }
{
    if fields.month == FEBRUARY && fields.day == last_of_february(fields.year) {
        return last_of_february(year);
    }
    fields.day
}

// The fields with their end in another year.
fn moved(fields: Fields, year: u16) -> Fields
    ensures { result ≡ later fields year }
{
    Fields {
        year,
        day: kept_day(fields, year),
        ..fields
    }
}

// The entry renewed by some years.
pub fn renew(entry: u64, years: u8) -> Result<u64, Refusal>
    ensures { result ≡ renewed_of entry years }
{
    if !is_licence(entry) {
        return Err(Refusal::NoEntry);
    }
    if MOST_YEARS < years {
        return Err(Refusal::NoEntry);
    }
    let fields = split(entry);
    let year = fields.year + years_added(years) as u16;
    if calendar::LAST_YEAR < year {
        return Err(Refusal::NoEntry);
    }
    Ok(packed(moved(fields, year)))
}

// The days from one day number to another, which the calendar keeps far below 2 ^ 31.
fn difference(last: u32, today: u32) -> i32
    requires { (last < 2 ^ 31) × (today < 2 ^ 31) }
    ensures { result ≡ pos last -ℤ pos today }
{
    (last as i32) - (today as i32)
}

// The days from a day to the licence's last: 0 on the last, negative afterwards.
pub fn days_left(entry: u64, on: Date) -> Result<i32, Refusal>
    ensures { result ≡ days_left entry on.year on.month on.day }
{
    if !is_licence(entry) {
        return Err(Refusal::NoEntry);
    }
    let last = calendar::day_number(end_of(split(entry)))?;
    let today = calendar::day_number(on)?;
    Ok(difference(last, today))
}

// What to do with the copies on a day.
#[derive(Clone, Copy, Debug, PartialEq, Eq)]
pub enum Verdict {
    Pulp,
    Hold,
    Print,
}

#[tactic(auto, unfolding(crate::specs::Verdict::verdict_by))]
fn judge(left: i32, state: u8) -> Verdict
    ensures { result ≡ verdict_by left state }
{
    if left < 0 {
        return Verdict::Pulp;
    }
    if state == WITHDRAWN {
        return Verdict::Pulp;
    }
    if state == SUSPENDED {
        return Verdict::Hold;
    }
    Verdict::Print
}

pub fn verdict_on(entry: u64, on: Date) -> Result<Verdict, Refusal>
    ensures { result ≡ verdict_of entry on.year on.month on.day }
{
    let left = days_left(entry, on)?;
    Ok(judge(left, split(entry).state))
}
