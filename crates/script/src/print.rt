// The line that is printed for a line of the script. Each function writes a text into a lent buffer and
// answers where it ends.
// No `impl Display`: a formatter appends to a writer, but `put_numeral` also writes up to five bytes behind its text.
ghost use Rattle.std.specs.Prelude.{◌≡◌, ◌+◌, ◌/◌, ◌%◌, ◌≤◌, ◌<◌, length, set};
ghost use Rattle.basics.specs.Digits.{hex_digit};
ghost use Rattle.script.specs.Numbers.{digits_of, digit_count, decimal};
ghost use Rattle.script.specs.Numerals.{next_number, numeral_of};
ghost use Rattle.script.specs.Printed.{spaced, pair_text, pair_line, answer_line};
ghost use Rattle.script.specs.Printed.{behind_number, printed, Shown, longest_number, longest_output};
ghost use Rattle.script.specs.Writing.{Written, Begun};

use crate::parse::ENTRY_DIGITS;
use basics::hex_digit;
use message::Pair;
use refusal::Refusal;
use register::Answer;

// What the program says of a line: that it set up, that the line is unreadable, or the answer of its step.
#[derive(Clone, Copy)]
pub enum Output {
    Set,
    Unread,
    Answered(Result<Answer, Refusal>),
}

// No printed line is longer.
pub const PRINTED_BYTES: usize = 80;

// The least number of seven digits.
const SEVEN_DIGITS: u64 = 1000000;

// How many decimal digits a number has, by powers of ten, which are quicker than divisions. The 20th does not
// fit 64 bits.
fn digit_count(value: u64) -> usize
    ensures { result ≡ digit_count 19 value }
{
    let mut count = 1;
    let mut power: u64 = 10;
    // No `for`: it goes by the powers.
    while power <= value {
        count += 1;
        if count == 20 {
            return count;
        }
        power = power * 10;
    }
    count
}

// The last `count` hexadecimal digits of a number, the last one first.
fn put_digits(out: &mut [u8], at: usize, count: usize, value: u64) -> usize
    requires { at + count ≤ length out.old }
    ensures { Written (digits_of 16 count value) out.old at result out.new }
{
    let mut rest = value;
    for i in (0..count).rev() {
        out[at + i] = hex_digit(rest % 16);
        rest = rest / 16;
    }
    at + count
}

// The two decimal digits of a number below 100, the last one first.
fn put_two(out: &mut [u8], at: usize, two: u8)
    requires { (at + 2 ≤ length out.old) × (two < 100) }
    ensures { out.new
        ≡ set (set out.old (at + 1) (hex_digit (two % 10))) at (hex_digit (two / 10)) }
{
    out[at + 1] = b'0' + two % 10;
    out[at] = b'0' + two / 10;
}

// Two digits at a time, the last ones first; the first digit stands alone where their number is odd.
fn put_decimal(out: &mut [u8], at: usize, value: u64) -> usize
    requires { at + length (decimal value) ≤ length out.old }
    ensures { Written (decimal value) out.old at result out.new }
{
    let count = digit_count(value);
    let mut rest = value;
    let mut i = count;
    // No `for`: the place goes down by two, and one digit may be left.
    while 1 < i {
        i -= 2;
        put_two(out, at + i, (rest % 100) as u8);
        rest = rest / 100;
    }
    if i == 1 {
        out[at] = b'0' + (rest % 10) as u8;
    }
    at + count
}

#[tactic(auto, using(std::proofs::lemmas::List::Edits::paste_more))]
fn put_text(out: &mut [u8], at: usize, text: &[u8]) -> usize
    requires { at + length text.now ≤ length out.old }
    ensures { Written text.now out.old at result out.new }
{
    // With `copy_from_slice` the program takes 2 in 100 more instructions.
    for i in 0..text.len() {
        out[at + i] = text[i];
    }
    at + text.len()
}

fn put_spaced(out: &mut [u8], at: usize, value: u64) -> usize
    requires { at + 21 ≤ length out.old }
    ensures { Written (spaced value) out.old at result out.new }
{
    let next = put_text(out, at, b" ");
    put_decimal(out, next, value)
}

fn put_pair(out: &mut [u8], at: usize, pair: Pair) -> usize
    requires { at + 53 ≤ length out.old }
    ensures { Written (pair_text pair) out.old at result out.new }
{
    let counter_end = put_spaced(out, at, u64::from(message::counter_of(pair)));
    let client_end = put_spaced(out, counter_end, message::client_of(pair) as u64);
    let next = put_text(out, client_end, b" ");
    put_digits(out, next, ENTRY_DIGITS, message::entry_of(pair).0)
}

// A pair and the line's end, behind its word.
fn put_paired(out: &mut [u8], at: usize, word: &[u8], pair: Pair) -> usize
    requires { at + length word.now + 54 ≤ length out.old }
    ensures { Written (pair_line word.now pair) out.old at result out.new }
{
    let word_end = put_text(out, at, word);
    let pair_end = put_pair(out, word_end, pair);
    put_text(out, pair_end, b"\n")
}

fn put_refused(out: &mut [u8], at: usize, why: Refusal) -> usize
    requires { at + 30 ≤ length out.old }
    ensures { Written (answer_line (Err why)) out.old at result out.new }
{
    let word_end = put_text(out, at, b" REFUSED");
    let number_end = put_spaced(out, word_end, u8::from(why) as u64);
    put_text(out, number_end, b"\n")
}

fn put_answer(out: &mut [u8], at: usize, answer: Result<Answer, Refusal>) -> usize
    requires { at + longest_output ≤ length out.old }
    ensures { Written (answer_line answer) out.old at result out.new }
{
    match answer {
        Ok(Answer::Went) => put_text(out, at, b" WENT\n"),
        Ok(Answer::Read(pair)) => put_paired(out, at, b" READ", pair),
        Ok(Answer::Wrote(pair)) => put_paired(out, at, b" WROTE", pair),
        Ok(Answer::Spent) => put_text(out, at, b" SPENT\n"),
        Err(why) => put_refused(out, at, why),
    }
}

// What stands behind the line's number.
pub fn put_output(out: &mut [u8], at: usize, what: Output) -> usize
    requires { at + longest_output ≤ length out.old }
    ensures { Written (behind_number what) out.old at result out.new }
{
    match what {
        Output::Set => put_text(out, at, b" SET\n"),
        Output::Unread => put_text(out, at, b" UNREAD\n"),
        Output::Answered(answer) => put_answer(out, at, answer),
    }
}

// ---- the line's number, with its text kept from one line to the next

// A number of 3 to 8 digits with the digits of its hundreds, number / 100, and how many they are. Of another number
// none are kept. They stand in an array, which is written whole at once, and no longer text. The last two digits,
// number % 100, are kept as a number: to divide costs more.
#[derive(Clone, Copy)]
pub struct Numeral {
    pub number: u64,
    pub text: [u8; 8],
    pub kept: usize,
    pub last_two: u8,
}

#[tactic(auto, using(crate::proofs::Hundreds::kept_none), unfolding(crate::specs::Numerals::numeral_of))]
pub fn numeral_of(value: u64) -> Numeral
    ensures { result ≡ numeral_of value }
{
    let hundreds = value / 100;
    let last_two = (value % 100) as u8;
    let mut text = [0u8; 8];
    let mut kept = 0;
    if 0 < hundreds && hundreds < SEVEN_DIGITS {
        kept = put_decimal(&mut text, 0, hundreds);
    }
    Numeral {
        number: value,
        text: text,
        kept: kept,
        last_two: last_two,
    }
}

// The hundreds are the same but once in a hundred numbers. No run counts so far that the last number matters.
pub fn next_numeral(numeral: Numeral) -> Numeral
    requires { numeral ≡ numeral_of numeral.number }
    ensures { result ≡ numeral_of (next_number numeral.number) }
{
    if u64::MAX <= numeral.number {
        return numeral;
    }
    let number = numeral.number + 1;
    if 99 <= numeral.last_two {
        return numeral_of(number);
    }
    let text = numeral.text;
    Numeral {
        number: number,
        text: text,
        kept: numeral.kept,
        last_two: numeral.last_two + 1,
    }
}

// Writes the number from `at` on. All eight bytes of the text are written at once, so up to five bytes behind
// the number may change.
pub fn put_numeral(out: &mut [u8], at: usize, numeral: Numeral) -> usize
    requires { (numeral ≡ numeral_of numeral.number) × (at + longest_number ≤ length out.old) }
    ensures { Begun (decimal numeral.number) out.old at result out.new }
{
    if numeral.kept < 1 {
        return put_decimal(out, at, numeral.number);
    }
    let text = numeral.text;
    put_text(out, at, &text);
    let kept_end = at + numeral.kept;
    put_two(out, kept_end, numeral.last_two);
    kept_end + 2
}

// The line of a number, at the start of a buffer; the answer is its length. A buffer that could be too short
// stays as it is.
pub fn print(out: &mut [u8], number: u64, what: Output) -> usize
    ensures { Shown (printed number what) out.old result out.new }
{
    if out.len() < PRINTED_BYTES {
        return 0;
    }
    let number_end = put_numeral(out, 0, numeral_of(number));
    put_output(out, number_end, what)
}
