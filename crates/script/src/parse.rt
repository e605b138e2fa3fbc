// What a line says: a setup, a step, or nothing that can be read. Every function is total on any bytes.
ghost use Rattle.std.specs.Prelude.{◌≡◌, ◌≤◌, cond, length};
ghost use Rattle.script.specs.Numbers.{is_digit, is_hex_digit, hex_value, number_in, hex_in};
ghost use Rattle.script.specs.Grammar.{is_mark, marks_in, line_of, arguments_of};
ghost use Rattle.script.specs.Grammar.{number_after, entry_after, message_after, marks_after};
ghost use Rattle.script.specs.Grammar.{leading_of, last_of, Cut};

use crate::lines::place_of;
use basics::OVER_32;
use message::{ENTRY_BITS, Entry, HEAD_BYTES, MESSAGE_BYTES, Words};
use register::{MOST_SERVERS, Setup, Step};

// No line of more bytes can be read.
pub const LINE_BYTES: usize = 64;

// The digits of a number, at most.
const NUMBER_DIGITS: usize = 7;

// The hexadecimal digits of an entry, of four bits each, of a message, and of a message's high 24 bits.
pub const ENTRY_DIGITS: usize = ENTRY_BITS as usize / 4;

pub const MESSAGE_DIGITS: usize = 2 * MESSAGE_BYTES;

const HIGH_DIGITS: usize = 2 * HEAD_BYTES;

// The marks of an S, at most.
const MARKS: usize = MOST_SERVERS as usize;

// What a line says, if it can be read.
#[derive(Clone, Copy)]
pub enum Line {
    Setup(Setup),
    Do(Step),
}

// A number at the start of a text, and where the text behind the blank after it begins.
#[derive(Clone, Copy)]
pub struct First {
    pub value: u32,
    pub next: usize,
}

pub fn is_digit(byte: u8) -> bool
    ensures { result ≡ is_digit byte }
{
    byte.is_ascii_digit()
}

fn is_mark(byte: u8) -> bool
    ensures { result ≡ is_mark byte }
{
    byte == b'0' || byte == b'1'
}

// The value of a hexadecimal digit, or 16. Written as a match, it makes the program 4 in 100 slower.
fn hex_value(byte: u8) -> u64
    ensures { result ≡ cond (is_hex_digit byte) (hex_value byte) 16 }
{
    if is_digit(byte) {
        (byte - b'0') as u64
    } else if b'A' <= byte && byte <= b'F' {
        (byte - b'A' + 10) as u64
    } else {
        16
    }
}

// A number of 1 to 7 digits.
fn number_in(text: &[u8]) -> Option<u32>
    ensures { result ≡ number_in text.now }
{
    if text.len() < 1 {
        return None;
    }
    if NUMBER_DIGITS < text.len() {
        return None;
    }
    let mut value: u32 = 0;
    for byte in text {
        if !is_digit(*byte) {
            return None;
        }
        value = value * 10 + (*byte - b'0') as u32;
    }
    Some(value)
}

// A number of as many hexadecimal digits as the text has, at most 16. Which digit comes next cannot be
// foreseen, so no byte ends the loop: `bad` stays below 16 where each is a digit.
fn hex_in(text: &[u8]) -> Option<u64>
    requires { length text.now ≤ 16 }
    ensures { result ≡ hex_in (length text.now) text.now }
{
    let mut value: u64 = 0;
    let mut bad: u64 = 0;
    for byte in text {
        let digit = hex_value(*byte);
        bad |= digit;
        value = value * 16 + digit % 16;
    }
    if bad < 16 { Some(value) } else { None }
}

// Marks: server k's is bit k - 1.
fn marks_in(text: &[u8]) -> Option<u32>
    ensures { result ≡ marks_in text.now }
{
    if text.len() < 1 {
        return None;
    }
    if MARKS < text.len() {
        return None;
    }
    let mut value: u32 = 0;
    for i in (0..text.len()).rev() {
        let byte = text[i];
        if !is_mark(byte) {
            return None;
        }
        value = (byte - b'0') as u32 + 2 * value;
    }
    Some(value)
}

// A number and a blank at the start of a text.
#[tactic(auto, using(crate::proofs::Readers::cut_none, crate::proofs::Readers::cut_at, crate::proofs::Readers::cut_no_number))]
fn first_number(text: &[u8]) -> Option<First>
    ensures { Cut result text.now }
{
    let end = place_of(b' ', text);
    if text.len() <= end {
        return None;
    }
    let value = number_in(&text[..end])?;
    Some(First {
        value: value,
        next: end + 1,
    })
}

// A line that ends with a number, behind earlier if there is a number before it.
fn number_after(letter: u8, earlier: u32, text: &[u8]) -> Option<Line>
    ensures { result ≡ number_after letter earlier text.now }
{
    let value = number_in(text)?;
    let step = match letter {
        b'R' => Step::R(value),
        b'C' => Step::C(value),
        b'K' => Step::K(earlier, value),
        b'D' => Step::D(earlier, value),
        _ => return None,
    };
    Some(Line::Do(step))
}

// An entry behind a client.
#[tactic(auto, unfolding(crate::specs::Numbers::hex_in))]
fn entry_after(d: u32, text: &[u8]) -> Option<Line>
    ensures { result ≡ entry_after d text.now }
{
    if text.len() != ENTRY_DIGITS {
        return None;
    }
    let value = hex_in(text)?;
    Some(Line::Do(Step::W(d, Entry(value))))
}

// A message behind a server and a client. Its first 6 digits are the high 24 bits, the other 16 the low 64.
#[tactic(auto, using(crate::proofs::Halves::first_none, crate::proofs::Halves::second_none), unfolding(crate::specs::Numbers::hex_in))]
pub fn message_after(k: u32, d: u32, text: &[u8]) -> Option<Line>
    ensures { result ≡ message_after k d text.now }
{
    if text.len() != MESSAGE_DIGITS {
        return None;
    }
    let high = hex_in(&text[..HIGH_DIGITS])?;
    let low = hex_in(&text[HIGH_DIGITS..])?;
    Some(Line::Do(Step::L(k, d, Words((high % OVER_32) as u32, low))))
}

// Marks behind f, n and the number of clients.
fn marks_after(f: u32, n: u32, clients: u32, text: &[u8]) -> Option<Line>
    ensures { result ≡ marks_after f n clients text.now }
{
    let faulty = marks_in(text)?;
    Some(Line::Setup(Setup {
        f,
        n,
        clients,
        faulty,
    }))
}

// How many numbers stand before the last argument of a line.
fn leading(letter: u8) -> usize
    ensures { result ≡ leading_of letter }
{
    match letter {
        b'S' => 3,
        b'L' => 2,
        b'W' => 1,
        b'K' => 1,
        b'D' => 1,
        _ => 0,
    }
}

// The line of a letter, the last three numbers before the last argument, and that argument.
fn last_argument(letter: u8, earliest: u32, earlier: u32, later: u32, text: &[u8]) -> Option<Line>
    ensures { result ≡ last_of letter earliest earlier later text.now }
{
    match letter {
        b'S' => marks_after(earliest, earlier, later, text),
        b'L' => message_after(earlier, later, text),
        b'W' => entry_after(later, text),
        _ => number_after(letter, later, text),
    }
}

// The line of a letter and what stands behind its blank.
#[tactic(auto, using(crate::proofs::Readers::none_read, crate::proofs::Readers::all_read), unfolding(crate::specs::Grammar::arguments_of))]
fn arguments(letter: u8, text: &[u8]) -> Option<Line>
    ensures { result ≡ arguments_of letter text.now }
{
    let mut earliest = 0;
    let mut earlier = 0;
    let mut later = 0;
    let mut at = 0;
    for _number in 0..leading(letter) {
        let first = first_number(&text[at..])?;
        earliest = earlier;
        earlier = later;
        later = first.value;
        at += first.next;
    }
    last_argument(letter, earliest, earlier, later, &text[at..])
}

// What a line says.
#[tactic(auto, using(crate::proofs::Readers::rest_is), unfolding(crate::specs::Grammar::line_of))]
pub fn parse(text: &[u8]) -> Option<Line>
    ensures { result ≡ line_of text.now }
{
    if text.len() < 3 {
        return None;
    }
    if LINE_BYTES < text.len() {
        return None;
    }
    if text[1] != b' ' {
        return None;
    }
    arguments(text[0], &text[2..])
}
