// The next line of a text: where it ends, and what it says. The commonest, K, D and L with short numbers, are
// read at once.
ghost use Rattle.std.specs.Prelude.{◌≡◌, ◌+◌, ◌≤◌, true, length, IfSome};
ghost use Rattle.script.specs.Numbers.{is_digit};
ghost use Rattle.script.specs.Next.{found_at, short_value, Short, Lie};

use crate::lines::{NEWLINE, place_of};
use crate::parse::{First, Line, MESSAGE_DIGITS, is_digit, message_after, parse};
use register::Step;

// The longest K or D line of the quick reader, with its end.
const QUICK: usize = 8;

// Where a line ends, and what it says.
#[derive(Clone, Copy)]
pub struct Found {
    pub end: usize,
    pub line: Option<Line>,
}

// The number of a digit and, if the byte behind it is one too, that digit.
#[tactic(auto, unfolding(crate::specs::Numbers::value_from))]
fn short_value(first: u8, second: u8) -> u32
    requires { is_digit first ≡ true }
    ensures { result ≡ short_value first second }
{
    let value = (first - b'0') as u32;
    if is_digit(second) {
        value * 10 + (second - b'0') as u32
    } else {
        value
    }
}

// A number of one or two digits with a stop behind it, and where the text behind the stop begins.
#[tactic(auto, using(crate::proofs::Short::short_is))]
fn short_at(text: &[u8], at: usize, stop: u8) -> Option<First>
    requires { at + 3 ≤ length text.now }
    ensures { IfSome result (λ first. Short text.now at stop first.value first.next) }
{
    let first = text[at];
    let second = text[at + 1];
    if !is_digit(first) {
        return None;
    }
    let end = at + 1 + is_digit(second) as usize;
    if text[end] != stop {
        return None;
    }
    Some(First {
        value: short_value(first, second),
        next: end + 1,
    })
}

// The rest of an L line, behind its server: a short number and a message.
fn quick_lie(text: &[u8], k: u32, at: usize) -> Option<Found>
    requires { at + 3 ≤ length text.now }
    ensures { IfSome result (Lie text.now k at) }
{
    let client = short_at(text, at, b' ')?;
    if text.len() - client.next <= MESSAGE_DIGITS {
        return None;
    }
    let end = client.next + MESSAGE_DIGITS;
    if text[end] != NEWLINE {
        return None;
    }
    let line = message_after(k, client.value, &text[client.next..end])?;
    Some(Found {
        end: end,
        line: Some(line),
    })
}

// K, D or L with short numbers; another line has to be read by `parse`. The letter is looked at first, so that
// other lines cost little here.
#[tactic(auto, using(crate::proofs::Quick::found_k, crate::proofs::Quick::found_d))]
fn quick_step(text: &[u8], at: usize) -> Option<Found>
    requires { at + 8 ≤ length text.now }
    ensures { IfSome result (λ found. found ≡ found_at text.now at) }
{
    if text[at + 1] != b' ' {
        return None;
    }
    let letter = text[at];
    if letter != b'K' && letter != b'D' && letter != b'L' {
        return None;
    }
    let first = short_at(text, at + 2, b' ')?;
    if letter == b'L' {
        return quick_lie(text, first.value, first.next);
    }
    let second = short_at(text, first.next, NEWLINE)?;
    let end = second.next - 1;
    let step = if letter == b'K' {
        Step::K(first.value, second.value)
    } else {
        Step::D(first.value, second.value)
    };
    Some(Found {
        end: end,
        line: Some(Line::Do(step)),
    })
}

// What stands in a text from a place on: where that line ends, or the text does, and what it says.
#[tactic(auto, using(crate::proofs::Found::ends_within, crate::proofs::Found::none_found))]
pub fn next(text: &[u8], at: usize) -> Found
    ensures { result ≡ found_at text.now at }
{
    if text.len() <= at {
        return Found {
            end: at,
            line: None,
        };
    }
    if QUICK <= text.len() - at {
        if let Some(found) = quick_step(text, at) {
            return found;
        }
    }
    let end = at + place_of(NEWLINE, &text[at..]);
    Found {
        end: end,
        line: parse(&text[at..end]),
    }
}
