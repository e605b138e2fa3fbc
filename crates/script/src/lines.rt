// A script in blocks of bytes: where a line or a word ends, and what is kept of a line that the block's end
// cuts.
ghost use Rattle.std.specs.Prelude.{◌≡◌, not, ◌+◌, ◌≤◌, eqb, length, get_or};
ghost use Rattle.basics.specs.Tests.{all_below};
ghost use Rattle.script.specs.Lines.{up_to, kept};
ghost use Rattle.script.specs.Writing.{Written};

use crate::parse::LINE_BYTES;
use basics::least;

// The byte that ends a line.
pub const NEWLINE: u8 = b'\n';

// A line with so many bytes is unreadable, however it goes on.
const KEPT: usize = LINE_BYTES + 1;

// Bytes that are searched at once.
const BLOCK: usize = 16;

// Whether none of the 16 bytes from `at` on is the stop. All of them are looked at, so that the loop becomes
// vector code.
fn lacks(stop: u8, text: &[u8], at: usize) -> bool
    requires { at + 16 ≤ length text.now }
    ensures { result ≡ all_below (λ j. not (eqb (get_or text.now (at + j) 0) stop)) 16 }
{
    let mut clear = true;
    for j in 0..BLOCK {
        clear &= text[at + j] != stop;
    }
    clear
}

// The bytes before the first block that has the stop or is not whole.
fn passed(stop: u8, text: &[u8]) -> usize
    ensures { result ≤ length (up_to stop text.now) }
{
    let mut i = 0;
    // No `for`: it goes by blocks. By single bytes long lines take six times as many instructions.
    while BLOCK <= text.len() - i && lacks(stop, text, i) {
        i += BLOCK;
    }
    i
}

// The place of the first byte that equals stop, or the text's length. Blocks without the stop are passed
// whole.
#[tactic(auto, using(crate::proofs::Places::pass, crate::proofs::Places::stops, crate::proofs::Places::up_to_short))]
pub fn place_of(stop: u8, text: &[u8]) -> usize
    ensures { result ≡ length (up_to stop text.now) }
{
    let mut i = passed(stop, text);
    // No `for` and no `position`: with either the program takes more instructions, up to 15 in 100 more.
    while i < text.len() {
        if text[i] == stop {
            return i;
        }
        i += 1;
    }
    i
}

// Moves the bytes from `at` up to `end` to the front, as many as need be kept, and answers how many.
#[tactic(auto, using(crate::proofs::Kept::kept_written))]
pub fn keep(text: &mut [u8], at: usize, end: usize) -> usize
    ensures { Written (kept text.old at end) text.old 0 result text.new }
{
    let stop = least(end, text.len());
    if stop < at {
        return 0;
    }
    let count = least(stop - at, KEPT);
    text.copy_within(at..at + count, 0);
    count
}
