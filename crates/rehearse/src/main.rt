// The program rehearse (01): reads a script from standard input and writes one line for each of its lines.
//
// Input and output go in blocks of fixed size, for any number of lines of any length. Here are only the
// reads and writes: what is made of a block is in `lines`, and what all turns together write in specs/Blocks.
#![tactic(auto)]

ghost use Rattle.std.specs.Prelude.{◌+◌, ◌<◌, ◌≤◌, ◌≡◌, length, take, drop};
ghost use Rattle.script.specs.Writing.{Written};
ghost use Rattle.rehearse.specs.Blocks.{joined, input_bytes, output_bytes};

use lines::{Turn, obey_lines};
use script::lines::{NEWLINE, keep};
use script::print::{PRINTED_BYTES, numeral_of};
use state::State;
use std::io::Read;

mod lines;

// The bytes of a block of input, and of the space for what its lines print.
const INPUT_BYTES: usize = 16384;

const OUTPUT_BYTES: usize = INPUT_BYTES * PRINTED_BYTES;

fn new_input() -> [u8; INPUT_BYTES]
    ensures { input_bytes ≡ length result }
{
    [0; INPUT_BYTES]
}

fn new_output() -> [u8; OUTPUT_BYTES]
    ensures { output_bytes ≡ length result }
{
    [0; OUTPUT_BYTES]
}

// Reads behind the bytes that were kept, and answers how many. A read that fails counts as the input's end.
fn read_behind(reader: &mut impl Read, input: &mut [u8], have: usize) -> usize
    requires { have ≤ length input.old }
    ensures { (take have input.new ≡ take have input.old)
        × (have + result ≤ length input.new) }
{
    match reader.read(&mut input[have..]) {
        Ok(more) => more,
        Err(_) => 0,
    }
}

// Closes the block: `have` bytes kept of the last one, and `more` bytes that were read behind them. At the
// input's end `more` is 0, and a last line without its end gets one. Answers where the block ends.
fn close(input: &mut [u8], have: usize, more: usize) -> usize
    requires { (have < length input.old) × (have + more ≤ length input.old) }
    ensures { Written
        (joined (take have input.old) (take more (drop have input.old)))
        input.old 0 result input.new }
{
    if 0 < more {
        return have + more;
    }
    if have < 1 {
        return 0;
    }
    input[have] = NEWLINE;
    have + 1
}

// Writes what the lines of a block print, and answers whether all of it was written. If not, that is said
// on standard error.
fn write_out(rt: &(impl Print + Eprint), text: &[u8]) -> bool {
    if rt.write_all(text).is_ok() {
        return true;
    }
    let _ = eprintln!(rt; "rehearse: the output cannot be written");
    false
}

// Every line of input prints at most 80 bytes, so the output of a block has room. A proved loop has to end,
// and nothing says that the input does: so the loop has a number of turns that no run uses up.
fn main(rt: HostRuntime) {
    let mut stdin = rt.stdin();
    let mut state = State::new();
    let mut input = new_input();
    let mut out = new_output();
    let mut turn = Turn {
        settings: None,
        number: numeral_of(0),
        at: 0,
        used: 0,
    };
    let mut have = 0;
    for _ in 0..u64::MAX {
        let more = read_behind(&mut stdin, &mut input, have);
        let total = close(&mut input, have, more);
        if total < 1 {
            return;
        }
        turn = obey_lines(turn, &input[..total], &mut out, &mut state);
        let used = turn.used;
        if !write_out(&rt, &out[..used]) {
            return;
        }
        let at = turn.at;
        have = keep(&mut input, at, total);
    }
}
