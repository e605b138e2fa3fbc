// Functions for programs in other languages: `rt lib` in this folder writes the archive that they link,
// out/libexports.a. Numbers pass as they are, an array as a pointer, a slice as a pointer and its length. Nothing
// is asked of a caller but memory of its own.
#![tactic(auto)]

ghost use Rattle.std.specs.Prelude.{◌≡◌};
ghost use Rattle.exports.specs.Status.{status_of};

use refusal::Refusal;

pub mod messages;
pub mod runs;

// What a C function answers: nothing, or the refusal's number.
fn status<T: Drop>(answer: Result<T, Refusal>) -> u32
    ensures { result ≡ status_of answer }
{
    match answer {
        Ok(_) => 0,
        Err(why) => u8::from(why) as u32,
    }
}
