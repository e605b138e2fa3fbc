// Runs the calendar and the licences over every date, and the messages at the edges of their fields, and
// prints digests.
//
// `tests/sheets_oracle.py` computes the same lines another way, and `stdout` is what it wrote.
#![tactic(auto)]

ghost use Rattle.std.specs.Prelude.{◌<◌, ◌^◌};
ghost use Rattle.message.specs.Layout.{kind_bits};

mod dates;
mod digest;
mod licences;
mod messages;
mod sums;

use dates::Digests;
use std::io;

const FIRST_YEAR: u16 = 1898;

const END_YEAR: u16 = 2203;

// All that four bits can say.
const KINDS: u64 = 1 << message::KIND_BITS;

fn print_line(rt: &impl Print, year: u16, digests: Digests) -> io::Result<()> {
    println!(rt;
        "{year} {} {} {} {} {}",
        digests.numbers,
        digests.renewals,
        digests.verdicts,
        digests.sums.twice,
        digests.sums.differing
    )
}

fn print_kind(rt: &impl Print, kind: u64) -> io::Result<()>
    requires { kind < 2 ^ kind_bits }
{
    println!(rt;
        "kind {kind} {} {}",
        messages::of_kind(kind),
        messages::packed_kind(kind)
    )
}

fn print_years(rt: &impl Print) -> io::Result<()> {
    for year in FIRST_YEAR..END_YEAR {
        print_line(rt, year, dates::of_year(year))?;
    }
    Ok(())
}

fn print_kinds(rt: &impl Print) -> io::Result<()> {
    for kind in 0..KINDS {
        print_kind(rt, kind)?;
    }
    Ok(())
}

fn main(rt: HostRuntime) -> io::Result<()> {
    print_years(&rt)?;
    print_kinds(&rt)
}
