// Whole runs: a list of steps from a setup, five numbers a step and two an answer.
ghost use Rattle.std.specs.Prelude.{◌≡◌};
ghost use Rattle.system.specs.Setup.{setup_of};
ghost use Rattle.exports.specs.Runs.{answers_of};
ghost use Rattle.exports.specs.Status.{status_of};

use crate::status;
use register::Setup;
use state::State;
use system::run::{run, run_by};
use system::step::step;

// A run by `run`: its state stays its own, so that no step needs to test it. Answers 0, or the number of the
// setup's refusal.
#[unsafe(no_mangle)]
pub extern "C" fn exports_run(
    f: u32,
    n: u32,
    count: u32,
    faulty: u32,
    steps: &[u64],
    out: &mut [u64],
) -> u32
    ensures answer { result ≡ status_of (setup_of f n count faulty) }
    ensures answers { out.new
        ≡ answers_of (setup_of f n count faulty) steps.now out.old }
{
    let asked = Setup {
        f,
        n,
        clients: count,
        faulty,
    };
    status(run(asked, steps, out, &mut State::new()))
}

// The same run, each step through the public `step`, which tests the whole state each time.
#[unsafe(no_mangle)]
pub extern "C" fn exports_run_by_steps(
    f: u32,
    n: u32,
    count: u32,
    faulty: u32,
    steps: &[u64],
    out: &mut [u64],
) -> u32
    ensures answer { result ≡ status_of (setup_of f n count faulty) }
    ensures answers { out.new
        ≡ answers_of (setup_of f n count faulty) steps.now out.old }
{
    let asked = Setup {
        f,
        n,
        clients: count,
        faulty,
    };
    status(run_by(step, asked, steps, out, &mut State::new()))
}
