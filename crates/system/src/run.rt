// A whole run: a lent list of steps from a setup, each given the state that the one before it left.
ghost use Rattle.std.specs.Prelude.{true, ◌≡◌, length, ◌+◌, ◌*◌, ◌≤◌};
ghost use Rattle.register.specs.World.{new_world};
ghost use Rattle.system.specs.Setup.{setup_of};
ghost use Rattle.state.specs.Sound.{are_allowed};
ghost use Rattle.system.specs.Stored.{Stored};
ghost use Rattle.system.specs.Run.{step_numbers, answer_numbers};
ghost use Rattle.system.specs.Run.{clamped, step_by, step_in, code_of, shown_by, put_answer, how_many, Run, Outcome};
ghost use Rattle.system.specs.MakesSteps.{MakesSteps};

use crate::setup::set_up;
use message::{Entry, Words};
use refusal::Refusal;
use register::{Answer, Setup, Step};
use state::{Settings, State};
use steps::step::make_step;

// The numbers of a step, and of an answer.
pub const STEP: usize = 5;

pub const ANSWER: usize = 2;

// What a refusal's number is added to.
const REFUSED: u64 = 16;

// A number of 32 bits; a larger one becomes the highest, which is no client, no server and no message.
fn clamp(number: u64) -> u32
    ensures { result ≡ clamped number }
{
    u32::try_from(number).unwrap_or(u32::MAX)
}

// The step of a kind and its four arguments. Another kind is R 0, which every state refuses. The kinds are numbers
// because a list of steps comes from other languages as numbers (`exports_run`).
fn step_of(kind: u64, first: u64, second: u64, high: u64, low: u64) -> Step
    ensures { result ≡ step_by kind first second high low }
{
    match kind {
        0 => Step::R(clamp(first)),
        1 => Step::W(clamp(first), Entry(second)),
        2 => Step::K(clamp(first), clamp(second)),
        3 => Step::D(clamp(first), clamp(second)),
        4 => Step::C(clamp(first)),
        5 => Step::L(clamp(first), clamp(second), Words(clamp(high), low)),
        _ => Step::R(0),
    }
}

// Step i of the list.
pub fn step_in(steps: &[u64], i: usize) -> Step
    requires { i * step_numbers + step_numbers ≤ length steps.now }
    ensures { result ≡ step_in steps.now i }
{
    let at = i * STEP;
    step_of(
        steps[at],
        steps[at + 1],
        steps[at + 2],
        steps[at + 3],
        steps[at + 4],
    )
}

// Which answer it is.
fn code(answer: Result<Answer, Refusal>) -> u64
    ensures { result ≡ code_of answer }
{
    match answer {
        Ok(Answer::Went) => 0,
        Ok(Answer::Read(_)) => 1,
        Ok(Answer::Wrote(_)) => 2,
        Ok(Answer::Spent) => 3,
        Err(why) => REFUSED + u8::from(why) as u64,
    }
}

// The pair that READ or WROTE shows.
fn shown(answer: Result<Answer, Refusal>) -> u64
    ensures { result ≡ shown_by answer }
{
    match answer {
        Ok(Answer::Read(pair) | Answer::Wrote(pair)) => pair.0,
        Ok(Answer::Went | Answer::Spent) | Err(_) => 0,
    }
}

// Writes the answer of step i in its two places.
pub fn write_answer(out: &mut [u64], i: usize, answer: Result<Answer, Refusal>)
    requires { i * answer_numbers + answer_numbers ≤ length out.old }
    ensures { out.new ≡ put_answer out.old i answer }
{
    let at = i * ANSWER;
    out[at] = code(answer);
    out[at + 1] = shown(answer);
}

// The steps one after the other, each on the memory that the one before it left: as many as there are whole, and as
// there is room for answers.
fn step_all<F: Fn(Settings, Step, &mut State) -> Result<Answer, Refusal>>(
    make: F,
    settings: Settings,
    steps: &[u64],
    out: &mut [u64],
    state: &mut State,
)
    requires makes { MakesSteps (F.pre make) (F.post make) }
    requires allowed { are_allowed settings ≡ true }
    requires new { Stored new_world state.old.servers state.old.clients state.old.slots }
    ensures { let n = how_many steps.now out.old in
        Run settings steps.now out.old n n
        state.new.servers state.new.clients state.new.slots out.new }
{
    let many = (steps.len() / STEP).min(out.len() / ANSWER);
    for i in 0..many {
        let answer = make(settings, step_in(steps, i), state);
        write_answer(out, i, answer);
    }
}

// A run from a setup, each step made by `make`. Five numbers a step, two an answer; as many steps as both have room
// for. A refused setup changes nothing.
pub fn run_by<F: Fn(Settings, Step, &mut State) -> Result<Answer, Refusal>>(
    make: F,
    asked: Setup,
    steps: &[u64],
    out: &mut [u64],
    state: &mut State,
) -> Result<Settings, Refusal>
    requires { MakesSteps (F.pre make) (F.post make) }
    ensures { (result ≡ setup_of asked.f asked.n asked.clients asked.faulty)
        × Outcome (setup_of asked.f asked.n asked.clients asked.faulty) steps.now out.old
        state.old.servers state.old.clients state.old.slots
        state.new.servers state.new.clients state.new.slots out.new }
{
    let setup = set_up(asked, state);
    if let Ok(settings) = setup {
        step_all(make, settings, steps, out, state);
    }
    setup
}

// A run whose steps are not tested: its state stays its own.
pub fn run(
    asked: Setup,
    steps: &[u64],
    out: &mut [u64],
    state: &mut State,
) -> Result<Settings, Refusal>
    ensures { (result ≡ setup_of asked.f asked.n asked.clients asked.faulty)
        × Outcome (setup_of asked.f asked.n asked.clients asked.faulty) steps.now out.old
        state.old.servers state.old.clients state.old.slots
        state.new.servers state.new.clients state.new.slots out.new }
{
    run_by(make_step, asked, steps, out, state)
}
