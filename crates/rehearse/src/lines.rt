// The lines of a block, one after the other: what each does, and the line that is printed of it.
ghost use Rattle.std.specs.Prelude.{ℕ, ◌*◌, ◌≤◌, true, ◌≡◌, length, IfSome};
ghost use Rattle.script.specs.Numerals.{numeral_of};
ghost use Rattle.script.specs.Printed.{longest};
ghost use Rattle.state.specs.Sound.{is_sound};
ghost use Rattle.rehearse.specs.Stage.{stage, Obeys};
ghost use Rattle.rehearse.specs.Blocks.{LinesDone};

use register::{Setup, Step};
use script::next::next;
use script::parse::Line;
use script::print::{Numeral, Output, next_numeral, put_numeral, put_output};
use state::{Settings, State};
use steps::step::make_step;
use system::setup::set_up;

// What the lines of a block leave: the settings of the last accepted setup, if there was one, the next line's
// number, where the line that is cut begins, and how much output there is.
#[derive(Clone, Copy)]
pub struct Turn {
    pub settings: Option<Settings>,
    pub number: Numeral,
    pub at: usize,
    pub used: usize,
}

// ---- what a line does

// Each function answers what is printed of the line.

// An accepted setup sets up afresh, a refused one keeps the present system, or none.
fn set_afresh(settings: &mut Option<Settings>, asked: Setup, state: &mut State) -> Output
    ensures { (number : ℕ) → Obeys
        (stage settings.old state.old.servers state.old.clients state.old.slots number)
        (Some (Line.Setup asked)) result
        (stage settings.new state.new.servers state.new.clients state.new.slots) }
{
    match set_up(asked, state) {
        Ok(accepted) => {
            *settings = Some(accepted);
            Output::Set
        }
        Err(why) => Output::Answered(Err(why)),
    }
}

// A step before an accepted setup is unreadable.
#[tactic(auto, using(system::proofs::StepLaws::step_law), unfolding(crate::specs::Stage::output_of, crate::specs::Stage::after))]
fn obey_step(settings: Option<Settings>, step: Step, state: &mut State) -> Output
    requires { IfSome settings (λ present. is_sound present
        state.old.servers state.old.clients state.old.slots ≡ true) }
    ensures { (number : ℕ) → Obeys
        (stage settings state.old.servers state.old.clients state.old.slots number)
        (Some (Line.Do step)) result
        (stage settings state.new.servers state.new.clients state.new.slots) }
{
    match settings {
        Some(present) => Output::Answered(make_step(present, step, state)),
        None => Output::Unread,
    }
}

fn obey(settings: &mut Option<Settings>, line: Option<Line>, state: &mut State) -> Output
    requires { IfSome settings.old (λ present. is_sound present
        state.old.servers state.old.clients state.old.slots ≡ true) }
    ensures { (number : ℕ) → Obeys
        (stage settings.old state.old.servers state.old.clients state.old.slots number)
        line result (stage settings.new state.new.servers state.new.clients state.new.slots) }
{
    match line {
        Some(Line::Setup(asked)) => set_afresh(settings, asked, state),
        Some(Line::Do(step)) => obey_step(*settings, step, state),
        None => Output::Unread,
    }
}

// ---- the lines

// Obeys every whole line of a block. A line's number is written before the line is obeyed, so that its answer
// is printed where it is made.
pub fn obey_lines(turn: Turn, input: &[u8], out: &mut [u8], state: &mut State) -> Turn
    requires { IfSome turn.settings (λ present. is_sound present
        state.old.servers state.old.clients state.old.slots ≡ true)
        × (turn.number ≡ numeral_of turn.number.number)
        × (length input.now * longest ≤ length out.old) }
    ensures { LinesDone turn input.now
        state.old.servers state.old.clients state.old.slots out.old
        result state.new.servers state.new.clients state.new.slots out.new }
{
    let mut settings = turn.settings;
    let mut number = turn.number;
    let mut at = 0;
    let mut used = 0;
    loop {
        let found = next(input, at);
        if input.len() <= found.end {
            return Turn {
                settings: settings,
                number: number,
                at: at,
                used: used,
            };
        }
        let number_end = put_numeral(out, used, number);
        let what = obey(&mut settings, found.line, state);
        used = put_output(out, number_end, what);
        at = found.end + 1;
        number = next_numeral(number);
    }
}
