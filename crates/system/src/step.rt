// One step of a whole state, for any state and any arguments (01, 'Rehearsal' and the table). A caller that
// keeps its state to itself uses the crate `steps`, which does not test it again.
ghost use Rattle.std.specs.Prelude.{◌≡◌};
ghost use Rattle.steps.specs.After.{after};
ghost use Rattle.system.specs.Step.{stepped, words_in};

use message::{HEAD_BYTES, MESSAGE_BYTES, Words};
use refusal::Refusal;
use register::{Answer, Step};
use state::{Settings, State};
use steps::step::make_step;

// A first word that no message has: one bit more than theirs.
const NO_WORD: u32 = 1 << (8 * HEAD_BYTES);

// One step. An unsound state is refused (3); a refusal leaves the memory as it was. The memory does not
// hold the settings: a caller gives those of the setup at each call.
#[tactic(auto, unfolding(crate::specs::Step::stepped))]
pub fn step(settings: Settings, asked: Step, state: &mut State) -> Result<Answer, Refusal>
    ensures { after result state.new.servers state.new.clients state.new.slots
        ≡ stepped settings state.old.servers state.old.clients state.old.slots asked }
{
    if !state::sound::is_sound(settings, state) {
        return Err(Refusal::Unsound);
    }
    make_step(settings, asked, state)
}

// Any bytes as the message of L: eleven as two words, and for all others words that stand for none.
#[tactic(auto, unfolding(crate::specs::Step::words_in))]
pub fn lie_words(bytes: &[u8]) -> Words
    ensures { result ≡ words_in bytes.now }
{
    if bytes.len() != MESSAGE_BYTES {
        return Words(NO_WORD, 0);
    }
    message::load(bytes, 0)
}
