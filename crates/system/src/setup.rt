// The setup: settings checked, by the tests that a sound state's settings pass too, and the state at the
// start. `set_up` is the one entry.
ghost use Rattle.std.specs.Prelude.{◌≡◌};
ghost use Rattle.system.specs.Setup.{setup_of, set_up, set_up_by};

use refusal::Refusal;
use register::Setup;
use state::sound::{count_faulty, is_in_range};
use state::{SERVERS, Settings, State};

// The first number that has a bit beyond the marks of all servers.
const OVER_MARKS: u32 = 1 << SERVERS;

// The settings that four numbers are, or why they are refused: 1, 2. A number that has no room in the
// settings is refused 1.
fn settings_of(asked: Setup) -> Result<Settings, Refusal>
    ensures { result ≡ setup_of asked.f asked.n asked.clients asked.faulty }
{
    if OVER_MARKS <= asked.faulty {
        return Err(Refusal::BadSettings);
    }
    let Ok(f) = u8::try_from(asked.f) else {
        return Err(Refusal::BadSettings);
    };
    let Ok(n) = u8::try_from(asked.n) else {
        return Err(Refusal::BadSettings);
    };
    let Ok(clients) = u8::try_from(asked.clients) else {
        return Err(Refusal::BadSettings);
    };
    let settings = Settings {
        f,
        n,
        clients,
        faulty: asked.faulty as u16,
    };
    let fine = is_in_range(settings);
    let many = (f as u32) < count_faulty(settings);
    if !fine {
        Err(Refusal::BadSettings)
    } else if many {
        Err(Refusal::TooManyFaulty)
    } else {
        Ok(settings)
    }
}

// A setup: refused (1, 2) with the memory as it was, or accepted with all zero, the state at setup. It is compiled into
// its caller: a new state of the caller's own is then not zeroed twice, and not at all where the setup is refused.
#[inline]
pub fn set_up(asked: Setup, state: &mut State) -> Result<Settings, Refusal>
    ensures { set_up result state.new.servers state.new.clients state.new.slots
        ≡ set_up_by (setup_of asked.f asked.n asked.clients asked.faulty)
        state.old.servers state.old.clients state.old.slots }
{
    let settings = settings_of(asked)?;
    *state = State::new();
    Ok(settings)
}
