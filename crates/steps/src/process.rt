// Which clients and servers there are. They go by number here, as the steps name them.
ghost use Rattle.std.specs.Prelude.{true, ◌&&◌, ◌≡◌, ◌≤◌};
ghost use Rattle.basics.specs.BitSets.{contains};
ghost use Rattle.register.specs.Settings.{is_client, is_server};
ghost use Rattle.state.specs.State.{settings_of};

use state::{Settings, is_in};

// Whether the one with a number is in a set that is given as bits.
pub fn has(set: u64, n: u32) -> bool
    requires { (1 ≤ n) × (n ≤ 64) }
    ensures { result ≡ contains set n }
{
    is_in(set, (n - 1) as usize)
}

// A client, and then a server: each is one line over another number of the settings.
#[tactic(auto, unfolding(register::specs::Settings::is_client, state::specs::State::settings_of))]
pub fn is_client(settings: Settings, d: u32) -> bool
    ensures is { result ≡ is_client (settings_of settings) d }
    ensures there { result ≡ true → (1 ≤ d) × (d ≤ settings.clients) }
{
    1 <= d && d <= settings.clients as u32
}

#[tactic(auto, unfolding(register::specs::Settings::is_server, state::specs::State::settings_of))]
fn is_server(settings: Settings, k: u32) -> bool
    ensures is { result ≡ is_server (settings_of settings) k }
    ensures there { result ≡ true → (1 ≤ k) × (k ≤ settings.n) }
{
    1 <= k && k <= settings.n as u32
}

// Whether a client and a server are both there.
pub fn both_exist(settings: Settings, d: u32, k: u32) -> bool
    ensures is { result ≡ (is_client (settings_of settings) d && is_server (settings_of settings) k) }
    ensures there { result ≡ true
        → (1 ≤ d) × (d ≤ settings.clients) × (1 ≤ k) × (k ≤ settings.n) }
{
    is_client(settings, d) && is_server(settings, k)
}
