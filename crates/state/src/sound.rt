// Whether a state is sound (01, 'Rehearsal': 'A state is sound when ..'), part by part, up to the first
// fault.
ghost use Rattle.std.specs.Prelude.{◌≡◌, suc, ◌≤◌, ◌<◌, ◌^◌, ltb, length};
ghost use Rattle.basics.specs.Tests.{all_below};
ghost use Rattle.basics.specs.BitSets.{contains};
ghost use Rattle.register.specs.Settings.{most_servers, most_clients, in_range, is_honest};
ghost use Rattle.register.specs.Thresholds.{counted};
ghost use Rattle.channel.specs.Memory.{channels};
ghost use Rattle.client.specs.Memory.{client_length};
ghost use Rattle.state.specs.State.{settings_of};
ghost use Rattle.state.specs.Sound.{are_allowed, is_mark_fine, is_server_sound, are_servers_sound};
ghost use Rattle.state.specs.Sound.{is_client_sound, are_clients_sound, uses_up, uses_down, empty_or};
ghost use Rattle.state.specs.Sound.{is_link_sound, are_links_sound, are_channels_sound, is_sound};

use crate::{
    CLIENTS, Clients, SERVERS, STOPPED, Servers, Settings, State, client_start, down, is_in,
    server_start, up,
};
use channel::Slots;
use register::MOST_CLIENTS;

// The first number with a mark beyond the last server's.
const OVER_MARKS: u16 = 1 << SERVERS;

// ---- the settings

// Whether the mark at place i is of a server that there is, or not set.
fn is_mark_fine(settings: Settings, i: usize) -> bool
    requires { i < most_servers }
    ensures { result ≡ is_mark_fine settings i }
{
    i < settings.n as usize || !is_in(settings.faulty as u64, i)
}

// Whether no server beyond n is marked.
fn are_marks_fine(settings: Settings) -> bool
    ensures { result ≡ all_below (is_mark_fine settings) most_servers }
{
    (0..SERVERS).all(|i| is_mark_fine(settings, i))
}

// Whether f, n and the number of clients are in range, and no server beyond n is marked.
#[tactic(auto, unfolding(register::specs::Settings::in_range, crate::specs::State::settings_of))]
pub fn is_in_range(settings: Settings) -> bool
    ensures { result ≡ in_range (settings_of settings) }
{
    register::are_servers_in_range(settings.n, settings.f)
        && 1 <= settings.clients
        && settings.clients <= MOST_CLIENTS
        && are_marks_fine(settings)
}

// How many servers are marked as faulty. By `filter` and `count` a setup that is refused took 1.9 times as long: they
// branch on each mark.
pub fn count_faulty(settings: Settings) -> u32
    ensures { result ≡ counted (contains settings.faulty) most_servers }
{
    let faulty = settings.faulty as u64;
    basics::count_where(SERVERS, |i| is_in(faulty, i))
}

// Whether the settings are allowed.
#[tactic(auto, unfolding(crate::specs::Sound::are_allowed, register::specs::Settings::setup_refusal, crate::specs::State::settings_of))]
pub fn is_allowed(settings: Settings) -> bool
    ensures { result ≡ are_allowed settings }
{
    is_in_range(settings)
        && count_faulty(settings) <= settings.f as u32
        && settings.faulty < OVER_MARKS
}

// Whether a set has no member above n.
fn is_within(set: u64, n: u8) -> bool
    requires { n ≤ most_clients }
    ensures { result ≡ ltb set (2 ^ n) }
{
    set < 1 << n
}

// ---- servers

// Whether the server at place j is there and honest.
#[tactic(auto, using(crate::proofs::Tested::honest_place))]
fn is_honest(settings: Settings, j: usize) -> bool
    requires { j < most_servers }
    ensures { result ≡ is_honest (settings_of settings) (suc j) }
{
    j < settings.n as usize && !is_in(settings.faulty as u64, j)
}

// Whether the server at place j is sound: its pair, and its readers as bits.
#[tactic(auto, unfolding(crate::specs::Sound::is_server_sound))]
fn is_server_sound(settings: Settings, j: usize, pair: u64, readers: u64) -> bool
    requires { (j < most_servers) × (settings.clients ≤ most_clients) }
    ensures { result ≡ is_server_sound settings j pair readers }
{
    if is_honest(settings, j) {
        return is_within(readers, settings.clients);
    }
    pair == 0 && readers == 0
}

fn are_servers_sound(settings: Settings, servers: &Servers) -> bool
    requires { settings.clients ≤ most_clients }
    ensures { result ≡ are_servers_sound settings servers.now }
{
    (0..SERVERS).all(|j| {
        let at = server_start(j);
        is_server_sound(
            settings,
            j,
            servers[at + server::PAIR_AT],
            servers[at + server::READERS_AT],
        )
    })
}

// ---- clients

// Whether the client at place i is sound; where there is none, it is as at setup.
#[tactic(auto, unfolding(crate::specs::Sound::is_client_sound))]
fn is_client_sound(settings: Settings, i: usize, memory: &[u64]) -> bool
    requires { length memory.now ≡ client_length }
    ensures { result ≡ is_client_sound settings i memory.now }
{
    client::is_sound(settings.n, settings.f, memory)
        && (i < settings.clients as usize
            || memory[client::READS] == 0 && memory[client::PHASE] == 0)
}

fn are_clients_sound(settings: Settings, clients: &Clients) -> bool
    ensures { result ≡ are_clients_sound settings clients.now }
{
    (0..CLIENTS).all(|i| {
        let at = client_start(i);
        is_client_sound(settings, i, &clients[at..at + client::LENGTH])
    })
}

// ---- channels

// Whether the channel from a client to a server is used, and the one back.
fn is_used_up(settings: Settings, i: usize, j: usize) -> bool
    requires { (i < most_clients) × (j < most_servers) }
    ensures { result ≡ uses_up settings i j }
{
    i < settings.clients as usize && is_honest(settings, j)
}

#[tactic(auto, using(crate::proofs::Tested::server_place))]
fn is_used_down(settings: Settings, stopped: u64, i: usize, j: usize) -> bool
    requires { (i < most_clients) × (j < most_servers) }
    ensures { result ≡ uses_down settings stopped i j }
{
    i < settings.clients as usize && j < settings.n as usize && !is_in(stopped, i)
}

// Whether a channel is empty or used.
fn is_empty_or(used: bool, slots: &Slots, channel: usize) -> bool
    requires { channel < channels }
    ensures { result ≡ empty_or used slots.now channel }
{
    channel::count(slots, channel) == 0 || used
}

// Whether the channels between a client and a server are empty where they drop or are not used.
#[tactic(auto, unfolding(crate::specs::Sound::is_link_sound))]
fn is_link_sound(settings: Settings, stopped: u64, slots: &Slots, i: usize, j: usize) -> bool
    requires { (i < most_clients) × (j < most_servers) }
    ensures { result ≡ is_link_sound settings stopped slots.now i j }
{
    is_empty_or(is_used_up(settings, i, j), slots, up(i, j))
        && is_empty_or(is_used_down(settings, stopped, i, j), slots, down(i, j))
}

fn are_links_sound(settings: Settings, stopped: u64, slots: &Slots, i: usize) -> bool
    requires { i < most_clients }
    ensures { result ≡ are_links_sound settings stopped slots.now i }
{
    (0..SERVERS).all(|j| is_link_sound(settings, stopped, slots, i, j))
}

fn are_channels_sound(settings: Settings, stopped: u64, slots: &Slots) -> bool
    ensures { result ≡ are_channels_sound settings stopped slots.now }
{
    (0..CLIENTS).all(|i| are_links_sound(settings, stopped, slots, i)) && channel::is_sound(slots)
}

// ---- a state

// Whether a state is sound: its settings, servers, clients and slots. That the lent memory has its length is
// in the types.
#[tactic(auto, using(crate::proofs::Tested::few_clients_lem), unfolding(crate::specs::Sound::is_sound, crate::specs::Sound::are_long))]
pub fn is_sound(settings: Settings, state: &State) -> bool
    ensures { result ≡ is_sound settings state.now.servers state.now.clients state.now.slots }
{
    is_allowed(settings)
        && is_within(state.clients[STOPPED], settings.clients)
        && are_servers_sound(settings, &state.servers)
        && are_clients_sound(settings, &state.clients)
        && are_channels_sound(settings, state.clients[STOPPED], &state.slots)
}
