// The state of the whole system (01, 'Rehearsal'): settings by value, all else in lent memory, three
// arrays of numbers. All zero is the setup. What stands where is in specs/State.
#![tactic(auto)]

ghost use Rattle.std.specs.Prelude.{◌≡◌, suc, ◌<◌};
ghost use Rattle.basics.specs.BitSets.{contains};
ghost use Rattle.register.specs.Settings.{most_servers, most_clients};
ghost use Rattle.register.specs.World.{new_world};
ghost use Rattle.state.specs.State as state;

use channel::Slots;

pub mod allowed;
pub mod sound;

// Of n servers at most f may be faulty. Bit k - 1 of faulty: server k is.
#[derive(Clone, Copy)]
pub struct Settings {
    pub f: u8,
    pub n: u8,
    pub clients: u8,
    pub faulty: u16,
}

// Servers and clients that there are places for.
pub const SERVERS: usize = channel::SERVERS;

pub const CLIENTS: usize = channel::CLIENTS;

// The memory of the servers, one behind the other.
pub const SERVERS_LENGTH: usize = SERVERS * server::LENGTH;

pub type Servers = [u64; SERVERS_LENGTH];

// Where the set of stopped clients stands, bit d - 1 for client d, and where the memory of the first client
// begins.
pub const STOPPED: usize = 0;

const FIRST_CLIENT: usize = STOPPED + 1;

// The stopped clients, and the memory of the clients, one behind the other.
pub const CLIENTS_LENGTH: usize = FIRST_CLIENT + CLIENTS * client::LENGTH;

pub type Clients = [u64; CLIENTS_LENGTH];

// The memory of the whole system, which a caller lends. The slots stand first, at its start: every step
// looks at them, and code that is compiled into its caller finds them without a sum.
#[derive(Drop)]
pub struct State {
    pub slots: Slots,
    pub clients: Clients,
    pub servers: Servers,
}

impl State {
    // All zero, the state at setup.
    #[tactic(auto, using(crate::proofs::StoredSetup::servers_new, crate::proofs::StoredSetup::clients_new, crate::proofs::StoredSetup::slots_new))]
    pub fn new() -> State
        ensures servers { result.servers ≡ state.store_servers new_world }
        ensures clients { result.clients ≡ state.store_clients new_world }
        ensures slots { result.slots ≡ state.store_slots new_world }
    {
        State {
            servers: [0u64; SERVERS_LENGTH],
            clients: [0u64; CLIENTS_LENGTH],
            slots: channel::empty_slots(),
        }
    }
}

// Where the memory of the server at place j begins, and of the client at place i. Places count from 0.
pub fn server_start(j: usize) -> usize
    requires { j < most_servers }
    ensures { result ≡ state.server_start j }
{
    j * server::LENGTH
}

pub fn client_start(i: usize) -> usize
    requires { i < most_clients }
    ensures { result ≡ state.client_start i }
{
    FIRST_CLIENT + i * client::LENGTH
}

// The channel from the client at place i to the server at place j, and the one back. Places have their bounds in each
// `requires`, as indices of an array have.
pub fn up(i: usize, j: usize) -> usize
    requires { (i < most_clients) × (j < most_servers) }
    ensures { result ≡ state.up_index i j }
{
    i * SERVERS + j
}

pub fn down(i: usize, j: usize) -> usize
    requires { (i < most_clients) × (j < most_servers) }
    ensures { result ≡ state.down_index i j }
{
    channel::UPWARD + up(i, j)
}

// Whether the one at place i is in a set that is given as bits.
pub fn is_in(set: u64, i: usize) -> bool
    requires { i < 64 }
    ensures { result ≡ contains set (suc i) }
{
    (set >> i) & 1 == 1
}
