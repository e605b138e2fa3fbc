// A client and a server that are both there, by their numbers, with the settings that say so; and the
// channels between the two. It stands in a file of its own, since a type with a ghost field imports each
// `ghost use` of its file.
ghost use Rattle.std.specs.Prelude.{◌≡◌, ◌≤◌, ◌-◌};
ghost use Rattle.state.specs.State.{up_index, down_index};

use state::allowed::Allowed;
use state::{down, up};

#[derive(Clone, Copy)]
pub struct Link {
    pub known: Allowed,
    pub client: u32,
    pub server: u32,
    pub ghost client_there: { (1 ≤ client) × (client ≤ known.settings.clients) },
    pub ghost server_there: { (1 ≤ server) × (server ≤ known.settings.n) },
}

impl Link {
    // The channel from the client to the server, and the one back.
    pub fn up(self) -> usize
        ensures { result ≡ up_index (self.client - 1) (self.server - 1) }
    {
        up((self.client - 1) as usize, (self.server - 1) as usize)
    }

    pub fn down(self) -> usize
        ensures { result ≡ down_index (self.client - 1) (self.server - 1) }
    {
        down((self.client - 1) as usize, (self.server - 1) as usize)
    }
}
