// Settings of which it is known that no more servers and clients are there than there are places for. It
// stands in a file of its own, since a type with a ghost field imports each `ghost use` of its file.
ghost use Rattle.std.specs.Prelude.{◌≤◌};
ghost use Rattle.register.specs.Settings.{most_servers, most_clients};

use crate::Settings;

#[derive(Clone, Copy)]
pub struct Allowed {
    pub settings: Settings,
    pub ghost few_servers: { settings.n ≤ most_servers },
    pub ghost few_clients: { settings.clients ≤ most_clients },
}
