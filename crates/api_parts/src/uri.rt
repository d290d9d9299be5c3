// The `uri` of a backend, as it is read.
ghost use Rattle.std.specs.Prelude.{◌≡◌};
ghost use Rattle.api_parts.specs.Hosts.{host_text};

use gw_base::{Seq, Text};

/// The host of a `uri`.
#[derive(Clone, Copy, Debug, PartialEq, Eq)]
pub enum Host {
    /// `127.0.0.1`
    Loopback,
    /// `localhost`
    Localhost,
}

impl Host {
    /// The host as it is written.
    pub fn as_str(&self) -> &str
        ensures { result.now ≡ host_text self.now }
    {
        match self {
            Host::Loopback => "127.0.0.1",
            Host::Localhost => "localhost",
        }
    }
}

/// A piece of the port or of the path of a `uri`.
#[derive(Drop)]
pub enum Piece {
    /// These bytes.
    Literal(Text),
    /// `${stageVariables.N}`: the value of the stage variable.
    Variable(Text),
    /// `{name}`: the value that is mapped onto this name.
    Placeholder(Text),
}

/// A `uri` that was read, `http://HOST:PORT/PATH`: its host, and the pieces of its port and of its path, which stands behind
/// the first `/`.
#[derive(Drop)]
pub struct Uri {
    pub host: Host,
    pub port: Seq<Piece>,
    pub path: Seq<Piece>,
}
