// The commands of the program.
use gw_base::Text;

/// What the words ask for.
#[derive(Drop)]
pub enum Command {
    /// Prints the commands.
    Help,
    /// Prints the version of the program and that of a store.
    Version,
    /// Plays the script of the input.
    Play,
    /// Prints what the template of one file gives over the body of another.
    Render {
        template: Text,
        body: Text,
    },
    /// Tells whether a file is a definition.
    Check {
        name: Text,
    },
    /// Serves a store at a port, over so many lanes.
    Serve {
        store: Text,
        port: u16,
        lanes: usize,
    },
    /// Administers a store.
    Admin {
        store: Text,
    },
    /// Plays so many calls that a seed makes up.
    Load {
        seed: u64,
        calls: u64,
    },
}
