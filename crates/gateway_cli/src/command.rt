// What a command asks for beyond files and scripts.
ghost use Rattle.std.specs.Prelude.{◌≡◌, ◌≤◌, IfSome};
ghost use Rattle.std.specs.Option.{option_map};
ghost use Rattle.command_words.specs.Commands.{IsWithin};
ghost use Rattle.gateway_cli.specs.Commands.{served, administered};

use command_words::Command;
use serve_command::Asked;

/// What is to be served.
pub fn asked_in(command: &Option<Command>) -> Option<Asked>
    requires { IfSome command.now IsWithin }
    ensures asked { option_map (λ asked. (asked.store.now, asked.port, asked.lanes)) result ≡ served command.now }
    ensures lanes { IfSome result (λ asked. (1 ≤ asked.lanes) × (asked.lanes ≤ 8)) }
{
    match command {
        Some(Command::Serve { store, port, lanes }) => Some(Asked {
            store: store.as_str(),
            port: *port,
            lanes: *lanes,
        }),
        _ => None,
    }
}

/// The store that is to be administered.
pub fn store_in(command: &Option<Command>) -> Option<&str>
    ensures { option_map (λ store. store.now) result ≡ administered command.now }
{
    match command {
        Some(Command::Admin { store }) => Some(store.as_str()),
        _ => None,
    }
}
