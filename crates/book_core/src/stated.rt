// What the type of a definition says of an event that puts one.
ghost use Rattle.std.specs.Prelude.{◌≡◌, true};
ghost use Rattle.good_tables.specs.Laws.{is_stated_in, puts_stated};

use book_rules::{Command, Event};

#[tactic(auto, unfolding(book_rules::specs::Good::is_stated))]
fn check_command(command: &Command)
    ensures { puts_stated command.now ≡ true }
{
    if let Command::PutApi { definition, .. } = command {
        definition.value().is_definition();
    }
}

/// The definition that an event puts, where it puts one, is one that a document or a text states. Nothing is done.
pub fn check_stated(event: &Event)
    ensures { is_stated_in event.now ≡ true }
{
    if let Event::Admin { command, .. } = event {
        check_command(command);
    }
}
