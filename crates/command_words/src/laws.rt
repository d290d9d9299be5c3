// What holds of the words.
ghost use Rattle.command_words.specs.Commands.{CommandsHaveTheirWords};

/// The words ask for a command exactly where they are the words of it; so no words ask for two.
pub fn a_command_is_asked_for_by_its_words_alone()
    ensures { CommandsHaveTheirWords }
{}
