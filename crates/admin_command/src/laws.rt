//! The law on lines of commands.
ghost use Rattle.admin_command.specs.Laws.{LinesComeToOneThing};

/// Over the same tables lines come to one thing, where the same changes are lost.
pub fn lines_come_to_one_thing()
    ensures { LinesComeToOneThing }
{}
