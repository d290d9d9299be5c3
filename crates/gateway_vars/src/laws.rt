// What holds of what templates write over.
ghost use Rattle.gateway_vars.specs.Overriding.{LastWritesCount};

/// What is written over is what the writes of a template put there one after another: of each name the last value, in the
/// place of the first; names of header fields are equal without regard to case.
pub fn the_last_write_of_a_name_counts()
    ensures { LastWritesCount }
{}
