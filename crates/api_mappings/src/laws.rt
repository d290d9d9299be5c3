//! What holds of every `uri`.
ghost use Rattle.api_mappings.specs.Written.{HasValues, HasNoValues};

/// A text is read as a `uri` just where some values of its stage variables and placeholders make it one of a backend.
pub fn a_uri_has_values()
    ensures { HasValues }
{}

/// A text is refused as a `uri` just where no values make it one of a backend.
pub fn what_is_no_uri_has_no_values()
    ensures { HasNoValues }
{}
