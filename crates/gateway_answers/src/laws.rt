//! What holds of gateway responses.
ghost use Rattle.gateway_answers.specs.Causes.{NamesOneCause};

/// Whatever the rules of an API are, a gateway response names its kind as its cause, once, and names no other.
pub fn a_gateway_response_names_its_one_cause()
    ensures { NamesOneCause }
{}
