//! What holds of bodies: each function's contract is a law, and its body is empty.
ghost use Rattle.http_framing.specs.Laws.{OneChunkedBody, OneKnownBody};
ghost use Rattle.http_framing.specs.Trailers.{FindsTrailers};

/// The length that is found is that of trailers up to an empty line, and that of all trailers is found.
pub fn trailers_are_found_by_their_lines()
    ensures { FindsTrailers }
{}

/// What a body of a known length comes to is one thing, and so is what is left behind it.
pub fn a_known_body_is_one()
    ensures { OneKnownBody }
{}

/// What a body in chunks comes to is one thing, and so is what is left behind it.
pub fn a_chunked_body_is_one()
    ensures { OneChunkedBody }
{}
