//! Laws of the ways. Each is a function without a body, whose clause is the law.
ghost use Rattle.authorizer_causes.specs.Laws.{TellsItsAuthorizer};

/// An answer with one of the four kinds that an authorizer's part of a way comes to stands behind what the table says of it.
pub fn an_authorizers_answer_stands_behind_its_cause()
    ensures { TellsItsAuthorizer }
{}
