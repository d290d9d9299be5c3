//! What holds of what authorizers are asked and of what their replies come to: each function's contract is a law, and its body
//! is empty.
ghost use Rattle.authorizer_call.specs.Laws.{AllowsByDecision, AlwaysAskedWherePlain, AlwaysToldByCause};

/// A policy is had only of a reply of status 200, and is the one that its body states; each fault is told just where its cause
/// stands.
pub fn an_exchange_is_told_by_its_cause()
    ensures { AlwaysToldByCause }
{}

/// A call is allowed just where no Deny of the policy covers it and an Allow does.
pub fn a_call_is_allowed_by_an_allow_alone()
    ensures { AllowsByDecision }
{}

/// An authorizer is asked just where its uri has neither stage variables nor placeholders, whatever the token and the name.
pub fn a_plain_uri_is_asked()
    ensures { AlwaysAskedWherePlain }
{}
