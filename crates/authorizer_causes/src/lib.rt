//! Behind what each answer stands that an authorizer's part of a way comes to: laws of the ways of [`gate_walk`].
//!
//! A call whose method has an authorizer hands in a token; a policy decides about it, which is remembered or which the authorizer gave.
//!
//! | An answer of a message's way whose cause is | stands behind |
//! |---|---|
//! | `UNAUTHORIZED` | no exchange, and no policy that was remembered |
//! | `ACCESS_DENIED` | a policy, remembered or given by an exchange, that does not allow the call by its name |
//! | `AUTHORIZER_FAILURE` | an exchange that failed or lapsed, or whose reply has another status than 200 |
//! | `AUTHORIZER_CONFIGURATION_ERROR` | an exchange whose reply states no policy; or no exchange, where the authorizer's uri leads nowhere |
//!
//! What is promised, for every message and whatever it is replied: [`laws::an_authorizers_answer_stands_behind_its_cause`].
//!
//! Left out: nothing is computed here. Whether a connection goes these ways is the contract of `gate_serve`. That the uri of an
//! authorizer of a definition leads somewhere is tested where the definition is read.
#![tactic(auto)]

pub mod laws;
