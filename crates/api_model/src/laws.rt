//! What holds of every definition.
ghost use denote.Param.Send.{IsSend, IsSync};
ghost use Rattle.api_model.specs.Named.{AlwaysCompiled, AlwaysFindsNamed};
ghost use Rattle.api_model.specs.Ranges.{AlwaysLeadToMethods};
ghost use Rattle.api_model.specs.Taken.{AlwaysHaveValues, AlwaysKeepToPaths, AlwaysReadUris};
ghost use Rattle.api_model.specs.contracts.api.Api as definition;

/// A definition may go to another thread, and be shared with one.
#[tactic(auto, using(crate::proofs::Sent::api_send, crate::proofs::Sent::api_sync))]
pub fn a_definition_may_cross_threads()
    ensures send { IsSend definition.the_row }
    ensures sync { IsSync definition.the_row }
{}

/// Each verb of a resource has the number of a method.
#[tactic(auto, using(crate::proofs::Ranges::always_lead))]
pub fn verbs_lead_to_methods()
    ensures { AlwaysLeadToMethods }
{}

/// Where the document names an authorizer, a validator or a model for a method, that is found, and has the name; where it
/// names none, none is found.
pub fn what_is_named_is_found()
    ensures { AlwaysFindsNamed }
{}

/// An authorizer with a pattern has it for whole tokens, and no other has one.
pub fn patterns_are_kept_for_whole_tokens()
    ensures { AlwaysCompiled }
{}

/// Each `method.request.path.N` of a method names a parameter of its resource's path.
pub fn methods_keep_to_their_paths()
    ensures { AlwaysKeepToPaths }
{}

/// Each has a value, where a request for that resource is found.
pub fn path_parameters_have_values()
    ensures { AlwaysHaveValues }
{}

/// Each integration with a backend has the pieces of its `uri`.
pub fn uris_are_read_once()
    ensures { AlwaysReadUris }
{}
