//! What holds of what is passed on.
ghost use Rattle.wire_text.specs.Laws.{NeverPassesOn, NeverSendsOn};

/// No header of a proxied answer concerns one connection alone or is the gateway's own, in whatever case its name is written:
/// no backend's `x-gateway-cause` passes.
pub fn what_is_never_passed_on()
    ensures { NeverPassesOn }
{}

/// Nor does one that goes on to a backend.
pub fn what_is_never_sent_on()
    ensures { NeverSendsOn }
{}
