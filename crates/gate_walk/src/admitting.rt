// What a reply to an Admit is to a call.
ghost use Rattle.std.specs.Prelude.{◌≡◌};
ghost use Rattle.gate_walk.specs.Walk.{admission_of as admission_of_reply};

use book_rules::Reply;
use call_facts::Kind;
use gw_base::Name;
use method_answers::Admission;
use std::mem;

/// What the book's reply to an Admit is to the call: the key that admits it, or the kind that tells why none does.
pub fn admission_of(reply: Reply) -> Admission
    ensures { result ≡ admission_of_reply reply }
{
    let mut reply = reply;
    match &mut reply {
        Reply::Admitted { key, .. } => Admission::Admitted(mem::replace(key, Name::of(""))),
        Reply::InvalidKey => Admission::Refused(Kind::InvalidApiKey),
        Reply::Throttled { .. } => Admission::Refused(Kind::Throttled),
        Reply::QuotaExceeded { .. } => Admission::Refused(Kind::QuotaExceeded),
        // A change that could not be kept. The book replies nothing else to an Admit.
        _ => Admission::Refused(Kind::StoreFailure),
    }
}
