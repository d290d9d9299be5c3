//! What may go to another thread, as a law: a function without a body, whose clause it is.
ghost use denote.Param.Send.{IsSend};
ghost use Rattle.book_rules.specs.contracts.events.Event as event;
ghost use Rattle.book_rules.specs.contracts.events.Entry as entry;
ghost use Rattle.book_rules.specs.contracts.replies.Reply as reply;

/// What a book takes, keeps and replies may go to another thread.
#[tactic(auto, using(crate::proofs::Sent::event_send, crate::proofs::Sent::entry_send, crate::proofs::Sent::reply_send))]
pub fn what_goes_through_a_book_may_cross_threads()
    ensures event { IsSend event.the_row }
    ensures entry { IsSend entry.the_row }
    ensures reply { IsSend reply.the_row }
{}
