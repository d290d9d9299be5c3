//! What holds of every keeper over a file.
ghost use denote.Param.Send.{IsSend};
ghost use Rattle.gateway_stores.specs.contracts.keeper.FileKeeper as keeper;

/// A keeper over a file may go to another thread, so that lanes can serve its tables.
#[tactic(auto, using(crate::proofs::Sent::keeper_send))]
pub fn a_keeper_may_go_to_another_thread()
    ensures { IsSend keeper.the_row }
{}
