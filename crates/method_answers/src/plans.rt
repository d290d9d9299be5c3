// What a request comes to.
use crate::authorizing::Authorizing;
use crate::calls::RoutedCall;
use crate::keys::Keyed;
use backend_core::WireRequest;
use method_flow::Made;

/// An exchange with a backend that a call asks for.
#[derive(Drop)]
pub struct Exchange<'a> {
    /// What is sent.
    pub request: WireRequest,
    /// Whether the reply is passed on as it is.
    pub passes: bool,
    /// The call that asks for it.
    pub call: RoutedCall<'a>,
}

/// What a call that goes on comes to.
#[derive(Drop)]
pub enum Plan<'a> {
    /// This answer.
    Answered(Made),
    /// An exchange, whose outcome tells the answer.
    Asks(Exchange<'a>),
}

/// What a call comes to that no authorizer keeps back.
#[derive(Drop)]
pub enum Way<'a> {
    /// This, whoever calls.
    Goes(Plan<'a>),
    /// What its admission leads to.
    Admits(Keyed<'a>),
}

/// What a request comes to.
#[derive(Drop)]
pub enum Course<'a> {
    /// This, whatever an authorizer gives.
    Free(Way<'a>),
    /// What the policy of its authorizer leads to, or the want of one.
    Consults(Authorizing<'a>),
}
