// Why an authorizer gives no policy.

/// Why an authorizer gives no policy, each but the last with the gateway response that tells it.
#[derive(Clone, Copy, Debug, PartialEq, Eq)]
pub enum AuthorizerFault {
    /// `AUTHORIZER_FAILURE`: the exchange failed or lapsed, or the reply's status is not 200.
    Failure,
    /// `AUTHORIZER_CONFIGURATION_ERROR`: the reply's body is no policy.
    Configuration,
    /// Memory is wanting.
    Memory,
}
