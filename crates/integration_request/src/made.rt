// What is made of a request.
use backend_core::WireRequest;

/// What an integration makes of a request.
#[derive(Drop)]
pub enum Prepared {
    /// Type MOCK: a reply of this status, 100 to 999, stands for a backend's.
    Mock(u16),
    /// Type HTTP: the reply is answered by the method's response rules.
    Wire(WireRequest),
    /// Type HTTP_PROXY: the reply is passed on.
    Proxy(WireRequest),
}
