// What a template makes.
use gateway_vars::Overrides;
use gw_base::Bytes;

/// The body of a message, and what its template wrote over.
#[derive(Drop)]
pub struct Written {
    pub body: Bytes,
    pub overrides: Overrides,
}
