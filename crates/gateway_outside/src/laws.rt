//! What may go to another thread.
use crate::backend::SocketBackend;
use crate::clock::SystemClock;
use crate::conn::SocketConn;
use crate::port::SocketPort;
use std::time::Clock;

// What only a value that may go to another thread is given to.
fn send<T: Send>(_value: &T) {}

/// A clock may go to another thread, where the runtime may be shared with one.
pub fn a_clock_may_cross_threads<'r, R: Clock + Sync>(clock: &SystemClock<'r, R>) {
    send(clock);
}

/// So may a connection.
pub fn a_connection_may_cross_threads<'r, R: Clock + Sync>(conn: &SocketConn<'r, R>) {
    send(conn);
}

/// So may a port.
pub fn a_port_may_cross_threads<'r, R: Clock + Sync>(port: &SocketPort<'r, R>) {
    send(port);
}

/// So may a backend.
pub fn a_backend_may_cross_threads<'r, R: Sync>(backend: &SocketBackend<'r, R>) {
    send(backend);
}
