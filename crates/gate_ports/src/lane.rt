// One lane.

/// What is asked while a connection is served.
#[derive(Drop)]
pub struct Means<B, T, W, G> {
    /// What answers its requests.
    pub backend: B,
    /// Its clock.
    pub clock: T,
    /// Its random words.
    pub words: W,
    /// What is passed before each exchange.
    pub gate: G,
}

/// One lane: where its connections come from, and what it asks while it serves them. A contract sees of it the facts of its
/// port and its backend, and the readings of its clock and its words, where they tell them.
#[derive(Drop)]
pub struct Lane<P, B, T, W, G> {
    /// Where its connections come from.
    pub port: P,
    /// What it asks while it serves one.
    pub means: Means<B, T, W, G>,
}
