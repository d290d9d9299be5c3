// What stands at the front of a buffer.

/// A head, the beginning of one, or what no bytes can make one.
pub enum Front<H> {
    Head(H),
    Unfinished,
    Bad,
}
