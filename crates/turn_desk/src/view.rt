// What the rule of the table knows of a seat. No value of these types is made.
use std::collections::LinkedList;

/// Where a seat stands with the turn. A number is its ticket.
pub enum Phase<E> {
    /// It has no ticket.
    Idle,
    /// It has drawn a ticket.
    Waiting(u64),
    /// It has the turn, and found this history.
    Turn(u64, LinkedList<E>),
    /// It has the turn, and the machine lies in the slot again, with whatever its step added.
    Committed(u64),
    /// It was joined into another seat.
    Spent,
}

/// What a seat knows.
pub struct Known<E, B> {
    /// How many numbers the desk has.
    pub seats: u64,
    pub number: u64,
    /// `None` where the seat was joined into another one, and only there.
    pub base: Option<B>,
    pub seen: LinkedList<E>,
    /// What the two seats had seen that this one was last made of by a join. It is empty where none was.
    pub merged: LinkedList<LinkedList<E>>,
    pub mine: LinkedList<E>,
    /// The numbers joined into it, each with its entries.
    pub ended: LinkedList<(u64, LinkedList<E>)>,
    pub spare: LinkedList<u64>,
}

/// A seat's part in the rule.
pub struct View<E, B> {
    pub phase: Phase<E>,
    pub known: Known<E, B>,
}
