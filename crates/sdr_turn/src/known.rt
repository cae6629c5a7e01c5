use std::collections::LinkedList;

/// What a seat knows. No value of it is made: contracts and proofs alone speak of it.
pub struct Known<E> {
    /// Its place among the lock's seats, from 0.
    pub place: u64,
    /// The numbers that it drew, rising.
    pub numbers: LinkedList<u64>,
    /// The number that it holds, or 0.
    pub number: u64,
    /// It has the value.
    pub took: bool,
    /// How many numbers were done when it last looked, took the value or gave it back.
    pub front: u64,
    /// The entries that the value had when it last took or gave it.
    pub seen: LinkedList<E>,
    /// The entries that it added itself, in order.
    pub mine: LinkedList<E>,
}
