use crate::known::Known;
use std::collections::LinkedList;

/// What a seat of the table stands for in the rule. No value of it is made.
pub struct View<E> {
    /// How many of the lock's seats it is: one, and where seats are joined more.
    pub parts: u64,
    /// How many numbers these drew.
    pub drawn: u64,
    /// The places of these.
    pub places: LinkedList<u64>,
    pub knows: Known<E>,
    /// What those knew that were joined into it.
    pub told: LinkedList<Known<E>>,
}
