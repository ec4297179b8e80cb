//! What a thread knows of the queue.
use adr_delivery::Job;
use std::collections::LinkedList;

/// What the holder of a seat has put, taken, and taken out when all had ended, and its parts of the right to know the whole.
/// No value of it is made.
pub struct Hand {
    pub parts: u64,
    pub put: LinkedList<Job>,
    pub taken: LinkedList<Job>,
    pub left: LinkedList<Job>,
}
