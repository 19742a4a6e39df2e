//! What a claimant knows. No value of it is ever made.
use std::collections::LinkedList;

/// How many of the counter's parts a claimant has, and what it claimed, in order.
pub struct Hand {
    pub parts: u64,
    pub claimed: LinkedList<u64>,
}
