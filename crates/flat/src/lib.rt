// What the calls for C are handed and what they answer: kinds by their numbers, and structs of numbers.
#![tactic(auto)]

pub mod flat;
pub mod head;
pub mod kinds;
pub mod members;
pub mod planned_set;
