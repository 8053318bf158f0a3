// The calls on a target: what each answers and leaves.
#![tactic(auto)]

pub mod admission;
pub mod answers;
pub mod append;
pub mod counters;
pub mod events;
pub mod making;
pub mod poll;
pub mod put_get;
pub mod registers;
pub mod search;
pub mod unlink;
