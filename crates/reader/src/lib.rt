// Document 01, "Script and printout": the file of a call script. It is judged whole, before anything runs; then its calls are read
// one by one.
#![tactic(auto)]

pub mod calls;
pub mod contents;
pub mod judging;
pub mod numbers;
pub mod reading;
