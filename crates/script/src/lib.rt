// Document 01, "Script and printout": a call script run on a new target, line by line.
#![tactic(auto)]

pub mod input;
pub mod replay;
pub mod run;
