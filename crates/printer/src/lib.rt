// Document 01, "Script and printout": the printer of a call's line.
#![tactic(auto)]

pub mod said;
