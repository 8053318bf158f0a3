// Claims about the definitions of the calls: document 01's ten cases, and what it says of all calls.
#![tactic(auto)]

pub mod bench;
pub mod laws;
