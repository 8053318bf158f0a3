// The reference target for hosts in C and Rust: the calls over a lent target, with numbers and byte slices alone at the boundary.
#![tactic(auto)]

pub mod calls;
// For the C interface answers and refusals are numbers there, which the header for hosts has by name.
pub mod layout;
pub mod replies;
