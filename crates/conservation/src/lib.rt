// Demand 3: early messages are conserved over every list of calls. The steps, the ledger and the claim are in specs/.
#![tactic(auto)]

pub mod example;
pub mod theorem;
