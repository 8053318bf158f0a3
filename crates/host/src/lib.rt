// Document 01, "who lends it to each call": the calls that a host makes on a target which it keeps and lends.
#![tactic(auto)]

pub mod by_value;
pub mod lent;
