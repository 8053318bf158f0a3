// Text written into a buffer: bytes, numbers in decimal, bytes in hex. It knows nothing of Portals.
#![tactic(auto)]

pub mod decimals;
pub mod hex;
pub mod writing;
