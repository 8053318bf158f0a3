// The theorem stands in this function's promise: it has a line of its own among what is proved, and runs nothing.
ghost use Rattle.conservation.specs.Conserved.{Conservation};
ghost use Rattle.conservation.specs.Impostors.{ImpostorsRefused};

pub fn conservation()
    ensures { Conservation }
{}

// The impostors of document 01: lists of calls with wrong answers or a wrong memory, which the claim of the theorem refuses
// whatever the target holds.
#[tactic(auto, using(crate::proofs::ImpostorLaws::impostors_refused))]
pub fn impostors_refused()
    ensures { ImpostorsRefused }
{}
