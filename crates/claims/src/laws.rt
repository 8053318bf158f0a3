// What document 01 says of every call on a target.
ghost use Rattle.claims.specs.Laws.{CallLaws};

// A sound state stays sound, the size is fixed, a refusal changes nothing, handles count up, and nothing is delivered at a portal
// above 7: the claim is all that it gives.
#[tactic(auto, using(crate::proofs::CallLaws::call_laws))]
pub fn call_laws()
    ensures { CallLaws }
{}
