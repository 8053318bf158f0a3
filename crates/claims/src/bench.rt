// Document 01, "Bench cases (these are proved)".
ghost use Rattle.claims.specs.BenchCases.{AllHold, table};

// The ten cases hold of the rules: the claim is all that it gives.
#[tactic(auto, using(crate::proofs::CasesHold::cases_hold))]
pub fn bench_cases()
    ensures { AllHold table }
{}
