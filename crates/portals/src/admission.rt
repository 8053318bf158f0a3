// Document 01, "Refusals": whether a call is admitted. It is decided before anything changes.
ghost use Rattle.std.specs.Prelude.{◌≡◌, ◌∷◌, []};
ghost use Rattle.matching.specs.Refusals.{first_bad};
ghost use Rattle.portals.specs.Refusals.{good_arguments};
ghost use Rattle.portals.specs.Admission.{Admits};

use matching::refusals::{BadArgument, Refusal};
use state::layout::Target;

// The test of an argument, where it is the only one: a condition, and the argument that is bad without it,
// as a test of the definition has them: no other form is plainer.
pub fn test_argument(passed: bool, argument: BadArgument) -> Result<(), BadArgument>
    ensures { result ≡ first_bad (record { passed = passed; argument = argument } ∷ []) }
{
    if passed { Ok(()) } else { Err(argument) }
}

// BAD_STATE, unless the state is sound.
pub fn test_state(t: &Target) -> Result<(), Refusal>
    ensures { Admits (λ v. []) t.now result }
{
    if t.is_sound() {
        Ok(())
    } else {
        Err(Refusal::BadState)
    }
}

// Admits a call that tests only its state and its arguments; `tested` is the test of these.
pub fn admit(t: &Target, tested: Result<(), BadArgument>) -> Result<(), Refusal>
    ensures { Admits (λ v. good_arguments tested ∷ []) t.now result }
{
    test_state(t)?;
    tested?;
    Ok(())
}
