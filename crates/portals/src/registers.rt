// Document 01, "Events", its last paragraph: the call that reads a status register.
ghost use Rattle.std.specs.Prelude.{◌≡◌};
ghost use Rattle.portals.specs.CounterCalls.{bad_register_argument};
ghost use Rattle.portals.specs.Promises.{ReadRegisterMet};

use crate::admission;
use matching::refusals::{BadArgument, Refusal};
use state::layout::Target;

// The test of a register read.
pub fn test_register(k: u64) -> Result<(), BadArgument>
    ensures { result ≡ bad_register_argument k }
{
    admission::test_argument(k <= 2, BadArgument::Register)
}

// Reads a status register.
pub fn read_register(t: &Target, k: u64) -> Result<u64, Refusal>
    ensures { ReadRegisterMet t.now k result }
{
    admission::admit(t, test_register(k))?;
    Ok(t.registers.at(k))
}
