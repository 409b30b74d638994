//! Refusals of scripts, with the place of the value that is refused.

use crate::location::Location;
use crate::read_fault::ReadFault;
use crate::reason::Reason;
use std::alloc::AllocError;
use std::error::Error;
use std::fmt;

/// Why a JSON value is refused as a script, and where.
///
/// Its text is `{at}: {number} {name}: {why}`, as `agents[3].calls[37][1]: 11 BadName: no view is called "lokc"`.
#[derive(Clone, Copy, Debug)]
pub struct Located {
    /// Where.
    pub at: Location,
    /// Why.
    pub why: Reason,
}

impl Located {
    ghost use Rattle.std.specs.Prelude.{◌≡◌};
    ghost use Rattle.sab_refusal.specs.Reason.{fault_of};

    /// The fault that it is.
    pub fn fault(self) -> ReadFault
        ensures { result ≡ fault_of self.why }
    {
        self.why.fault()
    }
}

impl fmt::Display for Located {
    ghost use Rattle.std.specs.Prelude.{Some};
    ghost use Rattle.sab_refusal.specs.Located.{located_text};

    ghost output = { λ refusal. Some (located_text refusal) };

    fn fmt<W: fmt::Write>(&self, f: &mut fmt::Formatter<W>) -> fmt::Result {
        let (at, why) = (self.at, self.why);
        let fault = why.fault();
        let number = fault.number();
        let name = fault.name();
        write!(f, "{at}: {number} {name}: {why}")
    }
}

impl Error for Located {}

impl From<AllocError> for Located {
    ghost use Rattle.std.specs.Prelude.{◌≡◌};
    ghost use Rattle.sab_refusal.specs.declared.reason.Reason.TheVariants.{Memory};

    ghost from_gives = { λ _ refusal. refusal.why ≡ Memory };

    fn from(_refused: AllocError) -> Located {
        Located {
            at: Location::Script,
            why: Reason::Memory,
        }
    }
}
