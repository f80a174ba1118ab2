// Why a call of the library did not do its work.
ghost use Rattle.std.specs.Prelude.{◌≡◌};
ghost use Rattle.capi.specs.Stops.{stop_of};
ghost use Rattle.capi.specs.declared.stop.Stop.TheVariants.{Refused as Refused-by, Memory as No-memory};

use refusal::{Fault, Refusal};
use std::alloc::{AllocError, AllocFailed as Unstored};

// A `Fault` inside would be taken apart in the one place where a stop is told, so its two cases stand here.
#[derive(Clone, Copy)]
pub enum Stop {
    // what was handed in is refused
    Refused(Refusal),
    // there was no memory
    Memory,
    // no scheme has this code
    UnknownScheme(usize),
    // this call's code is none
    UnknownCall(usize),
}

impl From<Refusal> for Stop {
    ghost from_gives = { λ e r. r ≡ Refused-by e };

    fn from(e: Refusal) -> Stop {
        Stop::Refused(e)
    }
}

impl From<AllocError> for Stop {
    ghost from_gives = { λ _ r. r ≡ No-memory };

    fn from(_e: AllocError) -> Stop {
        Stop::Memory
    }
}

impl<T: Drop> From<Unstored<T>> for Stop {
    ghost from_gives = { λ _ r. r ≡ No-memory };

    fn from(_e: Unstored<T>) -> Stop {
        Stop::Memory
    }
}

impl From<Fault> for Stop {
    ghost from_gives = { λ e r. r ≡ stop_of e };

    fn from(e: Fault) -> Stop {
        match e {
            Fault::Refused(refusal) => Stop::Refused(refusal),
            Fault::Memory => Stop::Memory,
        }
    }
}
