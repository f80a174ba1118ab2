// What is returned to C.
ghost use Rattle.std.specs.Prelude.{◌≡◌};
ghost use Rattle.capi.specs.Outcomes.{told};

use crate::records::Outcome;
use crate::stop::Stop;

impl From<Result<usize, Stop>> for Outcome {
    ghost from_gives = { λ res r. r ≡ told res };

    fn from(res: Result<usize, Stop>) -> Outcome {
        let (status, row, value) = match res {
            Ok(value) => (0, 0, value),
            Err(Stop::Refused(refusal)) => (1, refusal.number(), refusal.value()),
            Err(Stop::Memory) => (2, 0, 0),
            Err(Stop::UnknownScheme(code)) => (3, 0, code),
            Err(Stop::UnknownCall(i)) => (4, 0, i),
        };
        Outcome { status, row, value }
    }
}
