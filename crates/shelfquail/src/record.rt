// The lines of the record.
ghost use Rattle.std.specs.Prelude.{Some};
ghost use Rattle.shelfquail.specs.Record.{base_line};

use base::Counts;
use refusal::Refusal;
use std::fmt;

// The line for a base that was to be read.
#[derive(Drop)]
pub(crate) struct BaseLine(pub(crate) Result<Counts, Refusal>);

impl fmt::Display for BaseLine {
    ghost output = { λ x. Some (base_line x.0) };

    fn fmt<W: fmt::Write>(&self, f: &mut fmt::Formatter<W>) -> fmt::Result {
        match self.0 {
            Ok(
                Counts {
                    vertices,
                    edges,
                    faces,
                },
            ) => write!(f, "base {vertices} {edges} {faces}"),
            Err(refusal) => write!(f, "base {refusal}"),
        }
    }
}
