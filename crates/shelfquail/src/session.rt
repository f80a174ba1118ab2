// A job at work: what its commands have made so far, and the lines that they add to the record.
ghost use Rattle.std.specs.Prelude.{◌≡◌, IfOk, OnOk, IsOkUnless};
ghost use Rattle.base.specs.Bases.{shape};
ghost use Rattle.mesh.specs.Reading.{reading};
ghost use Rattle.mesh.specs.Shape.{starting};
ghost use Rattle.job.specs.Meaning.{meaning};
ghost use Rattle.job.specs.Words.{words};
ghost use Rattle.shelfquail.specs.Record.{base_line, base_entry, Takes};
ghost use Rattle.shelfquail.specs.Said.{said, Follows, Stopped};
ghost use Rattle.shelfquail.specs.declared.session.Trouble.TheVariants.{Line as Bad-line, Record as Unwritten, Memory as No-memory};

use crate::record::BaseLine;
use base::Base;
use job::{Command, Complaint, parse_line};
use refusal::Fault;
use std::alloc::{AllocError, Global};
use std::{fmt, fs, io};

// What ends a job before its last line.
#[derive(Drop)]
pub(crate) enum Trouble<'a> {
    // the line is no command
    Line(Complaint<'a>),
    // the file of this name cannot be read
    File(&'a str, io::Error),
    // the record cannot be written
    Record(io::Error),
    // there was no memory
    Memory,
}

impl<'a> From<Complaint<'a>> for Trouble<'a> {
    ghost from_gives = { λ complaint r. r ≡ Bad-line complaint };

    fn from(complaint: Complaint<'a>) -> Trouble<'a> {
        Trouble::Line(complaint)
    }
}

// The error of a write to the record. That of a file is kept with its name.
impl From<io::Error> for Trouble<'_> {
    ghost from_gives = { λ e r. r ≡ Unwritten e };

    fn from(e: io::Error) -> Self {
        Trouble::Record(e)
    }
}

impl fmt::Display for Trouble<'_> {
    ghost output = { λ x. said x };

    fn fmt<W: fmt::Write>(&self, f: &mut fmt::Formatter<W>) -> fmt::Result {
        match self {
            Trouble::Line(complaint) => write!(f, "{complaint}"),
            Trouble::File(name, e) => write!(f, "cannot read the file {name}: {e}"),
            Trouble::Record(e) => write!(f, "cannot write the record: {e}"),
            Trouble::Memory => write!(f, "out of memory"),
        }
    }
}

#[derive(Drop)]
pub(crate) struct Session {
    base: Base,
}

impl Session {
    pub(crate) fn start(heap: Global) -> Result<Session, AllocError>
        ensures { IfOk result (λ s. shape s.base ≡ starting) }
    {
        let base = Base::start(heap)?;
        Ok(Session { base })
    }

    // Does what the line asks for. Answers what the record says of it, or nothing if it asks for nothing.
    pub(crate) fn run<'a>(
        &mut self,
        rt: &HostRuntime,
        line: &'a str,
    ) -> Result<Option<BaseLine>, Trouble<'a>>
        ensures { Follows (meaning (words line.now)) result }
    {
        match parse_line(line)? {
            None => Ok(None),
            Some(Command::Base(file)) => Ok(Some(self.run_base(rt, file)?)),
        }
    }

    fn run_base<'a>(&mut self, rt: &HostRuntime, file: &'a str) -> Result<BaseLine, Trouble<'a>>
        ensures { Stopped file.now result }
    {
        let bytes = fs::read(rt, file).map_err(|e| Trouble::File(file, e))?;
        self.read_base(rt.alloc(), &bytes)
    }

    // Takes the base that `bytes` spell, and answers the record's line for it.
    fn read_base<'a>(&mut self, heap: Global, bytes: &[u8]) -> Result<BaseLine, Trouble<'a>>
        ensures entry { IfOk result (λ line. base_line line.0 ≡ base_entry (reading bytes.now)) }
        ensures taken { OnOk result (Takes (reading bytes.now) self.old.base self.new.base) }
        ensures memory { IsOkUnless result No-memory }
    {
        match self.base.read(heap, bytes) {
            Ok(counts) => Ok(BaseLine(Ok(counts))),
            Err(Fault::Refused(refusal)) => Ok(BaseLine(Err(refusal))),
            Err(Fault::Memory) => Err(Trouble::Memory),
        }
    }
}
