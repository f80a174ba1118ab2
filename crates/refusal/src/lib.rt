// Every refusal that the product can answer, in one closed table.
#![tactic(auto)]

ghost use Rattle.std.specs.Prelude.{◌≡◌, Some};
ghost use Rattle.refusal.specs.Table.{row};
ghost use Rattle.refusal.specs.Printed.{printed, printed_fault};
ghost use Rattle.refusal.specs.declared.Fault.TheVariants.{Refused as Refused-by, Memory};

use std::alloc::{AllocError, AllocFailed as Unstored};
use std::error::Error;
use std::fmt;

// What was wrong with a call, with the place or number at which it was.
#[derive(Clone, Copy, Debug, PartialEq, Eq)]
pub enum Refusal {
    // the bytes end inside this record, or before an end record
    Truncated(usize),
    // this record's kind is above 8
    UnknownKind(usize),
    // this record's kind may not come after the one before it
    OutOfOrder(usize),
    // this record has a dimension above 2, an unknown vertex, or one vertex twice
    BadVertex(usize),
    // this curve record names no edge, or one already named
    BadCurve(usize),
    // this face record would give an edge a third face
    ThirdFace(usize),
    // this record passes a maximum, or ends the base before any face
    TooMany(usize),
    // the first byte after the end record
    TrailingByte(usize),
    // this edge lies in one face and is no curve
    OpenEdge(usize),
    // this vertex lies in no face, or has more than 8 edges
    BadValence(usize),
    // this vertex's dimension does not fit its curve edges
    BadDimension(usize),
    // so many levels: not 1 to 5
    LevelCount(usize),
    // the first level with more than 65,536 vertices
    TooFine(usize),
    // the table is shorter than this
    TableTooShort(usize),
    // this refined vertex has more than 8 edges
    RefinedValence(usize),
    // no curve has so many points
    CurveSize(usize),
    // the scheme needs a uniform hierarchy
    NotUniform,
    // memory of this length, which is not the one stated or opened
    WrongLength(usize),
    // there is no such depth, or nothing beyond it
    NoSuchDepth(usize),
    // there is no such place
    NoSuchPlace(usize),
    // the move list holds this many moves and has no slot left
    ListFull(usize),
    // there is no surviving move
    NoSurvivingMove,
    // the last move's slot names no place or no depth
    SpoiledSlot(usize),
}

impl Refusal {
    // The row of the table.
    pub fn number(self) -> usize
        ensures { result ≡ (row self).number }
    {
        match self {
            Refusal::Truncated(_) => 1,
            Refusal::UnknownKind(_) => 2,
            Refusal::OutOfOrder(_) => 3,
            Refusal::BadVertex(_) => 4,
            Refusal::BadCurve(_) => 5,
            Refusal::ThirdFace(_) => 6,
            Refusal::TooMany(_) => 7,
            Refusal::TrailingByte(_) => 8,
            Refusal::OpenEdge(_) => 9,
            Refusal::BadValence(_) => 10,
            Refusal::BadDimension(_) => 11,
            Refusal::LevelCount(_) => 12,
            Refusal::TooFine(_) => 13,
            Refusal::TableTooShort(_) => 14,
            Refusal::RefinedValence(_) => 15,
            Refusal::CurveSize(_) => 16,
            Refusal::NotUniform => 17,
            Refusal::WrongLength(_) => 18,
            Refusal::NoSuchDepth(_) => 19,
            Refusal::NoSuchPlace(_) => 20,
            Refusal::ListFull(_) => 21,
            Refusal::NoSurvivingMove => 22,
            Refusal::SpoiledSlot(_) => 23,
        }
    }

    // The place or number that the row carries.
    pub fn value(self) -> usize
        ensures { result ≡ (row self).value }
    {
        match self {
            Refusal::Truncated(record)
            | Refusal::UnknownKind(record)
            | Refusal::OutOfOrder(record)
            | Refusal::BadVertex(record)
            | Refusal::BadCurve(record)
            | Refusal::ThirdFace(record)
            | Refusal::TooMany(record) => record,
            Refusal::TrailingByte(index) => index,
            Refusal::OpenEdge(edge) => edge,
            Refusal::BadValence(vertex)
            | Refusal::BadDimension(vertex)
            | Refusal::RefinedValence(vertex) => vertex,
            Refusal::LevelCount(levels) => levels,
            Refusal::TooFine(level) => level,
            Refusal::TableTooShort(length) | Refusal::WrongLength(length) => length,
            Refusal::CurveSize(points) => points,
            Refusal::NoSuchDepth(depth) => depth,
            Refusal::NoSuchPlace(place) => place,
            Refusal::ListFull(count) => count,
            Refusal::SpoiledSlot(slot) => slot,
            Refusal::NotUniform | Refusal::NoSurvivingMove => 0,
        }
    }
}

// The row as every program prints it.
impl fmt::Display for Refusal {
    ghost output = { λ x. Some (printed x) };

    fn fmt<W: fmt::Write>(&self, f: &mut fmt::Formatter<W>) -> fmt::Result {
        let number = self.number();
        let value = self.value();
        write!(f, "refused {number} {value}")
    }
}

impl Error for Refusal {}

// Why a call that may need memory did not do its work.
#[derive(Clone, Copy, Debug, PartialEq, Eq)]
pub enum Fault {
    // what was handed in is refused
    Refused(Refusal),
    // there was no memory; this stands outside the table and has no number
    Memory,
}

impl fmt::Display for Fault {
    ghost output = { λ x. Some (printed_fault x) };

    fn fmt<W: fmt::Write>(&self, f: &mut fmt::Formatter<W>) -> fmt::Result {
        match self {
            Fault::Refused(refusal) => write!(f, "{refusal}"),
            Fault::Memory => write!(f, "out of memory"),
        }
    }
}

impl Error for Fault {}

impl From<Refusal> for Fault {
    ghost from_gives = { λ e r. r ≡ Refused-by e };

    fn from(e: Refusal) -> Fault {
        Fault::Refused(e)
    }
}

impl From<AllocError> for Fault {
    ghost from_gives = { λ _ r. r ≡ Memory };

    fn from(_e: AllocError) -> Fault {
        Fault::Memory
    }
}

impl<T: Drop> From<Unstored<T>> for Fault {
    ghost from_gives = { λ _ r. r ≡ Memory };

    fn from(_e: Unstored<T>) -> Fault {
        Fault::Memory
    }
}
