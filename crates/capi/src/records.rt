// What crosses to C, field by field. Codes stand where Rattle has enums, which do not cross.
use kinds::{Marks, Point};

// A value of any kind: points use the one part, marks the other, and pairs both.
#[repr(C)]
#[derive(Clone, Copy)]
pub struct PointAndMarks {
    pub point: Point,
    pub marks: Marks,
}

// A call: what is asked for, and how many points and slots are lent for it.
#[repr(C)]
#[derive(Clone, Copy)]
pub struct CallRecord {
    // 1 analyse, 2 synthesise, 3 move, 4 take back, 5 read
    pub code: usize,
    // of a move or a read
    pub place: usize,
    // of a move
    pub amount: PointAndMarks,
    pub points: usize,
    pub slots: usize,
}

#[repr(C)]
#[derive(Clone, Copy)]
pub struct AnswerRecord {
    // 1 depth, 2 count, 3 value, 4 refused
    pub code: usize,
    // of a refusal
    pub row: usize,
    // the depth, the count, or the value that the refusal's row carries
    pub number: usize,
    // the value read
    pub value: PointAndMarks,
}

// A move, as the move list keeps it.
#[repr(C)]
#[derive(Clone, Copy)]
pub struct SlotRecord {
    pub place: usize,
    pub depth: usize,
    pub amount: PointAndMarks,
}

// What came of a whole call of the library.
#[repr(C)]
#[derive(Clone, Copy)]
pub struct Outcome {
    // 0 done, 1 refused, 2 no memory, 3 unknown scheme, 4 unknown call
    pub status: usize,
    // of a refusal
    pub row: usize,
    // the number answered, the value that the refusal's row carries, the scheme's code, or which call it was
    pub value: usize,
}

// What is said of the bytes of a base.
#[repr(C)]
#[derive(Clone, Copy)]
pub struct Judgement {
    pub outcome: Outcome,
    // 0 each, where the base is not accepted
    pub vertices: usize,
    pub edges: usize,
    pub faces: usize,
}
