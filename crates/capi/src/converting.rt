// From the records of C to calls and slots, and from answers and slots to records.
ghost use Rattle.std.specs.Prelude.{◌≡◌, true, OkIff};
ghost use Rattle.capi.specs.Crossings.{of_pairs};
ghost use Rattle.capi.specs.Records.{known, nothing, call_of, answer_record, slot_of, slot_record, Askable, Distinct};

use crate::crossing::Crossing;
use crate::records::{AnswerRecord, CallRecord, PointAndMarks, SlotRecord};
use history::{Answer, Call, Reply, Request, Slot};
use kinds::{MarkedPoint, Marks, Point, ValueKind};

// No call has this code.
#[derive(Clone, Copy)]
pub struct UnknownCode;

impl<V: Crossing> TryFrom<CallRecord> for Call<V> {
    type Error = UnknownCode;

    ghost try_from_gives = { λ source r. OkIff r (known source.code ≡ true) (call_of V.Crossing.arrives source) };

    fn try_from(source: CallRecord) -> Result<Call<V>, UnknownCode>
        ensures value { OkIff result (known source.code ≡ true) (call_of V.Crossing.arrives source) }
        ensures askable { Askable V.Crossing.arrives V.Crossing.leaves }
    {
        let request = match source.code {
            1 => Request::Analyse,
            2 => Request::Synthesise,
            3 => Request::Move(source.place, V::arrive(source.amount)),
            4 => Request::TakeBack,
            5 => Request::Read(source.place),
            _ => return Err(UnknownCode),
        };
        Ok(Call {
            request,
            points: source.points,
            slots: source.slots,
        })
    }
}

impl<V: Crossing> From<SlotRecord> for Slot<V> {
    ghost from_gives = { λ source slot. slot ≡ slot_of V.Crossing.arrives source };

    fn from(source: SlotRecord) -> Slot<V> {
        Slot {
            place: source.place,
            depth: source.depth,
            amount: V::arrive(source.amount),
        }
    }
}

impl<V: Crossing> From<Slot<V>> for SlotRecord {
    ghost from_gives = { λ source r. r ≡ slot_record V.Crossing.leaves source };

    fn from(source: Slot<V>) -> SlotRecord {
        SlotRecord {
            place: source.place,
            depth: source.depth,
            amount: source.amount.leave(),
        }
    }
}

fn no_value() -> PointAndMarks
    ensures { result ≡ nothing }
{
    PointAndMarks {
        point: Point::zero(),
        marks: Marks::zero(),
    }
}

impl<V: Crossing> From<Answer<V>> for AnswerRecord {
    ghost from_gives = { λ source r. r ≡ answer_record V.Crossing.leaves source };

    fn from(source: Answer<V>) -> AnswerRecord
        ensures value { result ≡ answer_record V.Crossing.leaves source }
        ensures distinct { Distinct V.Crossing.leaves }
    {
        let (code, row, number, value) = match source {
            Ok(Reply::Depth(depth)) => (1, 0, depth, no_value()),
            Ok(Reply::Count(count)) => (2, 0, count, no_value()),
            Ok(Reply::Value(value)) => (3, 0, 0, value.leave()),
            Err(refusal) => (4, refusal.number(), refusal.value(), no_value()),
        };
        AnswerRecord {
            code,
            row,
            number,
            value,
        }
    }
}

impl From<PointAndMarks> for MarkedPoint {
    ghost from_gives = { λ source pair. pair ≡ of_pairs.arrives source };

    fn from(source: PointAndMarks) -> MarkedPoint {
        <MarkedPoint as Crossing>::arrive(source)
    }
}

impl From<MarkedPoint> for PointAndMarks {
    ghost from_gives = { λ source carried. carried ≡ of_pairs.leaves source };

    fn from(source: MarkedPoint) -> PointAndMarks {
        source.leave()
    }
}
