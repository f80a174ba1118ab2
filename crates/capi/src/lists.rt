// Lists of records, read and written.
ghost use Rattle.std.specs.Prelude.{◌≡◌, ◌≤◌, ◌++◌, map, length, drop, IfOk, None, MatchResult};
ghost use Rattle.capi.specs.Records.{call_of, unknown_call, Computes};
ghost use Rattle.capi.specs.Stops.{Unread};

use crate::crossing::Crossing;
use crate::records::CallRecord;
use crate::stop::Stop;
use history::Call;
use std::alloc::{AllocError, Global};

// What the records say, one by one.
pub(crate) fn read_all<R: Copy, T: From<R> + Copy>(
    heap: Global,
    records: &[R],
) -> Result<Vec<T>, AllocError>
    ensures { (f : R → T) → Computes T.from_gives f → IfOk result (λ v. v.items ≡ map f records.now) }
{
    records.iter().map(|record| T::from(*record)).collect(heap)
}

// The first call whose code is none.
fn first_unknown(records: &[CallRecord]) -> Option<usize>
    ensures { result ≡ unknown_call records.now }
{
    records
        .iter()
        .position(|record| !(1..=5).contains(&record.code))
}

// The calls, or the first whose code is none. All codes are looked at first, so that an unknown one is told whatever the memory, and takes none.
pub(crate) fn read_calls<V: Crossing>(
    heap: Global,
    records: &[CallRecord],
) -> Result<Vec<Call<V>>, Stop>
    ensures { MatchResult result (λ v. (unknown_call records.now ≡ None) × (v.items ≡ map (call_of V.Crossing.arrives) records.now)) (Unread (unknown_call records.now)) }
{
    if let Some(i) = first_unknown(records) {
        return Err(Stop::UnknownCall(i));
    }
    let mut calls = Vec::with_capacity(heap, records.len())?;
    for (i, record) in records.iter().enumerate() {
        // no code is unknown here: all of them were looked at first
        let Ok(call) = Call::try_from(*record) else {
            return Err(Stop::UnknownCall(i));
        };
        calls.push(call)?;
    }
    Ok(calls)
}

// The items, written over the first records; not by a zip over iter_mut, after which a proof knows nothing of the records.
pub(crate) fn write_front<T: Copy, R: From<T> + Copy>(records: &mut [R], items: &[T])
    requires { length items.now ≤ length records.old }
    ensures { (f : T → R) → Computes R.from_gives f → records.new ≡ map f items.now ++ drop (length items.now) records.old }
{
    for (i, item) in items.iter().enumerate() {
        records[i] = R::from(*item);
    }
}
