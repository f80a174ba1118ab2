// What a run is asked to do, and doing it.
ghost use Rattle.std.specs.Prelude.{◌≡◌, ◌≤◌, min, map, length, IfOk};
ghost use Rattle.lifting.specs.HalfSteps.{rule};
ghost use Rattle.history.specs.Promise.{Promise, lent_to};
ghost use Rattle.capi.specs.Jobs.{beside, written, SameMemory, Performs};
ghost use Rattle.capi.specs.Records.{slot_of};
ghost use Rattle.capi.specs.Schemes.{law_of};

use crate::crossing::Crossing;
use crate::lists::{read_all, read_calls, write_front};
use crate::records::{AnswerRecord, CallRecord, SlotRecord};
use crate::stop::Stop;
use form::perform;
use hierarchy::Hierarchy;
use history::{Answer, Call, Reply, Slot};
use refusal::Refusal;
use schemes::Scheme;
use std::alloc::{AllocError, Global};

// What is handed in with the values of a run. Whatever is lent a job says that its memory stays the same, since it holds `&mut`s.
#[derive(Drop)]
pub struct Job<'a> {
    // the move list
    pub slots: &'a mut [SlotRecord],
    // room for answers
    pub answers: &'a mut [AnswerRecord],
    // where the form is opened
    pub depth: usize,
    pub calls: &'a [CallRecord],
    pub heap: Global,
}

impl Job<'_> {
    fn list<V: Crossing>(&self) -> Result<Vec<Slot<V>>, AllocError>
        ensures { IfOk result (λ v. v.items ≡ map (slot_of V.Crossing.arrives) self.now.slots.now) }
    {
        read_all(self.heap, self.slots)
    }

    // For an answer to each call that is made: no more are, however much room there is.
    fn room<V: Crossing>(&self) -> Result<Vec<Answer<V>>, AllocError>
        ensures { IfOk result (λ v. length v.items ≡ min (length self.now.calls.now) (length self.now.answers.now)) }
    {
        let count = self.calls.len().min(self.answers.len());
        Ok(vec![in self.heap; Ok(Reply::Count(0)); count]?)
    }

    // Opens a form on the points with a move list and room for answers, makes the calls, and writes list and answers down as records.
    fn serve<H: Hierarchy, V: Crossing, S: Scheme<Value = V>>(
        &mut self,
        h: &H,
        s: &S,
        points: &mut [V],
        list: &mut [Slot<V>],
        calls: &[Call<V>],
        room: &mut [Answer<V>],
    ) -> Result<usize, Refusal>
        requires slots { length list.old ≡ length self.old.slots.now }
        requires answers { length room.old ≤ length self.old.answers.now }
        ensures promise { Promise (H.meaning h.now) (rule S.Scheme V.ValueKind s.now) (S.Scheme.uniform s.now) self.old.depth calls.now (lent_to points.old list.old room.old) (lent_to points.new list.new room.new) result }
        ensures written { beside points.new self.new ≡ written V.Crossing.own result (beside points.old self.old) (lent_to points.new list.new room.new) }
        ensures same { SameMemory self.old self.new }
    {
        let count = perform(h, s, points, list, self.depth, calls, room)?;
        let answered = &room[..count];
        write_front(self.slots, list);
        write_front(self.answers, answered);
        Ok(count)
    }

    // The same, with calls, slots and answers as records.
    pub(crate) fn run<H: Hierarchy, V: Crossing, S: Scheme<Value = V>>(
        &mut self,
        h: &H,
        s: &S,
        points: &mut [V],
    ) -> Result<usize, Stop>
        ensures run { Performs V.Crossing.own (H.meaning h.now) (law_of S.Scheme V.ValueKind s.now) self.old.depth self.old.calls.now (beside points.old self.old) (beside points.new self.new) result }
        ensures same { SameMemory self.old self.new }
    {
        let calls = read_calls(self.heap, self.calls)?;
        let mut list = self.list()?;
        let mut room = self.room()?;
        Ok(self.serve(h, s, points, &mut list, &calls, &mut room)?)
    }
}
