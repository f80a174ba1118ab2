// A whole run: a form is opened, and any list of calls is made on it.
ghost use Rattle.std.specs.Prelude.{◌≡◌};
ghost use Rattle.lifting.specs.HalfSteps.{rule};
ghost use Rattle.history.specs.Histories.{History};
ghost use Rattle.history.specs.Memory.{lending, Stands, Kept, Made};
ghost use Rattle.history.specs.Promise.{Promise, lent_to};

use crate::form::Form;
use crate::writing::put;
use hierarchy::Hierarchy;
use history::{Answer, Call, Request, Slot, count_answer, depth_answer, value_answer};
use refusal::Refusal;
use schemes::Scheme;

impl<'f, H: Hierarchy, S: Scheme> Form<'f, H, S> {
    // Any of the five calls.
    fn serve(
        &mut self,
        points: &mut [S::Value],
        slots: &mut [Slot<S::Value>],
        request: Request<S::Value>,
    ) -> Answer<S::Value>
        ensures call { Kept (H.meaning self.old.setting.hierarchy.now) (rule S.Scheme S.Value.ValueKind self.old.setting.scheme.now) request (lending self.old.state points.old slots.old) result (lending self.new.state points.new slots.new) }
        ensures setting { self.new.setting ≡ self.old.setting }
    {
        match request {
            Request::Analyse => depth_answer(self.analyse(points, slots)),
            Request::Synthesise => depth_answer(self.synthesise(points, slots)),
            Request::Move(place, amount) => count_answer(self.move_by(
                points, slots, place, amount,
            )),
            Request::TakeBack => count_answer(self.take_back(points, slots)),
            Request::Read(place) => value_answer(self.read(points, slots, place)),
        }
    }

    // A call that is lent the first so many points and slots, or all where there are less.
    fn make(
        &mut self,
        points: &mut [S::Value],
        slots: &mut [Slot<S::Value>],
        call: Call<S::Value>,
    ) -> Answer<S::Value>
        ensures call { (h : History S.Value) → Stands (H.meaning self.old.setting.hierarchy.now) (rule S.Scheme S.Value.ValueKind self.old.setting.scheme.now) (lending self.old.state points.old slots.old) h → Made (H.meaning self.old.setting.hierarchy.now) (rule S.Scheme S.Value.ValueKind self.old.setting.scheme.now) h call slots.old result (lending self.new.state points.new slots.new) }
        ensures setting { self.new.setting ≡ self.old.setting }
    {
        let points_lent = call.points.min(points.len());
        let slots_lent = call.slots.min(slots.len());
        self.serve(
            &mut points[..points_lent],
            &mut slots[..slots_lent],
            call.request,
        )
    }
}

// Opens a form, and makes as many of the calls on it, in order, as there is room for answers. Returns how many that were.
pub fn perform<'f, H: Hierarchy, S: Scheme>(
    h: &'f H,
    s: &'f S,
    points: &mut [S::Value],
    slots: &mut [Slot<S::Value>],
    depth: usize,
    calls: &[Call<S::Value>],
    answers: &mut [Answer<S::Value>],
) -> Result<usize, Refusal>
    ensures { Promise (H.meaning h.now) (rule S.Scheme S.Value.ValueKind s.now) (S.Scheme.uniform s.now) depth calls.now (lent_to points.old slots.old answers.old) (lent_to points.new slots.new answers.new) result }
{
    let mut form = Form::open(h, s, points, slots, depth)?;
    let count = calls.len().min(answers.len());
    let made = &calls[..count];
    // not by a zip over `answers.iter_mut()`, after which a proof knows nothing of what was written
    for (i, call) in made.iter().enumerate() {
        let answer = form.make(points, slots, *call);
        put(answers, i, answer);
    }
    Ok(count)
}
