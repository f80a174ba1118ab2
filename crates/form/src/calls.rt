// Opening a form, and the five calls on it.
ghost use Rattle.std.specs.Prelude.{◌≡◌, ◌≤◌, length, Ok, Err, MatchResult};
ghost use Rattle.lifting.specs.HalfSteps.{rule};
ghost use Rattle.lifting.specs.Travel.{travelled};
ghost use Rattle.history.specs.Answers.{depth_answer, count_answer, value_answer};
ghost use Rattle.history.specs.Rows.{finest, opening_verdict};
ghost use Rattle.history.specs.Memory.{lending, Kept};
ghost use Rattle.history.specs.declared.call.Request.TheVariants.{Analyse, Synthesise, Move, TakeBack, Read};
ghost use Rattle.form.specs.Opened.{Opened};

use crate::form::{Form, Setting};
use crate::writing::add;
use hierarchy::Hierarchy;
use history::{Request, Slot, State};
use kinds::ValueKind;
use lifting::travel;
use refusal::Refusal;
use schemes::Scheme;

impl<'f, H: Hierarchy, S: Scheme> Form<'f, H, S> {
    // Opens a form on these points and this move list, which it does not write to.
    pub fn open(
        hierarchy: &'f H,
        scheme: &'f S,
        points: &[S::Value],
        slots: &[Slot<S::Value>],
        depth: usize,
    ) -> Result<Form<'f, H, S>, Refusal>
        ensures { MatchResult result (λ form. Opened (H.meaning hierarchy.now) (rule S.Scheme S.Value.ValueKind scheme.now) (S.Scheme.uniform scheme.now) depth (lending form.state points.now slots.now) × (form.setting.hierarchy ≡ hierarchy.entry) × (form.setting.scheme ≡ scheme.entry)) (λ e. opening_verdict (H.meaning hierarchy.now) (S.Scheme.uniform scheme.now) (length points.now) (length slots.now) depth ≡ Err e) }
    {
        let setting = Setting { hierarchy, scheme };
        setting.check_opening(points.len(), slots.len(), depth)?;
        let state = State {
            depth,
            survivors: 0,
            slots: slots.len(),
        };
        Ok(Form { setting, state })
    }

    // The depth, the number of surviving moves, and the length of the move list.
    pub fn state(&self) -> State
        ensures { result ≡ self.now.state }
    {
        self.state
    }

    // Takes the points to another depth, and answers it.
    fn go(&mut self, points: &mut [S::Value], depth: usize) -> Result<usize, Refusal>
        requires whole { length points.old ≡ finest (H.meaning self.old.setting.hierarchy.now) }
        requires from { self.old.state.depth ≤ (H.meaning self.old.setting.hierarchy.now).levels }
        requires to { depth ≤ (H.meaning self.old.setting.hierarchy.now).levels }
        ensures result { result ≡ Ok depth }
        ensures points { points.new ≡ travelled (H.meaning self.old.setting.hierarchy.now) (rule S.Scheme S.Value.ValueKind self.old.setting.scheme.now) self.old.state.depth depth points.old }
        ensures state { self.new.state ≡ record { depth = depth; survivors = self.old.state.survivors; slots = self.old.state.slots } }
        ensures setting { self.new.setting ≡ self.old.setting }
    {
        travel(
            self.setting.hierarchy,
            self.setting.scheme,
            points,
            self.state.depth,
            depth,
        )?;
        self.state.depth = depth;
        Ok(depth)
    }

    // Goes one depth down, and answers the depth reached.
    pub fn analyse(
        &mut self,
        points: &mut [S::Value],
        slots: &[Slot<S::Value>],
    ) -> Result<usize, Refusal>
        ensures call { Kept (H.meaning self.old.setting.hierarchy.now) (rule S.Scheme S.Value.ValueKind self.old.setting.scheme.now) Analyse (lending self.old.state points.old slots.now) (depth_answer result) (lending self.new.state points.new slots.now) }
        ensures setting { self.new.setting ≡ self.old.setting }
    {
        self.check(points, slots, Request::Analyse)?;
        self.go(points, self.state.depth - 1)
    }

    // Goes one depth up, and answers the depth reached.
    pub fn synthesise(
        &mut self,
        points: &mut [S::Value],
        slots: &[Slot<S::Value>],
    ) -> Result<usize, Refusal>
        ensures call { Kept (H.meaning self.old.setting.hierarchy.now) (rule S.Scheme S.Value.ValueKind self.old.setting.scheme.now) Synthesise (lending self.old.state points.old slots.now) (depth_answer result) (lending self.new.state points.new slots.now) }
        ensures setting { self.new.setting ≡ self.old.setting }
    {
        self.check(points, slots, Request::Synthesise)?;
        self.go(points, self.state.depth + 1)
    }

    // Adds the amount at the place, writes the move into the next slot, and answers how many moves survive.
    pub fn move_by(
        &mut self,
        points: &mut [S::Value],
        slots: &mut [Slot<S::Value>],
        place: usize,
        amount: S::Value,
    ) -> Result<usize, Refusal>
        ensures call { Kept (H.meaning self.old.setting.hierarchy.now) (rule S.Scheme S.Value.ValueKind self.old.setting.scheme.now) (Move place amount) (lending self.old.state points.old slots.old) (count_answer result) (lending self.new.state points.new slots.new) }
        ensures setting { self.new.setting ≡ self.old.setting }
    {
        self.check(points, slots, Request::Move(place, amount))?;
        slots[self.state.survivors] = Slot {
            place,
            depth: self.state.depth,
            amount,
        };
        add(points, place, amount);
        self.state.survivors += 1;
        Ok(self.state.survivors)
    }

    // Takes the last surviving move back at its own depth, and answers how many moves are left. Its slot stays.
    pub fn take_back(
        &mut self,
        points: &mut [S::Value],
        slots: &[Slot<S::Value>],
    ) -> Result<usize, Refusal>
        ensures call { Kept (H.meaning self.old.setting.hierarchy.now) (rule S.Scheme S.Value.ValueKind self.old.setting.scheme.now) TakeBack (lending self.old.state points.old slots.now) (count_answer result) (lending self.new.state points.new slots.now) }
        ensures setting { self.new.setting ≡ self.old.setting }
    {
        self.check(points, slots, Request::TakeBack)?;
        let last = self.last_move(slots)?;
        let depth = self.state.depth;
        self.go(points, last.depth)?;
        add(points, last.place, last.amount.opposite());
        self.go(points, depth)?;
        self.state.survivors -= 1;
        Ok(self.state.survivors)
    }

    // Answers the value at the place.
    pub fn read(
        &self,
        points: &[S::Value],
        slots: &[Slot<S::Value>],
        place: usize,
    ) -> Result<S::Value, Refusal>
        ensures { Kept (H.meaning self.now.setting.hierarchy.now) (rule S.Scheme S.Value.ValueKind self.now.setting.scheme.now) (Read place) (lending self.now.state points.now slots.now) (value_answer result) (lending self.now.state points.now slots.now) }
    {
        self.check(points, slots, Request::Read(place))?;
        Ok(points[place])
    }
}
