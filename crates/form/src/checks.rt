// What an opening and a call are refused for, down the table of refusals.
ghost use Rattle.std.specs.Prelude.{◌≡◌, ◌<◌, ◌≤◌, [], Ok, Err, length, IfOk, IfErr, OnOk, MatchResult};
ghost use Rattle.lifting.specs.HalfSteps.{rule};
ghost use Rattle.history.specs.Rows.{finest, opening_verdict, lent_verdict, request_verdict};
ghost use Rattle.history.specs.Memory.{lending, last_slot, slot_verdict, call_verdict, Passed, Kept};
ghost use Rattle.history.specs.declared.call.Request.TheVariants.{TakeBack as TakingBack};

use crate::form::{Form, Setting};
use hierarchy::{Hierarchy, is_uniform};
use history::{Request, Slot, State};
use refusal::Refusal;
use schemes::Scheme;

// No move list is longer.
const MOST_SLOTS: usize = 4096;

impl<'f, H: Hierarchy, S: Scheme> Setting<'f, H, S> {
    pub(crate) fn check_opening(
        &self,
        points: usize,
        slots: usize,
        depth: usize,
    ) -> Result<(), Refusal>
        ensures { result ≡ opening_verdict (H.meaning self.now.hierarchy.now) (S.Scheme.uniform self.now.scheme.now) points slots depth }
    {
        if self.scheme.needs_uniform() && !is_uniform(self.hierarchy) {
            return Err(Refusal::NotUniform);
        }
        if points != self.hierarchy.places() {
            return Err(Refusal::WrongLength(points));
        }
        if slots > MOST_SLOTS {
            return Err(Refusal::WrongLength(slots));
        }
        if depth > self.hierarchy.levels() {
            return Err(Refusal::NoSuchDepth(depth));
        }
        Ok(())
    }
}

impl<'f, H: Hierarchy, S: Scheme> Form<'f, H, S> {
    fn check_lent(&self, points: usize, slots: usize) -> Result<(), Refusal>
        ensures { result ≡ lent_verdict (H.meaning self.now.setting.hierarchy.now) self.now.state points slots }
    {
        if points != self.setting.hierarchy.places() {
            return Err(Refusal::WrongLength(points));
        }
        if slots != self.state.slots {
            return Err(Refusal::WrongLength(slots));
        }
        Ok(())
    }

    fn check_request(&self, request: Request<S::Value>) -> Result<(), Refusal>
        ensures { result ≡ request_verdict (H.meaning self.now.setting.hierarchy.now) self.now.state request }
    {
        let State {
            depth,
            survivors,
            slots,
        } = self.state;
        let h = self.setting.hierarchy;
        match request {
            Request::Analyse if depth == 0 => Err(Refusal::NoSuchDepth(depth)),
            Request::Synthesise if depth >= h.levels() => Err(Refusal::NoSuchDepth(depth)),
            Request::Move(place, _) | Request::Read(place) if place >= h.places() => {
                Err(Refusal::NoSuchPlace(place))
            }
            Request::Move(_, _) if survivors >= slots => Err(Refusal::ListFull(survivors)),
            Request::TakeBack if survivors == 0 => Err(Refusal::NoSurvivingMove),
            _ => Ok(()),
        }
    }

    fn check_call(
        &self,
        points: usize,
        slots: usize,
        request: Request<S::Value>,
    ) -> Result<(), Refusal>
        ensures { result ≡ call_verdict (H.meaning self.now.setting.hierarchy.now) self.now.state points slots request }
    {
        self.check_lent(points, slots)?;
        // no opened form stands above the finest depth
        if self.state.depth > self.setting.hierarchy.levels() {
            return Err(Refusal::NoSuchDepth(self.state.depth));
        }
        self.check_request(request)
    }

    // All that a call is refused for but its slot.
    pub(crate) fn check(
        &self,
        points: &[S::Value],
        slots: &[Slot<S::Value>],
        request: Request<S::Value>,
    ) -> Result<(), Refusal>
        ensures passed { OnOk result (Passed (H.meaning self.now.setting.hierarchy.now) (lending self.now.state points.now slots.now) request) }
        ensures refused { IfErr result (λ e. Kept (H.meaning self.now.setting.hierarchy.now) (rule S.Scheme S.Value.ValueKind self.now.setting.scheme.now) request (lending self.now.state points.now slots.now) (Err e) (lending self.now.state points.now slots.now)) }
    {
        self.check_call(points.len(), slots.len(), request)
    }

    // The last surviving move, whose slot has to name a place and a depth.
    pub(crate) fn last_move(&self, slots: &[Slot<S::Value>]) -> Result<Slot<S::Value>, Refusal>
        requires { 0 < self.now.state.survivors }
        ensures verdict { MatchResult result (λ _. slot_verdict (H.meaning self.now.setting.hierarchy.now) S.Value.ValueKind.zero (lending self.now.state [] slots.now) TakingBack ≡ Ok tt) (λ e. slot_verdict (H.meaning self.now.setting.hierarchy.now) S.Value.ValueKind.zero (lending self.now.state [] slots.now) TakingBack ≡ Err e) }
        ensures slot { IfOk result (λ s. s ≡ last_slot (H.meaning self.now.setting.hierarchy.now) S.Value.ValueKind.zero (lending self.now.state [] slots.now)) }
        ensures named { IfOk result (λ s. (s.place < finest (H.meaning self.now.setting.hierarchy.now)) × (s.depth ≤ (H.meaning self.now.setting.hierarchy.now).levels)) }
    {
        let last = self.state.survivors - 1;
        let h = self.setting.hierarchy;
        match slots.get(last) {
            Some(slot) if slot.place < h.places() && slot.depth <= h.levels() => Ok(*slot),
            _ => Err(Refusal::SpoiledSlot(last)),
        }
    }
}
