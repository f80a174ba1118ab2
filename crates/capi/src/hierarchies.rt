// The hierarchy of what is handed in, or why there is none.
ghost use Rattle.std.specs.Prelude.{◌≡◌, Ok, Err, Result, MatchResult};
ghost use Rattle.refusal.specs.declared.Refusal.{Refusal};
ghost use Rattle.hierarchy.specs.Meaning.{Meaning};
ghost use Rattle.mesh.specs.Reading.{reading};
ghost use Rattle.base.specs.Bases.{shape};
ghost use Rattle.plan.specs.Plans.{means as plan_means};
ghost use Rattle.capi.specs.Hierarchies.{base_need, shape_hierarchy, base_hierarchy, curve_hierarchy, places};
ghost use Rattle.capi.specs.Stops.{Stopped};

use crate::stop::Stop;
use base::Base;
use curve::Curve;
use hierarchy::Hierarchy;
use plan::{Plan, needed};
use std::alloc::Global;

// The base that the bytes spell.
pub(crate) fn base_of(heap: Global, bytes: &[u8]) -> Result<Base, Stop>
    ensures { MatchResult result (λ b. reading bytes.now ≡ Ok (shape b)) (λ stop. Stopped stop (reading bytes.now)) }
{
    let mut base = Base::start(heap)?;
    let _counts = base.read(heap, bytes)?;
    Ok(base)
}

// How many numbers its plan takes.
pub(crate) fn need_of(heap: Global, bytes: &[u8], levels: usize) -> Result<usize, Stop>
    ensures { MatchResult result (λ n. base_need bytes.now levels ≡ Ok n) (λ stop. Stopped stop (base_need bytes.now levels)) }
{
    let base = base_of(heap, bytes)?;
    Ok(needed(&base, levels)?)
}

fn plan_of_base(heap: Global, base: &Base, levels: usize) -> Result<Plan, Stop>
    ensures { MatchResult result (λ p. shape_hierarchy levels (shape base.now) ≡ Ok (plan_means p)) (λ stop. Stopped stop (shape_hierarchy levels (shape base.now))) }
{
    let size = needed(base, levels)?;
    let mut table = vec![in heap; 0; size]?;
    let mut plan = Plan::start(heap)?;
    let _finest = plan.plan_base(base, levels, &mut table)?;
    Ok(plan)
}

// What a hierarchy is made from.
pub trait Source: Copy {
    type Made: Hierarchy + Drop;

    // The hierarchy that is due, or the refusal.
    ghost due: { Self → Result Meaning Refusal };

    fn make(self) -> Result<Self::Made, Stop>
        ensures { MatchResult result (λ h. due self ≡ Ok (Self.Made.meaning h)) (λ stop. Stopped stop (due self)) };
}

// The bytes of a base, to be subdivided so often.
#[derive(Clone, Copy)]
pub struct OnBase<'a> {
    pub heap: Global,
    pub bytes: &'a [u8],
    pub levels: usize,
}

impl Source for OnBase<'_> {
    type Made = Plan;

    ghost due = { λ s. base_hierarchy s.bytes.now s.levels };

    fn make(self) -> Result<Plan, Stop> {
        let base = base_of(self.heap, self.bytes)?;
        plan_of_base(self.heap, &base, self.levels)
    }
}

// A curve of so many points, to be subdivided so often.
#[derive(Clone, Copy)]
pub struct OnCurve {
    pub closed: bool,
    pub points: usize,
    pub levels: usize,
}

impl Source for OnCurve {
    type Made = Curve;

    ghost due = { λ s. curve_hierarchy s.closed s.points s.levels };

    fn make(self) -> Result<Curve, Stop> {
        Ok(Curve::new(self.points, self.closed, self.levels)?)
    }
}

// How many places there are: as many points are to be handed in.
pub(crate) fn places_on<Q: Source>(source: Q) -> Result<usize, Stop>
    ensures { MatchResult result (λ n. places (Q.due source) ≡ Ok n) (λ stop. Stopped stop (places (Q.due source))) }
{
    Ok(source.make()?.places())
}
