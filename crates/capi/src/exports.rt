// What programs in C call. A scheme is a code, and each call has its own name, since C has neither our enums nor our generics. Each takes the memory that its caller owns, checks what it is handed, and says what came of it.
ghost use Rattle.std.specs.Prelude.{◌≡◌, ◌⊎◌, map};
ghost use Rattle.mesh.specs.Reading.{reading};
ghost use Rattle.capi.specs.Crossings.{of_points, of_marks, of_pairs};
ghost use Rattle.capi.specs.Hierarchies.{base_need, base_hierarchy, curve_hierarchy, places};
ghost use Rattle.capi.specs.Jobs.{handed, beside, SameMemory, On, By, Returned};
ghost use Rattle.capi.specs.Outcomes.{Tells, judgement, unjudged};
ghost use Rattle.capi.specs.Schemes.{scheme_of, points_by, marks_law, beside_marks};

use crate::hierarchies::{OnBase, OnCurve, Source, base_of, need_of, places_on};
use crate::job::Job;
use crate::point_scheme::PointScheme;
use crate::records::{AnswerRecord, CallRecord, Judgement, Outcome, PointAndMarks, SlotRecord};
use crate::running::{run_pairs, run_points};
use crate::stop::Stop;
use kinds::{Marks, Point};
use schemes::MarksScheme;
use std::alloc::Global;

// Judges the bytes of a base: its counts, or the refusal. A judgement is made nowhere else, so no `From` stands for this match.
#[unsafe(no_mangle)]
pub extern "C" fn shelfquail_judge(heap: Global, bytes: &[u8]) -> Judgement
    ensures { (result ≡ judgement (reading bytes.now)) ⊎ (result ≡ unjudged) }
{
    match base_of(heap, bytes) {
        Ok(base) => {
            let counts = base.counts();
            Judgement {
                outcome: Outcome::from(Ok(0)),
                vertices: counts.vertices,
                edges: counts.edges,
                faces: counts.faces,
            }
        }
        Err(stop) => Judgement {
            outcome: Outcome::from(Err(stop)),
            vertices: 0,
            edges: 0,
            faces: 0,
        },
    }
}

// How many numbers the plan of a base takes.
#[unsafe(no_mangle)]
pub extern "C" fn shelfquail_plan_needs(heap: Global, bytes: &[u8], levels: usize) -> Outcome
    ensures { Tells result (base_need bytes.now levels) }
{
    need_of(heap, bytes, levels).into()
}

// How many places a base has on so many levels: as many points are to be handed in.
#[unsafe(no_mangle)]
pub extern "C" fn shelfquail_base_places(heap: Global, bytes: &[u8], levels: usize) -> Outcome
    ensures { Tells result (places (base_hierarchy bytes.now levels)) }
{
    let source = OnBase {
        heap,
        bytes,
        levels,
    };
    places_on(source).into()
}

// The same of a curve.
#[unsafe(no_mangle)]
pub extern "C" fn shelfquail_curve_places(closed: bool, points: usize, levels: usize) -> Outcome
    ensures { Tells result (places (curve_hierarchy closed points levels)) }
{
    let source = OnCurve {
        closed,
        points,
        levels,
    };
    places_on(source).into()
}

fn points_on<Q: Source>(
    source: Q,
    scheme: usize,
    points: &mut [Point],
    job: &mut Job<'_>,
) -> Result<usize, Stop>
    ensures run { By (scheme_of scheme) scheme points_by (Q.due source) of_points job.old.depth job.old.calls.now (beside points.old job.old) (beside points.new job.new) result }
    ensures same { SameMemory job.old job.new }
{
    let scheme = PointScheme::try_from(scheme)?;
    let hierarchy = source.make()?;
    run_points(&hierarchy, scheme, points, job)
}

fn marks_on<Q: Source>(source: Q, marks: &mut [Marks], job: &mut Job<'_>) -> Result<usize, Stop>
    ensures run { On (Q.due source) of_marks marks_law job.old.depth job.old.calls.now (beside marks.old job.old) (beside marks.new job.new) result }
    ensures same { SameMemory job.old job.new }
{
    let hierarchy = source.make()?;
    job.run(&hierarchy, &MarksScheme, marks)
}

// Beside `points_on`, since the values of pairs are copied from what C carries and back, and points are worked on where they lie.
fn pairs_on<Q: Source>(
    source: Q,
    scheme: usize,
    values: &mut [PointAndMarks],
    job: &mut Job<'_>,
) -> Result<usize, Stop>
    ensures run { By (scheme_of scheme) scheme (λ s. beside_marks (points_by s)) (Q.due source) of_pairs job.old.depth job.old.calls.now (beside (map of_pairs.arrives values.old) job.old) (beside (map of_pairs.arrives values.new) job.new) result }
    ensures same { SameMemory job.old job.new }
{
    let scheme = PointScheme::try_from(scheme)?;
    let hierarchy = source.make()?;
    run_pairs(&hierarchy, scheme, values, job)
}

// A whole run over points on a base.
#[unsafe(no_mangle)]
pub extern "C" fn shelfquail_points_on_base(
    heap: Global,
    bytes: &[u8],
    levels: usize,
    scheme: usize,
    points: &mut [Point],
    slots: &mut [SlotRecord],
    depth: usize,
    calls: &[CallRecord],
    answers: &mut [AnswerRecord],
) -> Outcome
    ensures { Returned result (By (scheme_of scheme) scheme points_by (base_hierarchy bytes.now levels) of_points depth calls.now (handed points.old slots.old answers.old) (handed points.new slots.new answers.new)) }
{
    let source = OnBase {
        heap,
        bytes,
        levels,
    };
    let mut job = Job {
        slots,
        answers,
        depth,
        calls,
        heap,
    };
    points_on(source, scheme, points, &mut job).into()
}

// A whole run over marks on a base.
#[unsafe(no_mangle)]
pub extern "C" fn shelfquail_marks_on_base(
    heap: Global,
    bytes: &[u8],
    levels: usize,
    marks: &mut [Marks],
    slots: &mut [SlotRecord],
    depth: usize,
    calls: &[CallRecord],
    answers: &mut [AnswerRecord],
) -> Outcome
    ensures { Returned result (On (base_hierarchy bytes.now levels) of_marks marks_law depth calls.now (handed marks.old slots.old answers.old) (handed marks.new slots.new answers.new)) }
{
    let source = OnBase {
        heap,
        bytes,
        levels,
    };
    let mut job = Job {
        slots,
        answers,
        depth,
        calls,
        heap,
    };
    marks_on(source, marks, &mut job).into()
}

// A whole run over points with marks on a base.
#[unsafe(no_mangle)]
pub extern "C" fn shelfquail_pairs_on_base(
    heap: Global,
    bytes: &[u8],
    levels: usize,
    scheme: usize,
    values: &mut [PointAndMarks],
    slots: &mut [SlotRecord],
    depth: usize,
    calls: &[CallRecord],
    answers: &mut [AnswerRecord],
) -> Outcome
    ensures { Returned result (By (scheme_of scheme) scheme (λ s. beside_marks (points_by s)) (base_hierarchy bytes.now levels) of_pairs depth calls.now (handed (map of_pairs.arrives values.old) slots.old answers.old) (handed (map of_pairs.arrives values.new) slots.new answers.new)) }
{
    let source = OnBase {
        heap,
        bytes,
        levels,
    };
    let mut job = Job {
        slots,
        answers,
        depth,
        calls,
        heap,
    };
    pairs_on(source, scheme, values, &mut job).into()
}

// A whole run over points on a curve.
#[unsafe(no_mangle)]
pub extern "C" fn shelfquail_points_on_curve(
    heap: Global,
    closed: bool,
    count: usize,
    levels: usize,
    scheme: usize,
    points: &mut [Point],
    slots: &mut [SlotRecord],
    depth: usize,
    calls: &[CallRecord],
    answers: &mut [AnswerRecord],
) -> Outcome
    ensures { Returned result (By (scheme_of scheme) scheme points_by (curve_hierarchy closed count levels) of_points depth calls.now (handed points.old slots.old answers.old) (handed points.new slots.new answers.new)) }
{
    let source = OnCurve {
        closed,
        points: count,
        levels,
    };
    let mut job = Job {
        slots,
        answers,
        depth,
        calls,
        heap,
    };
    points_on(source, scheme, points, &mut job).into()
}

// A whole run over marks on a curve.
#[unsafe(no_mangle)]
pub extern "C" fn shelfquail_marks_on_curve(
    heap: Global,
    closed: bool,
    count: usize,
    levels: usize,
    marks: &mut [Marks],
    slots: &mut [SlotRecord],
    depth: usize,
    calls: &[CallRecord],
    answers: &mut [AnswerRecord],
) -> Outcome
    ensures { Returned result (On (curve_hierarchy closed count levels) of_marks marks_law depth calls.now (handed marks.old slots.old answers.old) (handed marks.new slots.new answers.new)) }
{
    let source = OnCurve {
        closed,
        points: count,
        levels,
    };
    let mut job = Job {
        slots,
        answers,
        depth,
        calls,
        heap,
    };
    marks_on(source, marks, &mut job).into()
}

// A whole run over points with marks on a curve.
#[unsafe(no_mangle)]
pub extern "C" fn shelfquail_pairs_on_curve(
    heap: Global,
    closed: bool,
    count: usize,
    levels: usize,
    scheme: usize,
    values: &mut [PointAndMarks],
    slots: &mut [SlotRecord],
    depth: usize,
    calls: &[CallRecord],
    answers: &mut [AnswerRecord],
) -> Outcome
    ensures { Returned result (By (scheme_of scheme) scheme (λ s. beside_marks (points_by s)) (curve_hierarchy closed count levels) of_pairs depth calls.now (handed (map of_pairs.arrives values.old) slots.old answers.old) (handed (map of_pairs.arrives values.new) slots.new answers.new)) }
{
    let source = OnCurve {
        closed,
        points: count,
        levels,
    };
    let mut job = Job {
        slots,
        answers,
        depth,
        calls,
        heap,
    };
    pairs_on(source, scheme, values, &mut job).into()
}
