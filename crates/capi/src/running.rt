// Whole runs on a hierarchy, by the scheme for what stands at its places.
ghost use Rattle.std.specs.Prelude.{◌≡◌, map};
ghost use Rattle.capi.specs.Crossings.{of_points, of_pairs};
ghost use Rattle.capi.specs.Jobs.{beside, SameMemory, Performs};
ghost use Rattle.capi.specs.Schemes.{points_by, beside_marks};

use crate::job::Job;
use crate::lists::{read_all, write_front};
use crate::point_scheme::PointScheme;
use crate::records::PointAndMarks;
use crate::stop::Stop;
use hierarchy::Hierarchy;
use kinds::{MarkedPoint, Point};
use schemes::{Both, Cubic, Linear, MarksScheme};

pub(crate) fn run_points<H: Hierarchy>(
    h: &H,
    scheme: PointScheme,
    points: &mut [Point],
    job: &mut Job<'_>,
) -> Result<usize, Stop>
    ensures run { Performs of_points (H.meaning h.now) (points_by scheme) job.old.depth job.old.calls.now (beside points.old job.old) (beside points.new job.new) result }
    ensures same { SameMemory job.old job.new }
{
    match scheme {
        PointScheme::Linear => job.run(h, &Linear, points),
        PointScheme::Cubic => job.run(h, &Cubic, points),
    }
}

// Chosen here and in run_points: to choose once for both, a trait would have to say what a run is over either kind of values.
fn run_both<H: Hierarchy>(
    h: &H,
    scheme: PointScheme,
    pairs: &mut [MarkedPoint],
    job: &mut Job<'_>,
) -> Result<usize, Stop>
    ensures run { Performs of_pairs (H.meaning h.now) (beside_marks (points_by scheme)) job.old.depth job.old.calls.now (beside pairs.old job.old) (beside pairs.new job.new) result }
    ensures same { SameMemory job.old job.new }
{
    match scheme {
        PointScheme::Linear => {
            let both = Both {
                first: Linear,
                second: MarksScheme,
            };
            job.run(h, &both, pairs)
        }
        PointScheme::Cubic => {
            let both = Both {
                first: Cubic,
                second: MarksScheme,
            };
            job.run(h, &both, pairs)
        }
    }
}

// Runs on the pairs that the values stand for, and puts them back as values.
fn run_copied<H: Hierarchy>(
    h: &H,
    scheme: PointScheme,
    pairs: &mut [MarkedPoint],
    values: &mut [PointAndMarks],
    job: &mut Job<'_>,
) -> Result<usize, Stop>
    requires { pairs.old ≡ map of_pairs.arrives values.old }
    ensures run { Performs of_pairs (H.meaning h.now) (beside_marks (points_by scheme)) job.old.depth job.old.calls.now (beside (map of_pairs.arrives values.old) job.old) (beside (map of_pairs.arrives values.new) job.new) result }
    ensures same { SameMemory job.old job.new }
{
    let result = run_both(h, scheme, pairs, job);
    write_front(values, pairs);
    result
}

pub(crate) fn run_pairs<H: Hierarchy>(
    h: &H,
    scheme: PointScheme,
    values: &mut [PointAndMarks],
    job: &mut Job<'_>,
) -> Result<usize, Stop>
    ensures run { Performs of_pairs (H.meaning h.now) (beside_marks (points_by scheme)) job.old.depth job.old.calls.now (beside (map of_pairs.arrives values.old) job.old) (beside (map of_pairs.arrives values.new) job.new) result }
    ensures same { SameMemory job.old job.new }
{
    let mut pairs: Vec<MarkedPoint> = read_all(job.heap, values)?;
    run_copied(h, scheme, &mut pairs, values, job)
}
