// Analysis and synthesis of one level.
ghost use Rattle.std.specs.Prelude.{◌≡◌, ◌<◌, length};
ghost use Rattle.lifting.specs.HalfSteps.{rule, analysed, synthesised, crossed};
ghost use Rattle.lifting.specs.Travel.{Undone};
ghost use Rattle.lifting.specs.IntegerLifting.{LiftingEquations};
ghost use Rattle.lifting.specs.Calls.{at_level, unless_refused};

use crate::checks::check_level;
use crate::transform::Transform;
use crate::way::Way;
use hierarchy::Hierarchy;
use refusal::Refusal;
use schemes::{Class, Scheme, Step};

// The half steps of a level, as an analysis makes them.
const LIFTS: [(Step, Class); 6] = [
    (Step::First, Class::Vertex),
    (Step::First, Class::Edge),
    (Step::Second, Class::Face),
    (Step::Second, Class::Edge),
    (Step::Third, Class::Vertex),
    (Step::Third, Class::Edge),
];

impl<'a, H: Hierarchy, S: Scheme> Transform<'a, H, S> {
    // Makes the half steps of a level forwards on the way down, and backwards on the way up.
    pub(crate) fn cross(&mut self, way: Way, level: usize)
        requires { level < (H.meaning self.old.h.now).levels }
        ensures kept { (self.new.h ≡ self.old.h) × (self.new.s ≡ self.old.s) × (self.new.values.ghost_name ≡ self.old.values.ghost_name) }
        ensures values { self.new.values.now ≡ crossed (H.meaning self.old.h.now) (rule S.Scheme S.Value.ValueKind self.old.s.now) way level self.old.values.now }
    {
        match way {
            Way::Down => {
                for &(step, class) in &LIFTS {
                    self.change(way, step, level, class);
                }
            }
            Way::Up => {
                for &(step, class) in LIFTS.iter().rev() {
                    self.change(way, step, level, class);
                }
            }
        }
    }
}

// The two directions of `cross` by their own names: each promises its own definition, `analysed` or `synthesised`.

// Takes the values from depth `level + 1` to depth `level`, in place.
pub fn analyse_level<H: Hierarchy, S: Scheme>(
    h: &H,
    s: &S,
    values: &mut [S::Value],
    level: usize,
) -> Result<(), Refusal>
    ensures result { result ≡ at_level (H.meaning h.now) (length values.old) level }
    ensures values { values.new ≡ unless_refused result (analysed (H.meaning h.now) (rule S.Scheme S.Value.ValueKind s.now) level values.old) values.old }
    ensures undone { Undone (H.meaning h.now) (rule S.Scheme S.Value.ValueKind s.now) level }
    ensures equations { LiftingEquations (H.meaning h.now) level }
{
    check_level(h, values.len(), level)?;
    Transform { h, s, values }.cross(Way::Down, level);
    Ok(())
}

// Takes the values from depth `level` to depth `level + 1`, in place.
pub fn synthesise_level<H: Hierarchy, S: Scheme>(
    h: &H,
    s: &S,
    values: &mut [S::Value],
    level: usize,
) -> Result<(), Refusal>
    ensures result { result ≡ at_level (H.meaning h.now) (length values.old) level }
    ensures values { values.new ≡ unless_refused result (synthesised (H.meaning h.now) (rule S.Scheme S.Value.ValueKind s.now) level values.old) values.old }
    ensures undone { Undone (H.meaning h.now) (rule S.Scheme S.Value.ValueKind s.now) level }
    ensures equations { LiftingEquations (H.meaning h.now) level }
{
    check_level(h, values.len(), level)?;
    Transform { h, s, values }.cross(Way::Up, level);
    Ok(())
}
