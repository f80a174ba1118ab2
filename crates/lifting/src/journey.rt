// Straight travel between depths.
ghost use Rattle.std.specs.Prelude.{◌≡◌, ◌≤◌, length};
ghost use Rattle.lifting.specs.HalfSteps.{rule};
ghost use Rattle.lifting.specs.Travel.{descended, climbed, travelled, Straight, Returned};
ghost use Rattle.lifting.specs.Calls.{between_depths, unless_refused};

use crate::checks::check_depths;
use crate::transform::Transform;
use crate::way::Way;
use hierarchy::Hierarchy;
use refusal::Refusal;
use schemes::Scheme;

impl<'a, H: Hierarchy, S: Scheme> Transform<'a, H, S> {
    // Two functions with `climb`: the levels are crossed in opposite orders, and each has its own definition.
    fn descend(&mut self, from: usize, to: usize)
        requires depth { from ≤ (H.meaning self.old.h.now).levels }
        requires down { to ≤ from }
        ensures kept { (self.new.h ≡ self.old.h) × (self.new.s ≡ self.old.s) × (self.new.values.ghost_name ≡ self.old.values.ghost_name) }
        ensures values { self.new.values.now ≡ descended (H.meaning self.old.h.now) (rule S.Scheme S.Value.ValueKind self.old.s.now) from to self.old.values.now }
    {
        for level in (to..from).rev() {
            self.cross(Way::Down, level);
        }
    }

    fn climb(&mut self, from: usize, to: usize)
        requires depth { to ≤ (H.meaning self.old.h.now).levels }
        requires up { from ≤ to }
        ensures kept { (self.new.h ≡ self.old.h) × (self.new.s ≡ self.old.s) × (self.new.values.ghost_name ≡ self.old.values.ghost_name) }
        ensures values { self.new.values.now ≡ climbed (H.meaning self.old.h.now) (rule S.Scheme S.Value.ValueKind self.old.s.now) from to self.old.values.now }
    {
        for level in from..to {
            self.cross(Way::Up, level);
        }
    }

    fn go(&mut self, from: usize, to: usize)
        requires from { from ≤ (H.meaning self.old.h.now).levels }
        requires to { to ≤ (H.meaning self.old.h.now).levels }
        ensures kept { (self.new.h ≡ self.old.h) × (self.new.s ≡ self.old.s) × (self.new.values.ghost_name ≡ self.old.values.ghost_name) }
        ensures values { self.new.values.now ≡ travelled (H.meaning self.old.h.now) (rule S.Scheme S.Value.ValueKind self.old.s.now) from to self.old.values.now }
    {
        if to <= from {
            self.descend(from, to);
        } else {
            self.climb(from, to);
        }
    }
}

// Takes the values from one depth to another, in place, by analyses alone or by syntheses alone.
pub fn travel<H: Hierarchy, S: Scheme>(
    h: &H,
    s: &S,
    values: &mut [S::Value],
    from: usize,
    to: usize,
) -> Result<(), Refusal>
    ensures result { result ≡ between_depths (H.meaning h.now) (length values.old) from to }
    ensures values { values.new ≡ unless_refused result (travelled (H.meaning h.now) (rule S.Scheme S.Value.ValueKind s.now) from to values.old) values.old }
    ensures straight { Straight (H.meaning h.now) (rule S.Scheme S.Value.ValueKind s.now) }
    ensures returned { Returned (H.meaning h.now) (rule S.Scheme S.Value.ValueKind s.now) }
{
    check_depths(h, values.len(), from, to)?;
    Transform { h, s, values }.go(from, to);
    Ok(())
}
