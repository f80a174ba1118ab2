// A half step: all points of one class of a level are changed, in place.
ghost use Rattle.std.specs.Prelude.{◌≡◌, ◌<◌, length, slice_index_or, slice_set};
ghost use Rattle.lifting.specs.Places.{count_of};
ghost use Rattle.lifting.specs.Gathering.{Laid};
ghost use Rattle.lifting.specs.HalfSteps.{rule, on_the_way, half};

use crate::layout::Layout;
use crate::reading::{Points, first};
use crate::transform::Transform;
use crate::way::Way;
use hierarchy::Hierarchy;
use kinds::ValueKind;
use schemes::{Class, Scheme, Step};

fn layout<H: Hierarchy>(h: &H, level: usize) -> Layout
    requires { level < (H.meaning h.now).levels }
    ensures level { result.level ≡ level }
    ensures laid { Laid (H.meaning h.now) result ((H.meaning h.now).vertices (H.meaning h.now).levels) }
{
    let edges = h.vertices(level);
    Layout {
        level,
        edges,
        faces: edges + h.edges(level),
    }
}

fn count<H: Hierarchy>(h: &H, level: usize, class: Class) -> usize
    ensures { result ≡ count_of (H.meaning h.now) level class }
{
    match class {
        Class::Vertex => h.vertices(level),
        Class::Edge => h.edges(level),
        Class::Face => h.faces(level),
    }
}

// The value with the amount added on the right, or on the way up with its opposite: the laws of a half step speak of the way, so a
// closure in its place would only hide it.
fn changed<V: ValueKind>(value: V, way: Way, amount: V) -> V
    ensures { result ≡ V.ValueKind.plus value (on_the_way V.ValueKind.opposite way amount) }
{
    match way {
        Way::Down => value.plus(amount),
        Way::Up => value.plus(amount.opposite()),
    }
}

fn add_at<V: ValueKind>(values: &mut [V], place: usize, way: Way, amount: V)
    requires { place < length values.old }
    ensures { values.new ≡ slice_set values.old place (V.ValueKind.plus (slice_index_or values.old place V.ValueKind.zero) (on_the_way V.ValueKind.opposite way amount)) }
{
    let old = values[place];
    values[place] = changed(old, way, amount);
}

impl<'a, H: Hierarchy, S: Scheme> Transform<'a, H, S> {
    pub(crate) fn change(&mut self, way: Way, step: Step, level: usize, class: Class)
        requires { level < (H.meaning self.old.h.now).levels }
        ensures kept { (self.new.h ≡ self.old.h) × (self.new.s ≡ self.old.s) × (self.new.values.ghost_name ≡ self.old.values.ghost_name) }
        ensures values { self.new.values.now ≡ half (H.meaning self.old.h.now) (rule S.Scheme S.Value.ValueKind self.old.s.now) way level (step, class) self.old.values.now }
    {
        let h = self.h;
        let s = self.s;
        let values = &mut *self.values;
        if s.is_idle(step) {
            return;
        }
        let at = layout(h, level);
        let from = first(at, class);
        for number in 0..count(h, level, class) {
            let points = Points { h, s, values, at };
            let added = points.amount(step, class, number);
            add_at(values, from + number, way, added);
        }
    }
}
