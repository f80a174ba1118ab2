// One element of lent memory, changed.
ghost use Rattle.std.specs.Prelude.{◌≡◌, ◌<◌, length, slice_index_or, slice_set};

use kinds::ValueKind;

// A function of its own, since `answers[i] = ..` in `perform` leaves open that the index times a generic size fits.
pub(crate) fn put<T: Copy>(items: &mut [T], at: usize, item: T)
    requires { at < length items.old }
    ensures { items.new ≡ slice_set items.old at item }
{
    items[at] = item;
}

// Adds the amount on the right of the value at the place.
pub(crate) fn add<V: ValueKind>(points: &mut [V], place: usize, amount: V)
    requires { place < length points.old }
    ensures { points.new ≡ slice_set points.old place (V.ValueKind.plus (slice_index_or points.old place V.ValueKind.zero) amount) }
{
    points[place] = points[place].plus(amount);
}
