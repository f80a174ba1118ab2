// The interface of a value kind, and what generic code may do with any of them.
ghost use Rattle.std.specs.Prelude.{◌≡◌};
ghost use Rattle.kinds.specs.Groups.{Group};

// What can stand at a place of a surface: values with a sum, a zero and an opposite.
pub trait ValueKind: Copy {
    ghost plus: { Self → Self → Self };

    ghost zero: { Self };

    ghost opposite: { Self → Self };

    // What each kind must prove of the three. The sum need not commute, so generic code always adds on the right.
    ghost laws: { Group plus zero opposite };

    fn plus(self, other: Self) -> Self
        ensures { result ≡ plus self other };

    fn zero() -> Self
        ensures { result ≡ zero };

    fn opposite(self) -> Self
        ensures { result ≡ opposite self };
}

// Takes back the amount that was added last. It gives the value that stood there before, and adding the amount again undoes it.
pub fn taken_back<V: ValueKind>(value: V, amount: V) -> V
    ensures value { result ≡ V.plus value (V.opposite amount) }
    ensures before { (old : V) → value ≡ V.plus old amount → result ≡ old }
    ensures again { V.plus result amount ≡ value }
{
    value.plus(amount.opposite())
}
