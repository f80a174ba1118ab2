// The interface of a scheme.
ghost use Rattle.std.specs.Prelude.{◌≡◌, ℕ, Bool, T};
ghost use Rattle.schemes.specs.Readings.{Reads, none_read, more};
ghost use Rattle.schemes.specs.declared.steps.Class.{Class};
ghost use Rattle.schemes.specs.declared.steps.Step.{Step};

use crate::steps::{Class, Step};
use kinds::ValueKind;

// How much a step adds to a point, from the values that the point reads: those of vertices, edges and faces apart, and each ascending
// by place. Nothing is asked of a caller: a scheme answers for every step, class and dimension, and for whatever was gathered.
pub trait Scheme {
    type Value: ValueKind;

    // The running sum in which the values read are gathered. It forgets them, so what it is the sum of is a relation, `holds`.
    type Sum: Copy;

    // The sum is that of these values.
    ghost holds: { Self.Sum → Reads Self.Value → Type 0 };

    // What a step adds to a point of this class and dimension that reads these values.
    ghost amount: { Self → Step → Class → ℕ → Reads Self.Value → Self.Value };

    // Whether the scheme asks for a uniform hierarchy.
    ghost uniform: { Self → Bool };

    // Whether a step is idle: it adds nothing to any point, whatever the point reads, so it may be left out.
    ghost idle: { Self → Step → Bool };

    // The sum of no values.
    fn start(&self) -> Self::Sum
        ensures { holds result none_read };

    // Takes one more value in, that of a place of this class. Eight of a class are taken, and a ninth is passed over.
    fn gather(&self, sum: Self::Sum, class: Class, value: Self::Value) -> Self::Sum
        ensures { (q : Reads Self.Value) → holds sum q → holds result (more class value q) };

    // A dimension is any number here, since an enum of three would ask more of a caller.
    fn amount(&self, step: Step, class: Class, dimension: u8, sum: Self::Sum) -> Self::Value
        ensures { (q : Reads Self.Value) → holds sum q → result ≡ amount self.now step class dimension q };

    fn needs_uniform(&self) -> bool
        ensures { result ≡ uniform self.now };

    fn is_idle(&self, step: Step) -> bool
        ensures value { result ≡ idle self.now step }
        ensures nothing { T result → (class : Class) (dimension : ℕ) (q : Reads Self.Value) → amount self.now step class dimension q ≡ Self.Value.ValueKind.zero };
}
