// The scheme of marks: step 2 adds the flags that all vertices read have in common, and steps 1 and 3 add nothing.
ghost use Rattle.std.specs.Prelude.{◌≡◌, ℕ, false};
ghost use Rattle.kinds.specs.MarkSums.{flag};
ghost use Rattle.kinds.specs.declared.marks.Marks.{Marks};
ghost use Rattle.schemes.specs.MarkAmounts.{Marked, marks_amount, marks_rest, in_common, adds_flag};
ghost use Rattle.schemes.specs.Readings.{Reads, none_read, more};
ghost use Rattle.schemes.specs.declared.steps.Class.TheVariants.{Vertex};

use crate::scheme::Scheme;
use crate::steps::{Class, Step};
use kinds::{Marks, ValueKind};

#[derive(Clone, Copy, PartialEq, Eq, Debug)]
pub struct MarksScheme;

// How many vertices were gathered, and the flags that they have in common: all flags, of no vertex.
// No `Option` of the flags, since the count is wanted all the same: a ninth vertex is passed over.
#[derive(Clone, Copy)]
pub struct MarksSum {
    count: u32,
    common: u32,
}

impl MarksSum {
    fn empty() -> MarksSum
        ensures { Marked result none_read }
    {
        MarksSum {
            count: 0,
            common: u32::MAX,
        }
    }

    // A ninth vertex is passed over.
    fn with(self, value: Marks) -> MarksSum
        ensures { (q : Reads Marks) → Marked self q → Marked result (more Vertex value q) }
    {
        if self.count >= 8 {
            return self;
        }
        MarksSum {
            count: self.count + 1,
            common: self.common & value.flags,
        }
    }

    // No flag, of no vertex.
    fn in_common(self) -> Marks
        ensures { (q : Reads Marks) → Marked self q → result ≡ in_common q.vertices }
    {
        if self.count == 0 {
            return Marks::zero();
        }
        Marks { flags: self.common }
    }
}

impl Scheme for MarksScheme {
    type Value = Marks;

    type Sum = MarksSum;

    ghost holds = { Marked };

    ghost amount = { λ _ step _ _ q. marks_amount step q };

    ghost uniform = { λ _. false };

    ghost idle = { λ _. marks_rest };

    fn start(&self) -> MarksSum {
        MarksSum::empty()
    }

    fn gather(&self, sum: MarksSum, class: Class, value: Marks) -> MarksSum {
        match class {
            Class::Vertex => sum.with(value),
            Class::Edge | Class::Face => sum,
        }
    }

    fn amount(&self, step: Step, _class: Class, _dimension: u8, sum: MarksSum) -> Marks
        ensures value { (q : Reads Marks) → Marked sum q → result ≡ marks_amount step q }
        ensures flags { (q : Reads Marks) (k : ℕ) → Marked sum q → flag result k ≡ adds_flag step k q.vertices }
    {
        match step {
            Step::First | Step::Third => Marks::zero(),
            Step::Second => sum.in_common(),
        }
    }

    fn needs_uniform(&self) -> bool {
        false
    }

    fn is_idle(&self, step: Step) -> bool {
        step != Step::Second
    }
}
