// The worked figures of rounding, of a pair of means and of marks.
use crate::linear::Linear;
use crate::marks_scheme::MarksScheme;
use crate::rounding::round;
use crate::scheme::Scheme;
use crate::steps::{Class, Step};
use kinds::{Marks, Point, ValueKind};

#[test]
fn halves_go_up(rt: HostRuntime) {
    assert_eq!(rt; round(1, 2), 1);
    assert_eq!(rt; round(-1, 2), 0);
    assert_eq!(rt; round(-11, 2), -5);
}

// 1/4 of the face's 2, and the mean of the edges' 0 and 1
#[test]
fn two_halves_are_rounded_together(rt: HostRuntime) {
    let sum = Linear.start();
    let sum = Linear.gather(sum, Class::Face, Point::new(2, 0, 0));
    let sum = Linear.gather(sum, Class::Edge, Point::new(0, 0, 0));
    let sum = Linear.gather(sum, Class::Edge, Point::new(1, 0, 0));
    assert_eq!(rt; Linear.amount(Step::Third, Class::Vertex, 2, sum).x, 1);
}

// marks 6 between ends 5 and 4
#[test]
fn a_common_flag_goes(rt: HostRuntime) {
    let sum = MarksScheme.start();
    let sum = MarksScheme.gather(sum, Class::Vertex, Marks { flags: 5 });
    let sum = MarksScheme.gather(sum, Class::Vertex, Marks { flags: 4 });
    let amount = MarksScheme.amount(Step::Second, Class::Edge, 2, sum);
    assert_eq!(rt; Marks { flags: 6 }.plus(amount).flags, 2);
}
