// The kinds at examples.
use crate::{MarkedPoint, Marks, Pair, Point, ValueKind, taken_back};

fn marked(x: i32, flags: u32) -> MarkedPoint {
    Pair {
        first: Point::new(x, 5, -7),
        second: Marks { flags },
    }
}

#[test]
fn past_the_last_number_comes_the_first(rt: HostRuntime) {
    let moved = Point::new(2_147_483_647, 0, 0).plus(Point::new(1, 0, 0));
    assert_eq!(rt; moved.x, -2_147_483_648);
    assert_eq!(rt; Point::modulo(4_294_967_295, 0, 0).x, -1);
}

#[test]
fn marks_in_common_go_out(rt: HostRuntime) {
    let sum = Marks { flags: 6 }.plus(Marks { flags: 2 });
    assert_eq!(rt; sum.flags, 4);
}

#[test]
fn a_pair_is_moved_and_taken_back(rt: HostRuntime) {
    let amount = marked(1, 2);
    let moved = marked(2_147_483_647, 6).plus(amount);
    assert_eq!(rt; moved.first.x, -2_147_483_648);
    assert_eq!(rt; moved.first.z, -14);
    assert_eq!(rt; moved.second.flags, 4);
    let back = taken_back(moved, amount);
    assert_eq!(rt; back.first.x, 2_147_483_647);
    assert_eq!(rt; back.second.flags, 6);
}
