// Small curves by hand.
use crate::Curve;
use hierarchy::{Hierarchy, Link};
use std::test::Fail;

// The finest count of vertices, or the refusal's number and value.
fn made(points: usize, closed: bool, levels: usize) -> Result<usize, (usize, usize)> {
    Curve::new(points, closed, levels)
        .map(|curve| curve.finest())
        .map_err(|refusal| (refusal.number(), refusal.value()))
}

#[test]
fn judges_points_before_levels(rt: HostRuntime) {
    assert_eq!(rt; made(2, false, 5), Ok(33));
    assert_eq!(rt; made(1024, true, 5), Ok(32768));
    assert_eq!(rt; made(2, false, 6), Err((12, 6)));
    assert_eq!(rt; made(3, true, 0), Err((12, 0)));
    assert_eq!(rt; made(2, true, 6), Err((16, 2)));
    assert_eq!(rt; made(1025, false, 0), Err((16, 1025)));
}

#[test]
fn numbers_along_a_line(rt: HostRuntime) -> Result<(), Fail> {
    let curve = Curve::new(2, false, 2)?;
    assert_eq!(rt; curve.number_at(2, 0), 0);
    assert_eq!(rt; curve.number_at(2, 1), 3);
    assert_eq!(rt; curve.number_at(2, 2), 2);
    assert_eq!(rt; curve.number_at(2, 3), 4);
    assert_eq!(rt; curve.number_at(2, 4), 1);
    assert_eq!(rt; curve.position_of(2, 4), 3);
    Ok(())
}

#[test]
fn goes_round_at_the_seam(rt: HostRuntime) -> Result<(), Fail> {
    let curve = Curve::new(3, true, 2)?;
    assert_eq!(rt; curve.member(1, Link::EdgeEnds, 5, 0), 0);
    assert_eq!(rt; curve.member(1, Link::EdgeEnds, 5, 1), 5);
    assert_eq!(rt; curve.member(1, Link::VertexEdges, 0, 1), 5);
    assert_eq!(rt; curve.degree(1, Link::VertexEdges, 0), 2);
    Ok(())
}
