// Prints runs of forms, as the compiled code makes them: every answer, and what is stored at the end.
#![tactic(auto)]

use curve::Curve;
use form::perform;
use hierarchy::Hierarchy;
use history::{Answer, Call, Reply, Request, Slot};
use kinds::Point;
use plan::Plan;
use refusal::{Fault, Refusal};
use schemes::{Cubic, Linear, Scheme};
use std::io;

// What ends the program. It is told by its cases, since that is what is printed of it.
#[derive(Debug, Drop)]
enum Trouble {
    Refused(Refusal),
    Unplanned(Fault),
    Unprinted(io::Error),
}

impl From<Refusal> for Trouble {
    fn from(e: Refusal) -> Trouble {
        Trouble::Refused(e)
    }
}

impl From<Fault> for Trouble {
    fn from(e: Fault) -> Trouble {
        Trouble::Unplanned(e)
    }
}

impl From<io::Error> for Trouble {
    fn from(e: io::Error) -> Trouble {
        Trouble::Unprinted(e)
    }
}

// As in transform_tests: a crate for these three lines would be no shorter.
fn at(x: i32) -> Point {
    Point::new(x, 0, 0)
}

// A request that is lent everything.
fn whole(request: Request<Point>) -> Call<Point> {
    lending(request, 12, 2)
}

fn lending(request: Request<Point>, points: usize, slots: usize) -> Call<Point> {
    Call {
        request,
        points,
        slots,
    }
}

fn show(rt: &HostRuntime, answer: Answer<Point>) -> io::Result<()> {
    match answer {
        Ok(Reply::Depth(depth)) => println!(rt; "depth {depth}"),
        Ok(Reply::Count(count)) => println!(rt; "count {count}"),
        Ok(Reply::Value(point)) => {
            let x = point.x;
            println!(rt; "value {x}")
        }
        Err(refusal) => rt.println(refusal),
    }
}

fn show_points(rt: &HostRuntime, points: &[Point]) -> io::Result<()> {
    print!(rt; "stored")?;
    for point in points {
        let x = point.x;
        print!(rt; " {x}")?;
    }
    println!(rt; "")
}

// Crosses levels between moves and their taking back, meeting refusals on the way.
fn crossing<H: Hierarchy>(rt: &HostRuntime, h: &H, depth: usize) -> io::Result<()> {
    let mut points = [0, 8, 3, 5, 6, 1, -7, 2, 9, 4, -5, 11].map(at);
    let blank = Slot {
        place: 99,
        depth: 99,
        amount: at(0),
    };
    let mut slots = [blank, blank];
    let calls = [
        whole(Request::Synthesise),
        whole(Request::TakeBack),
        whole(Request::Analyse),
        whole(Request::Move(4, at(100))),
        whole(Request::Analyse),
        whole(Request::Analyse),
        whole(Request::Move(0, at(-40))),
        whole(Request::Move(1, at(1))),
        whole(Request::Move(12, at(1))),
        whole(Request::Read(0)),
        lending(Request::Read(0), 11, 2),
        lending(Request::Synthesise, 40, 1),
        whole(Request::Synthesise),
        whole(Request::Synthesise),
        whole(Request::Read(7)),
        whole(Request::TakeBack),
        whole(Request::Read(7)),
        whole(Request::TakeBack),
    ];
    let mut answers = [Ok(Reply::Count(77)); 20];
    match perform(
        h,
        &Linear,
        &mut points,
        &mut slots,
        depth,
        &calls,
        &mut answers,
    ) {
        Ok(count) => {
            println!(rt; "calls {count}")?;
            for answer in &answers {
                show(rt, *answer)?;
            }
        }
        Err(refusal) => rt.println(refusal)?,
    }
    show_points(rt, &points)
}

// A scheme that needs a uniform hierarchy, on an open curve.
fn cubic<H: Hierarchy>(rt: &HostRuntime, h: &H) -> io::Result<()> {
    let mut points = [1, 2, 3].map(at);
    let mut slots = [];
    let mut answers = [];
    match perform(h, &Cubic, &mut points, &mut slots, 0, &[], &mut answers) {
        Ok(count) => println!(rt; "calls {count}"),
        Err(refusal) => rt.println(refusal),
    }
}

// Every beginning of a run on one quadrilateral: its last answer, and what is stored then.
fn beginnings<H: Hierarchy>(rt: &HostRuntime, h: &H) -> io::Result<()> {
    let calls = [
        lending(Request::Analyse, 9, 1),
        lending(Request::Move(0, at(4)), 9, 1),
        lending(Request::Synthesise, 9, 1),
        lending(Request::Move(5, at(1)), 9, 1),
        lending(Request::Read(8), 9, 1),
        lending(Request::TakeBack, 9, 1),
        lending(Request::TakeBack, 9, 1),
    ];
    for made in 1..8 {
        let mut points = [0, 10, 20, 30, 6, 15, 25, 14, 16].map(at);
        let mut slots = [Slot {
            place: 0,
            depth: 0,
            amount: at(0),
        }];
        let mut answers = [Ok(Reply::Count(77)); 7];
        let room = &mut answers[..made];
        match perform(h, &Linear, &mut points, &mut slots, 1, &calls, room) {
            Ok(_) => show(rt, room[made - 1])?,
            Err(refusal) => rt.println(refusal)?,
        }
        show_points(rt, &points)?;
    }
    Ok(())
}

// The quadrilateral 0 1 2 3 with its four sides as curves, planned for one level of subdivision.
fn quadrilateral(rt: &HostRuntime) -> Result<Plan, Fault> {
    let bytes = [
        1, 0, 1, 0, 1, 0, 1, 0, 4, 0, 0, 1, 0, 2, 0, 3, 0, 2, 0, 0, 1, 0, 2, 1, 0, 2, 0, 2, 2, 0,
        3, 0, 2, 3, 0, 0, 0, 0,
    ];
    let mut plan = Plan::start(rt.alloc())?;
    let mut table = vec![in rt.alloc(); 0; 64]?;
    plan.plan_bytes(rt.alloc(), &bytes, 1, &mut table)?;
    Ok(plan)
}

fn main(rt: HostRuntime) -> Result<(), Trouble> {
    let triangle = Curve::new(3, true, 2)?;
    crossing(&rt, &triangle, 2)?;
    crossing(&rt, &triangle, 3)?;
    let line = Curve::new(2, false, 1)?;
    cubic(&rt, &line)?;
    crossing(&rt, &line, 0)?;
    let panel = quadrilateral(&rt)?;
    beginnings(&rt, &panel)?;
    Ok(())
}
