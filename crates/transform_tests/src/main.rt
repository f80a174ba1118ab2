// Prints the worked figures of the transform, as the compiled code computes them.
#![tactic(auto)]

ghost use Rattle.std.specs.Iterator.{IsFinite};

use curve::Curve;
use figures::worked_figures;
use hierarchy::Hierarchy;
use kinds::{Marks, Point, ValueKind};
use lifting::{analyse_level, analyse_points, synthesise_level, synthesise_points};
use plan::Plan;
use refusal::{Fault, Refusal};
use schemes::{Cubic, Factors, Linear, MarksScheme, Scheme};
use std::fmt::Display;
use std::{fs, io};

// What ends the program. It is told by its cases, since that is what is printed of it.
#[derive(Debug, Drop)]
enum Trouble {
    Faulty(Fault),
    Unprinted(io::Error),
}

impl From<Fault> for Trouble {
    fn from(e: Fault) -> Trouble {
        Trouble::Faulty(e)
    }
}

impl From<Refusal> for Trouble {
    fn from(e: Refusal) -> Trouble {
        Trouble::Faulty(Fault::Refused(e))
    }
}

impl From<io::Error> for Trouble {
    fn from(e: io::Error) -> Trouble {
        Trouble::Unprinted(e)
    }
}

fn at(x: i32) -> Point {
    Point::new(x, 0, 0)
}

fn show<I: Iterator>(rt: &HostRuntime, numbers: I) -> io::Result<()>
where
    I::Item: Display + Drop,
    requires can { I.can_next numbers }
    requires ends { IsFinite (I.remaining numbers) }
{
    for number in numbers {
        print!(rt; " {number}")?;
    }
    println!(rt; "")
}

fn show_points(rt: &HostRuntime, points: &[Point]) -> io::Result<()> {
    show(rt, points.iter().map(|point| point.x))
}

fn show_marks(rt: &HostRuntime, marks: &[Marks]) -> io::Result<()> {
    show(rt, marks.iter().map(|mark| mark.flags))
}

// A plan of one level of subdivision.
fn planned(rt: &HostRuntime, bytes: &[u8]) -> Result<Plan, Fault> {
    let mut plan = Plan::start(rt.alloc())?;
    let mut table = vec![in rt.alloc(); 0; 1024]?;
    plan.plan_bytes(rt.alloc(), bytes, 1, &mut table)?;
    Ok(plan)
}

// Down from depth 1 to depth 0, and up again: the values at the fine depth, at the coarse one, and at the fine one again.
fn there_and_back<H: Hierarchy, F: Factors>(
    rt: &HostRuntime,
    name: &str,
    h: &H,
    table: &F,
    points: &mut [Point],
) -> Result<(), Trouble> {
    println!(rt; "{name}")?;
    show_points(rt, points)?;
    analyse_points(h, table, points, 0)?;
    show_points(rt, points)?;
    synthesise_points(h, table, points, 0)?;
    show_points(rt, points)?;
    Ok(())
}

fn curves(rt: &HostRuntime) -> Result<(), Trouble> {
    let triangle = Curve::new(3, true, 1)?;
    // amounts of this one are halves, so opposites that are rounded afresh do not lead back
    let mut points = [0, 8, 3, 5, 6, 1].map(at);
    there_and_back(
        rt,
        "closed curve of 3, linear",
        &triangle,
        &Linear,
        &mut points,
    )?;
    let mut points = [8, 8, 8, 8, 8, 8].map(at);
    there_and_back(
        rt,
        "closed curve of 3, cubic",
        &triangle,
        &Cubic,
        &mut points,
    )
}

fn marks(rt: &HostRuntime) -> Result<(), Trouble> {
    let line = Curve::new(2, false, 1)?;
    let mut marks = [Marks { flags: 5 }, Marks { flags: 4 }, Marks { flags: 6 }];
    println!(rt; "open curve of 2, marks")?;
    show_marks(rt, &marks)?;
    analyse_level(&line, &MarksScheme, &mut marks, 0)?;
    show_marks(rt, &marks)?;
    synthesise_level(&line, &MarksScheme, &mut marks, 0)?;
    show_marks(rt, &marks)?;
    Ok(())
}

fn quadrilateral(rt: &HostRuntime) -> Result<(), Trouble> {
    let bytes = fs::read(rt, "quadrilateral.base")?;
    let quadrilateral = planned(rt, &bytes)?;
    // down, edges that change before the face make its value 31 of 1; up, a face that reads edges not yet restored -14 of 16
    let mut points = [0, 10, 20, 30, 6, 15, 25, 14, 16].map(at);
    there_and_back(
        rt,
        "quadrilateral, linear",
        &quadrilateral,
        &Linear,
        &mut points,
    )?;
    // the two means that the face reads come to 1/2 each, and are rounded together
    let mut points = [1, 1, 0, 0, -1, 0, 0, 0, 0].map(at);
    there_and_back(
        rt,
        "quadrilateral, linear, two halves",
        &quadrilateral,
        &Linear,
        &mut points,
    )
}

fn cube(rt: &HostRuntime) -> Result<(), Trouble> {
    let bytes = fs::read(rt, "cube.base")?;
    let cube = planned(rt, &bytes)?;
    let mut points = [at(64); 26];
    there_and_back(rt, "cube, cubic", &cube, &Cubic, &mut points)
}

fn main(rt: HostRuntime) -> Result<(), Trouble> {
    curves(&rt)?;
    marks(&rt)?;
    quadrilateral(&rt)?;
    cube(&rt)?;
    // the sum is taken modulo 2^32
    let past = at(2_147_483_647).plus(at(1)).x;
    println!(rt; "2147483647 moved by 1\n {past}")?;
    let count = worked_figures();
    println!(rt; "rows in the table of figures\n {count}")?;
    Ok(())
}
