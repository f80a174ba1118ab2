// Asks hierarchies everything that can be asked, and prints the answers, so that they can be compared with those of a model.
// Each line of standard input names one: base FILE L, open N L or closed N L.
#![tactic(auto)]

use base::Base;
use curve::Curve;
use hierarchy::{Hierarchy, Link, members_of};
use plan::{Plan, needed};
use refusal::Fault;
use std::{fmt, fs, io};

// The members of a list, each with a space before it.
#[derive(Drop)]
struct List<'a, H> {
    h: &'a H,
    level: usize,
    link: Link,
    of: usize,
}

impl<H: Hierarchy> fmt::Display for List<'_, H> {
    fn fmt<W: fmt::Write>(&self, f: &mut fmt::Formatter<W>) -> fmt::Result {
        for member in members_of(self.h, self.level, self.link, self.of) {
            write!(f, " {member}")?;
        }
        Ok(())
    }
}

fn show_level<H: Hierarchy>(rt: &HostRuntime, h: &H, level: usize) -> io::Result<()> {
    let vertices = h.vertices(level);
    let edges = h.edges(level);
    let faces = h.faces(level);
    println!(rt; "level {level}: {vertices} {edges} {faces}")?;
    if level >= h.levels() {
        return Ok(());
    }
    let list = |link, of| List { h, level, link, of };
    for edge in 0..edges {
        let kind = if h.is_curve(level, edge) {
            "curve"
        } else {
            "smooth"
        };
        let ends = list(Link::EdgeEnds, edge);
        let faces = list(Link::EdgeFaces, edge);
        println!(rt; "edge {edge}: ends{ends}; faces{faces}; {kind}")?;
    }
    for face in 0..faces {
        let vertices = list(Link::FaceVertices, face);
        let edges = list(Link::FaceEdges, face);
        println!(rt; "face {face}: vertices{vertices}; edges{edges}")?;
    }
    for vertex in 0..vertices {
        let edges = list(Link::VertexEdges, vertex);
        let faces = list(Link::VertexFaces, vertex);
        let dimension = h.dimension(level, vertex);
        println!(rt; "vertex {vertex}: edges{edges}; faces{faces}; dimension {dimension}")?;
    }
    Ok(())
}

// One level more than there is, too: it has no counts.
fn show<H: Hierarchy>(rt: &HostRuntime, h: &H) -> io::Result<()> {
    for level in 0..h.levels().saturating_add(2) {
        show_level(rt, h, level)?;
    }
    Ok(())
}

// A plan of the base that the bytes spell, in a table of just the needed numbers, and how many these are.
fn planned(
    rt: &HostRuntime,
    mut base: Base,
    bytes: &[u8],
    levels: usize,
) -> Result<(usize, Plan), Fault> {
    base.read(rt.alloc(), bytes)?;
    let need = needed(&base, levels)?;
    let mut plan = Plan::start(rt.alloc())?;
    let mut table = vec![in rt.alloc(); 0; need]?;
    plan.plan_base(&base, levels, &mut table)?;
    Ok((need, plan))
}

fn show_base(rt: &HostRuntime, file: &str, levels: usize) -> anyhow::Result<()> {
    let bytes = fs::read(rt, file)?;
    let base = Base::start(rt.alloc())?;
    match planned(rt, base, &bytes, levels) {
        Ok((need, plan)) => {
            println!(rt; "need {need}")?;
            show(rt, &plan)?;
        }
        Err(fault) => rt.println(fault)?,
    }
    Ok(())
}

fn show_curve(rt: &HostRuntime, closed: bool, points: usize, levels: usize) -> io::Result<()> {
    match Curve::new(points, closed, levels) {
        Ok(curve) => show(rt, &curve),
        Err(refusal) => rt.println(refusal),
    }
}

// The number that the word spells, or 0.
fn number(word: Option<&str>) -> usize {
    word.and_then(|word| word.parse().ok()).unwrap_or(0)
}

fn run_line(rt: &HostRuntime, line: &str) -> anyhow::Result<()> {
    let mut words = line.split(' ');
    match words.next() {
        Some("base") => {
            if let Some(file) = words.next() {
                show_base(rt, file, number(words.next()))?;
            }
        }
        Some("open") => show_curve(rt, false, number(words.next()), number(words.next()))?,
        Some("closed") => show_curve(rt, true, number(words.next()), number(words.next()))?,
        _ => rt.println("no such line")?,
    }
    Ok(())
}

fn main(rt: HostRuntime) -> anyhow::Result<()> {
    let input = io::read_to_string(rt.alloc(), rt.stdin())?;
    for line in input.as_str().lines() {
        println!(rt; "{line}")?;
        run_line(&rt, line)?;
    }
    Ok(())
}
