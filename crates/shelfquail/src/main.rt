// Runs a job, a text with one command to a line, and prints the record: one line for each command.
#![tactic(auto)]

mod record;
mod session;

use session::{Session, Trouble};
use std::fmt::Display;
use std::{env, fs, io};

const USAGE: &str = "usage: shelfquail [JOB]";

const HELP: &str = "\
usage: shelfquail [JOB]

Runs JOB, a text file with one command to a line, and prints one line for each command.
Where no JOB is given, it is read from standard input. Words are parted by spaces.
Empty lines, and lines whose first word begins with #, are passed over.
A FILE is relative to the folder that the program runs in.

  base FILE   reads a base; prints: base VERTICES EDGES FACES, or: base refused NUMBER VALUE

The job goes on after a refusal. A line that is no command, or a FILE that cannot be read,
ends it with status 1.";

// The program ends with status 1. Why has been said on standard error.
#[derive(Debug, Drop)]
struct Failed;

fn main(rt: HostRuntime) -> Result<(), Failed> {
    let mut arguments = env::args(&rt).map_err(|e| fail(
        &rt,
        format_args!("error: cannot read the arguments: {e}"),
    ))?;
    let _program = arguments.next();
    match (arguments.next(), arguments.next()) {
        (None, _) => run_input(&rt),
        (Some(name), None) => match name.as_str() {
            "-h" | "--help" => show_help(&rt),
            file => run_file(&rt, file),
        },
        (Some(_), Some(_)) => Err(fail(&rt, USAGE)),
    }
}

fn fail(rt: &HostRuntime, message: impl Display + Drop) -> Failed {
    let _ = rt.eprintln(message);
    Failed
}

fn run_input(rt: &HostRuntime) -> Result<(), Failed> {
    let job = io::read_to_string(rt.alloc(), rt.stdin()).map_err(|e| {
        fail(
            rt,
            format_args!("error: cannot read the job from standard input: {e}"),
        )
    })?;
    run_job(rt, job.as_str())
}

fn run_file(rt: &HostRuntime, file: &str) -> Result<(), Failed> {
    let job = fs::read_to_string(rt, file).map_err(|e| fail(
        rt,
        format_args!("error: cannot read the job {file}: {e}"),
    ))?;
    run_job(rt, job.as_str())
}

fn show_help(rt: &HostRuntime) -> Result<(), Failed> {
    rt.println(HELP).map_err(|e| fail(rt, format_args!("error: cannot print the help: {e}")))
}

// Does the lines one after the other, up to the first that is bad.
fn run_job(rt: &HostRuntime, job: &str) -> Result<(), Failed> {
    let mut session = Session::start(rt.alloc()).map_err(|_| fail(rt, "error: out of memory"))?;
    for (above, line) in job.lines().enumerate() {
        let number = above + 1;
        run_line(rt, &mut session, line).map_err(|trouble| fail(
            rt,
            format_args!("error line {number}: {trouble}"),
        ))?;
    }
    Ok(())
}

// Does what a line asks for, and prints what the record says of it.
fn run_line<'a>(rt: &HostRuntime, session: &mut Session, line: &'a str) -> Result<(), Trouble<'a>> {
    if let Some(entry) = session.run(rt, line)? {
        rt.println(entry)?;
    }
    Ok(())
}
