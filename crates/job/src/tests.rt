// Lines as a job has them, and the sentences that a bad one gets.
use crate::{Command, Complaint, parse_line};
use std::test::Fail;

#[test]
fn reads_a_command(rt: HostRuntime) {
    let asked = Ok(Some(Command::Base("data/one.base")));
    assert_eq!(rt; parse_line("   base   data/one.base  "), asked);
}

#[test]
fn passes_over_comments(rt: HostRuntime) {
    assert_eq!(rt; parse_line("  # base one"), Ok(None));
}

#[test]
fn says_what_is_wrong(rt: HostRuntime) -> Result<(), Fail> {
    let usage = "base FILE";
    let many = Complaint::WordCount { usage, given: 10 };
    assert_eq!(rt; parse_line("base 1 2 3 4 5 6 7 8 9"), Err(many));
    let said = format!(in rt.alloc(); "{many}")?;
    assert_eq!(rt;
        said.as_str(),
        "wrong number of words, 10; this command is written: base FILE"
    );
    Ok(())
}
