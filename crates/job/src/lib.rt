// A job: a text with one command to a line, and what each line says.
#![tactic(auto)]

ghost use Rattle.std.specs.Prelude.{◌≡◌, ℕ, List, ◌++◌, length, suc, Some, codes};
ghost use Rattle.std.specs.Iterator.{YieldsFirstRef, item_count};
ghost use Rattle.job.specs.Lines.{view, view_command, sentence};
ghost use Rattle.job.specs.Meaning.{base, base_of, meaning};
ghost use Rattle.job.specs.Words.{words, Word, Cut};

use std::fmt;

#[cfg(test)]
mod tests;

// What a line asks for.
#[derive(Clone, Copy, Debug, PartialEq)]
pub enum Command<'a> {
    // read the base in the file of this name
    Base(&'a str),
}

// What is wrong with a line.
#[derive(Clone, Copy, Debug, PartialEq)]
pub enum Complaint<'a> {
    // no command begins with this word
    UnknownWord(&'a str),
    // the line has this number of words, and the command is to be written otherwise
    WordCount { usage: &'static str, given: usize },
}

// What `line` says; nothing, if it is empty or a comment.
#[tactic(auto, using(crate::proofs::Cuts::words_cut))]
pub fn parse_line<'a>(line: &'a str) -> Result<Option<Command<'a>>, Complaint<'a>>
    ensures value { view result ≡ meaning (words line.now) }
    ensures cut { Cut line.now (words line.now) }
    ensures written { (file : List ℕ) → Word file → line.now ≡ codes "base " ++ file → view result ≡ base file }
{
    let mut words = Words(line);
    match words.next() {
        None => Ok(None),
        Some(word) if word.starts_with('#') => Ok(None),
        Some("base") => Ok(Some(parse_base(words)?)),
        Some(word) => Err(Complaint::UnknownWord(word)),
    }
}

// What a line says, of which the `arguments` come after the command.
fn parse_base<'a>(mut arguments: Words<'a>) -> Result<Command<'a>, Complaint<'a>>
    ensures { view_command result ≡ base_of (suc (length (words arguments.entry.0.now))) (words arguments.entry.0.now) }
{
    let usage = "base FILE";
    match (arguments.next(), arguments.next()) {
        (Some(file), None) => Ok(Command::Base(file)),
        (_, None) => Err(Complaint::WordCount { usage, given: 1 }),
        (_, Some(_)) => Err(Complaint::WordCount {
            usage,
            // the command's word and two more are taken; the line is not gone over again for them
            given: 3 + arguments.count(),
        }),
    }
}

// The words of a text that are still to come.
#[derive(Drop)]
struct Words<'a>(&'a str);

impl<'a> Iterator for Words<'a> {
    type Item = &'a str;

    ghost next_gives = { YieldsFirstRef (λ s. words s.0.now) };

    ghost remaining = { item_count (λ s. words s.0.now) };

    fn next(&mut self) -> Option<&'a str> {
        let start = self.0.trim_start_matches(' ');
        if start.is_empty() {
            // so that the spaces at the end are not gone over again
            self.0 = start;
            return None;
        }
        let (word, rest) = start.split_once(' ').unwrap_or((start, ""));
        self.0 = rest;
        Some(word)
    }
}

impl fmt::Display for Complaint<'_> {
    ghost output = { λ x. Some (sentence x) };

    fn fmt<W: fmt::Write>(&self, f: &mut fmt::Formatter<W>) -> fmt::Result {
        match self {
            Complaint::UnknownWord(word) => write!(
                f,
                "unknown command \"{word}\"; the commands are: base FILE"
            ),
            Complaint::WordCount { usage, given } => write!(
                f,
                "wrong number of words, {given}; this command is written: {usage}"
            ),
        }
    }
}
