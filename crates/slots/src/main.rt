// The program for planners: a table's rows, a month of an entry as a wall calendar, the questions to an entry, a year
// of it as a picture, a book of tables and the check of a finished sheet. A table's text is on standard input. Answers
// go to standard output, what goes wrong to standard error.

#![tactic(auto)]

use planner::refusals;
use std::env::FillError;
use std::io;
use std::rt::{Env, Runtime};
use table_text::TEXT_LIMIT;

mod converted;
mod finished;
mod usage;

#[derive(Clone, Copy, PartialEq)]
enum Command {
    Rows,
    Month,
    Up,
    Down,
    Late,
    Nth,
    Between,
    Picture,
    Append,
    Last,
    Check,
    Nothing,
    Unknown,
}

// Which command a word names.
fn command_of(word: &[u8]) -> Command {
    match word {
        b"" => Command::Nothing,
        b"rows" => Command::Rows,
        b"month" => Command::Month,
        b"up" => Command::Up,
        b"down" => Command::Down,
        b"late" => Command::Late,
        b"nth" => Command::Nth,
        b"between" => Command::Between,
        b"picture" => Command::Picture,
        b"append" => Command::Append,
        b"last" => Command::Last,
        b"check" => Command::Check,
        _ => Command::Unknown,
    }
}

// Says on standard error what to do about a refusal.
fn advise(rt: &impl Eprint, refusal: Option<u32>) {
    if let Some(number) = refusal {
        refusals::advise(rt, number);
    }
}

// Prints the sheet of standard input. The sheet's text is fixed, so that what to do is told on standard error. One byte
// more than a text may have is read, so that a longer one is seen.
fn rows(rt: &impl Runtime) -> io::Result<()> {
    let mut text = [0u8; TEXT_LIMIT + 1];
    let n = programs::fill(&mut rt.reader(), &mut text)?;
    advise(rt, sheet_printing::print(rt, &text[..n])?);
    Ok(())
}

// Appends the table on standard input to the book that argument 2 names, or prints the sheet of the last one there.
fn book(rt: &impl Runtime, command: Command) -> io::Result<()> {
    let mut name = [0u8; programs::PATH_LIMIT];
    let Some(path) = programs::path_at(rt, 2, "BOOK", &mut name) else {
        return Ok(());
    };
    let refusal = if command == Command::Append {
        journal_store::append(rt, path)?
    } else {
        journal_store::last(rt, path)?
    };
    advise(rt, refusal);
    Ok(())
}

// Whether a command takes so many words, the program's own name among them.
fn takes(command: Command, words: usize) -> bool {
    match command {
        Command::Rows => words == 2,
        Command::Append | Command::Last | Command::Check => words == 3,
        Command::Picture => words == 3 || words == 4,
        Command::Up => words == 4 || words == 5,
        Command::Late => words == 6,
        Command::Month | Command::Down | Command::Nth | Command::Between => words == 5,
        Command::Nothing | Command::Unknown => true,
    }
}

fn run(rt: &impl Runtime, command: Command) -> io::Result<()> {
    match command {
        Command::Rows => rows(rt),
        Command::Append | Command::Last => book(rt, command),
        Command::Nothing => rt.print(usage::TEXT),
        Command::Unknown => {
            tell_usage(rt);
            Ok(())
        }
        _ => converted::ask(rt, command),
    }
}

fn tell_usage(rt: &impl Eprint) {
    let _ = rt.eprint(usage::TEXT);
}

// The command that argument 1 names; a word that is too long names none.
fn command_at(rt: &impl Env) -> Command {
    let mut word = [0u8; 16];
    match rt.arg(1, &mut word) {
        Ok(n) => command_of(&word[..n]),
        Err(FillError::NotPresent) => Command::Nothing,
        Err(FillError::TooLong) => Command::Unknown,
    }
}

fn main(rt: HostRuntime) -> io::Result<()> {
    let command = command_at(&rt);
    if takes(command, programs::argument_count(&rt, 7)) {
        run(&rt, command)
    } else {
        tell_usage(&rt);
        Ok(())
    }
}
