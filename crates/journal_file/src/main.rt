// A journal in a file.
//     journal_file append FILE <TEXT    appends a table's text, and says "appended" once it is on the disk; a text that
//                                       breaks the rules is refused, and the file is not touched
//     journal_file last FILE            prints the sheet of the last table, or "empty book"
// What goes wrong is told on standard error.

#![tactic(auto)]

ghost use Rattle.std.specs.Prelude.{◌≡◌};
ghost use Rattle.journal_file.specs.Window.{window_length};

use std::io;
use std::rt::Runtime;

// How many bytes of the file are looked at together.
const WINDOW: usize = 8192;

fn tell_usage(rt: &impl Eprint) {
    let _ = rt.eprint("journal_file append FILE <TEXT, or journal_file last FILE\n");
}

// Prints the sheet of the last table, which is found by windows of N bytes.
fn last<const N: usize>(rt: &impl Runtime, path: &str) -> io::Result<()>
    requires { N ≡ window_length }
{
    journal_store::last_by::<N>(rt, path)?;
    Ok(())
}

fn run(rt: &impl Runtime, command: &[u8], path: &str) -> io::Result<()> {
    match command {
        b"append" => {
            journal_store::append(rt, path)?;
        }
        b"last" => last::<WINDOW>(rt, path)?,
        _ => tell_usage(rt),
    }
    Ok(())
}

fn main(rt: HostRuntime) -> io::Result<()> {
    if programs::argument_count(&rt, 4) != 3 {
        tell_usage(&rt);
        return Ok(());
    }
    let mut command = [0u8; 16];
    let k = programs::argument(&rt, 1, &mut command);
    let mut name = [0u8; programs::PATH_LIMIT];
    match programs::path_at(&rt, 2, "FILE", &mut name) {
        Some(path) => run(&rt, &command[..k], path),
        None => Ok(()),
    }
}
