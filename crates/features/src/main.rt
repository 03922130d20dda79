//! The program `features FILE COMMAND ARGS`.
//!
//! FILE is the path of a row file, or `-` for standard input. The output goes to standard output, and a fault is one
//! line on standard error. The exit status is 2 for a fault of the command line, and 1 for every other fault. A pipe that is closed at
//! its other end is no fault. `features --version` prints the version, and whether the program is proved.
#![tactic(auto)]

ghost use Rattle.std.specs.Prelude.{◌≡◌, false};

use digraphs::collect_exactly;
use guppy_tool::{ByteInput, Command, Fault, FromReader, ToWriter, parse_words, run};
use std::fs::File;
use std::io::ErrorKind;
use std::process::ExitCode;
use std::{env, io};

/// The answer to `--version`. `./build` and the launchers replace the text in parentheses, if it isn't true of their program.
const VERSION: &str = "features 0.14.0 (proved, rattle-kit-13f logic dac8208d650f15bf)";

/// The answer to `--help`.
const HELP: &str =
    "features FILE COMMAND ARGS: answers about the features of the packages in a row file

FILE is the path of a row file, or - for standard input. An ID is a package's id, a slash and a feature's label.
DIRECTION is forward (the features that a feature turns on) or reverse (those that turn it on).

Commands:
  resolve DIRECTION ID...         the features to which the given ones lead over all edges
  visit DIRECTION ID...           the features that are on when every link is accepted
  order DIRECTION                 all features, each before those that it turns on, or after them
  cycles                          the features that turn each other on
  list PACKAGE                    the labels of a package
  warnings                        the items and listed names that ask for something that isn't there
  build KINDS ID... [-- SPEC...]  the features that the given ones turn on for a platform, with reasons

  --version, -V                   the version
  --help, -h                      this text

The status is 0 after an answer, 2 after a fault of the words, and 1 after another fault.
Example: features examples/weak1.rows cycles";

/// Runs `command` over the rows of `reader`. The output of a closed pipe ends silently.
fn answer_rows<R: ByteInput>(
    rt: &HostRuntime,
    command: &Command<'_>,
    reader: &mut R,
) -> Result<(), Fault>
    requires { R.failed reader.old ≡ false }
{
    let mut writer = ToWriter::new(io::writer(rt));
    let ended = run(rt.alloc(), command, reader, &mut writer);
    if writer.is_closed() {
        return Ok(());
    }
    ended
}

/// Runs `command` over the row file at `path`, or over standard input if `path` is `-`.
fn answer(rt: &HostRuntime, path: &str, command: &Command<'_>) -> Result<(), Fault> {
    if path == "-" {
        return answer_rows(rt, command, &mut FromReader::new(rt.stdin()));
    }
    match File::open(rt, path) {
        Ok(file) => answer_rows(rt, command, &mut FromReader::new(file)),
        Err(_) => Err(Fault::CannotRead),
    }
}

/// Writes `text` and a line feed to standard output. A closed pipe is no fault.
fn write_text(rt: &HostRuntime, text: &str) -> Result<(), Fault> {
    match println!(rt; "{text}") {
        Err(error) if error.kind() != ErrorKind::BrokenPipe => Err(Fault::CannotWrite),
        _ => Ok(()),
    }
}

/// Runs the command of `words`.
fn answer_words(rt: &HostRuntime, words: &[&str]) -> Result<(), Fault> {
    match words {
        ["--version" | "-V"] => return write_text(rt, VERSION),
        ["--help" | "-h"] => return write_text(rt, HELP),
        _ => {}
    }
    let (path, command) = parse_words(rt.alloc(), words)?;
    answer(rt, path, &command)
}

/// Runs the command of the words `owned`.
fn answer_owned(rt: &HostRuntime, owned: &[String]) -> Result<(), Fault> {
    let words = collect_exactly(owned.iter().map(|word| word.as_str()), rt.alloc())?;
    answer_words(rt, &words)
}

/// Returns the words of the command line, without the program's name.
fn command_line(rt: &HostRuntime) -> Result<Vec<String>, Fault> {
    match env::args(rt) {
        Ok(arguments) => Ok(collect_exactly(arguments.skip(1), rt.alloc())?),
        Err(error) if error.kind() == ErrorKind::InvalidData => Err(Fault::Usage),
        Err(_) => Err(Fault::Memory),
    }
}

/// Runs the command of the program's arguments.
fn answer_line(rt: &HostRuntime) -> Result<(), Fault> {
    let words = command_line(rt)?;
    answer_owned(rt, &words)
}

fn main(rt: HostRuntime) -> ExitCode {
    match answer_line(&rt) {
        Ok(()) => ExitCode::SUCCESS,
        Err(fault) => {
            let _ = eprintln!(rt; "{fault}");
            ExitCode::from(fault.status())
        }
    }
}
