//! The program `rows [FILE]`.
//!
//! FILE is the output of `cargo metadata --format-version 1`; without FILE, or if it is `-`, standard input is read. The rows are
//! written to standard output, and each warning is a line on standard error. A fault is one line on standard error; the exit
//! status is then 1, or 2 if the arguments are wrong. A pipe that is closed at its other end is no fault. `rows --version` prints the
//! version, and whether the program is proved.
#![tactic(auto)]

ghost use Rattle.std.specs.Prelude.{◌≡◌, false};

use cargo_rows::{ByteInput, Fault, FromReader, ToWriter, Warning, run};
use std::fs::File;
use std::io::ErrorKind;
use std::process::ExitCode;
use std::{env, io};

/// Returns the word of the command line, if there is one. Two words are a fault.
fn file_word(rt: &HostRuntime) -> Result<Option<String>, Fault> {
    let mut words = match env::args(rt) {
        Ok(words) => words.skip(1),
        Err(error) if error.kind() == ErrorKind::InvalidData => return Err(Fault::Usage),
        Err(_) => return Err(Fault::Memory),
    };
    let file = words.next();
    if words.next().is_some() {
        return Err(Fault::Usage);
    }
    Ok(file)
}

/// The answer to `--version`. `./build` and the launchers replace the text in parentheses, if it isn't true of their program.
const VERSION: &str = "rows 0.14.0 (proved, rattle-kit-13f logic dac8208d650f15bf)";

/// Writes the version to standard output. There are no warnings.
fn write_version(rt: &HostRuntime) -> Result<Vec<Warning>, Fault> {
    match println!(rt; "{VERSION}") {
        Err(error) if error.kind() != ErrorKind::BrokenPipe => Err(Fault::CannotWrite),
        _ => Ok(Vec::new(rt.alloc())),
    }
}

/// Writes the rows that the program's words ask for, and returns the warnings.
fn answer(rt: &HostRuntime) -> Result<Vec<Warning>, Fault> {
    match file_word(rt)? {
        Some(file) if file.as_str() == "--version" || file.as_str() == "-V" => write_version(rt),
        Some(file) if file.as_str() != "-" => answer_file(rt, file.as_str()),
        _ => answer_document(rt, &mut FromReader::new(rt.stdin())),
    }
}

/// Writes the rows of the document of `reader`, and returns the warnings. A closed pipe ends it silently, without warnings.
fn answer_document<R: ByteInput>(rt: &HostRuntime, reader: &mut R) -> Result<Vec<Warning>, Fault>
    requires { R.failed reader.old ≡ false }
{
    let mut writer = ToWriter::new(io::writer(rt));
    let ended = run(rt.alloc(), reader, &mut writer);
    if writer.is_closed() {
        return Ok(Vec::new(rt.alloc()));
    }
    ended
}

/// Writes the rows of the file of this path, and returns the warnings.
fn answer_file(rt: &HostRuntime, path: &str) -> Result<Vec<Warning>, Fault> {
    match File::open(rt, path) {
        Ok(file) => answer_document(rt, &mut FromReader::new(file)),
        Err(_) => Err(Fault::CannotRead),
    }
}

fn main(rt: HostRuntime) -> ExitCode {
    match answer(&rt) {
        Ok(warnings) => {
            for warning in &warnings {
                let _ = eprintln!(rt; "{warning}");
            }
            ExitCode::SUCCESS
        }
        Err(fault) => {
            let _ = eprintln!(rt; "{fault}");
            ExitCode::from(fault.status())
        }
    }
}
