//! The program `feats COMMAND`.
//!
//! Each command answers a question about one build, as `plan` and `why` do; `diff` compares two. The answer, and the text of `--help`,
//! go to standard output; the exit status of a negative answer is 1. A fault is one line on standard error, or `clap`'s text about the
//! words; the exit status is then 2. Control characters of words and files are escaped in all of these. A pipe that is closed at its
//! other end is no fault: the status is that of the answer.
//! `feats --version` prints the version, and whether the program is proved.
#![tactic(auto)]

mod comparisons;
mod warnings;

ghost use Rattle.std.specs.Prelude.{◌≡◌, false, IfOk};
ghost use Rattle.byte_devices.specs.StdDevices.{read_failed};

use crate::comparisons::{
    SideInputs, compared_requests, compared_words, no_summary, one_format, run as run_difference,
    run_by_one_document,
};
use crate::warnings::{warn, warn_of_tests};
use byte_devices::{ByteInput, FromReader, ToWriter};
use clap::Error;
use clap::error::ErrorKind as MistakeKind;
use feats_files::{
    Ended, Fault, PlatformFile, bytes_of, no_command, not_text, refused, unopened, write_answer,
};
use feats_plans::tool::{PlanFiles, command_arguments, platform_file, run};
use feats_words::{CommandArguments, PlatformWord, Question, Request, ResolverSource, parse};
use shown_texts::escaped;
use std::alloc::{AllocError, Global};
use std::fs::File;
use std::io::ErrorKind;
use std::process::ExitCode;
use std::{env, io};

/// The answer to `--version`. `./build` and the launchers replace the text in parentheses, if it isn't true of their program.
const VERSION: &str = "feats 0.14.0 (proved, rattle-kit-13f logic dac8208d650f15bf)\n";

/// Opens the file at `path`.
fn opened(rt: &HostRuntime, path: &str) -> Result<FromReader<File>, Fault>
    ensures { IfOk result (λ reader. read_failed reader ≡ false) }
{
    match File::open(rt, path) {
        Ok(file) => Ok(FromReader::new(file)),
        Err(_) => Err(unopened(rt.alloc(), path)),
    }
}

/// Returns the bytes of the file at `path`.
fn file_bytes(rt: &HostRuntime, path: &str) -> Result<Vec<u8>, Fault> {
    let mut reader = opened(rt, path)?;
    bytes_of(rt.alloc(), &mut reader, path)
}

/// Returns the bytes of the document or policy at `path`: those of standard input, if `path` is `-`.
fn document_bytes(rt: &HostRuntime, path: &str) -> Result<Vec<u8>, Fault> {
    if path == "-" {
        let mut reader = FromReader::new(rt.stdin());
        return bytes_of(rt.alloc(), &mut reader, path);
    }
    file_bytes(rt, path)
}

/// Returns the bytes of the manifest or the cfg text at `path`, if it is one of `old`: a pipe can be read only once.
fn known_bytes<'o>(old: Option<SideInputs<'o, '_, '_>>, path: &str) -> Option<&'o [u8]> {
    let old = old?;
    match old.arguments.resolver {
        ResolverSource::Manifest(manifest) if manifest == path => return Some(&old.files.manifest),
        _ => {}
    }
    if old.arguments.host.path == path {
        return Some(&old.files.host.bytes);
    }
    for (word, file) in old.arguments.targets.iter().zip(&old.files.targets) {
        if word.path == path {
            return Some(&file.bytes);
        }
    }
    None
}

/// Returns a copy of `bytes`.
fn copied(alloc: Global, bytes: &[u8]) -> Result<Vec<u8>, AllocError> {
    let mut copy = Vec::new(alloc);
    copy.extend_from_slice(bytes)?;
    Ok(copy)
}

/// Returns the bytes of the manifest from which the version of the resolver is read; none, if there is no manifest.
fn manifest(
    rt: &HostRuntime,
    source: ResolverSource<'_>,
    old: Option<SideInputs<'_, '_, '_>>,
) -> Result<Vec<u8>, Fault> {
    match source {
        ResolverSource::Version(_) => Ok(Vec::new(rt.alloc())),
        ResolverSource::Manifest(path) => match known_bytes(old, path) {
            Some(bytes) => Ok(copied(rt.alloc(), bytes)?),
            None => file_bytes(rt, path),
        },
    }
}

/// Returns the bytes of the policy that `arguments` name; none, if they name no policy. Standard input can't be the document too.
fn policy(rt: &HostRuntime, arguments: &CommandArguments<'_>) -> Result<Vec<u8>, Fault> {
    match arguments.question {
        Question::Check { policy: "-", .. } if arguments.metadata == "-" => Err(refused(
            rt.alloc(),
            &[
                "both the policy and the document are `-`, standard input: write the path of a file for one of them",
            ],
        )),
        Question::Check { policy, .. } => document_bytes(rt, policy),
        _ => Ok(Vec::new(rt.alloc())),
    }
}

/// Returns the bytes of the file with the manifests of the members; none, if `question` names no such file.
fn member_manifests(rt: &HostRuntime, question: Question<'_>) -> Result<Vec<u8>, Fault> {
    match question {
        Question::Slim {
            manifests: Some(path),
        } => file_bytes(rt, path),
        _ => Ok(Vec::new(rt.alloc())),
    }
}

/// Returns the platform of `word`, with the bytes of its file.
fn platform<'f>(
    rt: &HostRuntime,
    word: PlatformWord<'f>,
    old: Option<SideInputs<'_, '_, '_>>,
) -> Result<PlatformFile<'f>, Fault> {
    if let Some(bytes) = known_bytes(old, word.path) {
        return Ok(PlatformFile {
            triple: word.triple,
            bytes: copied(rt.alloc(), bytes)?,
        });
    }
    let mut reader = opened(rt, word.path)?;
    platform_file(rt.alloc(), word, &mut reader)
}

/// Returns the platforms of `words`, with the bytes of their files.
fn platforms<'f>(
    rt: &HostRuntime,
    words: &[PlatformWord<'f>],
    old: Option<SideInputs<'_, '_, '_>>,
) -> Result<Vec<PlatformFile<'f>>, Fault> {
    let mut files = Vec::with_capacity(rt.alloc(), words.len())?;
    for word in words {
        files.push(platform(rt, *word, old)?)?;
    }
    Ok(files)
}

/// Returns the files that `arguments` name, besides the document. For the new side of `diff`, `old` has those of the old one.
fn plan_files<'f>(
    rt: &HostRuntime,
    arguments: &CommandArguments<'f>,
    old: Option<SideInputs<'_, '_, '_>>,
) -> Result<PlanFiles<'f>, Fault> {
    let manifest = manifest(rt, arguments.resolver, old)?;
    let host = platform(rt, arguments.host, old)?;
    let targets = platforms(rt, &arguments.targets, old)?;
    let policy = policy(rt, arguments)?;
    let member_manifests = member_manifests(rt, arguments.question)?;
    Ok(PlanFiles {
        manifest,
        host,
        targets,
        policy,
        member_manifests,
    })
}

/// Returns whether the answer of a run is negative. It must be written, unless the pipe is closed at its other end.
fn outcome(ended: Ended, is_closed: bool) -> Result<bool, Fault> {
    if ended.is_written || is_closed {
        Ok(ended.is_negative)
    } else {
        Err(Fault::CannotWrite)
    }
}

/// Writes the answer over the document of `reader` to standard output, and the warnings to standard error. Returns whether it is negative.
fn answer_document<R: ByteInput>(
    rt: &HostRuntime,
    arguments: &CommandArguments<'_>,
    files: &PlanFiles<'_>,
    reader: &mut R,
) -> Result<bool, Fault>
    requires { R.failed reader.old ≡ false }
{
    let mut writer = ToWriter::new(io::writer(rt));
    let ran = run(rt.alloc(), arguments, files, reader, &mut writer)?;
    warn(rt, &ran.warnings);
    outcome(ran.ended, writer.is_closed())
}

/// Answers `arguments`, over these files and the document that they name. Returns whether the answer is negative.
fn answer(
    rt: &HostRuntime,
    arguments: &CommandArguments<'_>,
    files: &PlanFiles<'_>,
) -> Result<bool, Fault> {
    if arguments.metadata == "-" {
        let mut reader = FromReader::new(rt.stdin());
        return answer_document(rt, arguments, files, &mut reader);
    }
    let mut reader = opened(rt, arguments.metadata)?;
    answer_document(rt, arguments, files, &mut reader)
}

/// Writes `bytes`, which aren't a negative answer, to standard output. Returns false.
fn write_bytes(rt: &HostRuntime, bytes: &[u8]) -> Result<bool, Fault> {
    let mut writer = ToWriter::new(io::writer(rt));
    let ended = write_answer(&mut writer, bytes, false);
    outcome(ended, writer.is_closed())
}

/// Compares the builds of `old` and `new`, which both have the document of `reader`. Returns whether they differ.
fn compare_by_one<R: ByteInput>(
    rt: &HostRuntime,
    old: SideInputs<'_, '_, '_>,
    new: SideInputs<'_, '_, '_>,
    reader: &mut R,
) -> Result<bool, Fault>
    requires { R.failed reader.old ≡ false }
{
    let mut writer = ToWriter::new(io::writer(rt));
    let ended = run_by_one_document(rt.alloc(), old, new, reader, &mut writer)?;
    outcome(ended, writer.is_closed())
}

/// Compares the builds of `old` and `new`, which have the documents of `old_reader` and `new_reader`. Returns whether they differ.
fn compare_by_two<R: ByteInput, S: ByteInput>(
    rt: &HostRuntime,
    old: SideInputs<'_, '_, '_>,
    new: SideInputs<'_, '_, '_>,
    old_reader: &mut R,
    new_reader: &mut S,
) -> Result<bool, Fault>
    requires old { R.failed old_reader.old ≡ false }
    requires new { S.failed new_reader.old ≡ false }
{
    let mut writer = ToWriter::new(io::writer(rt));
    let ended = run_difference(rt.alloc(), old, new, old_reader, new_reader, &mut writer)?;
    outcome(ended, writer.is_closed())
}

/// Compares the builds of `old`, which has the document of `reader`, and `new`. Returns whether they differ.
fn compare_with<R: ByteInput>(
    rt: &HostRuntime,
    old: SideInputs<'_, '_, '_>,
    new: SideInputs<'_, '_, '_>,
    reader: &mut R,
) -> Result<bool, Fault>
    requires { R.failed reader.old ≡ false }
{
    let path = new.arguments.metadata;
    if path == old.arguments.metadata {
        return compare_by_one(rt, old, new, reader);
    }
    if path == "-" {
        let mut new_reader = FromReader::new(rt.stdin());
        return compare_by_two(rt, old, new, reader, &mut new_reader);
    }
    let mut new_reader = opened(rt, path)?;
    compare_by_two(rt, old, new, reader, &mut new_reader)
}

/// Compares the builds of `old` and `new`. Returns whether they differ.
fn compare_sides(
    rt: &HostRuntime,
    old: SideInputs<'_, '_, '_>,
    new: SideInputs<'_, '_, '_>,
) -> Result<bool, Fault> {
    if old.arguments.metadata == "-" {
        let mut reader = FromReader::new(rt.stdin());
        return compare_with(rt, old, new, &mut reader);
    }
    let mut reader = opened(rt, old.arguments.metadata)?;
    compare_with(rt, old, new, &mut reader)
}

/// Compares the builds of `old` and of the arguments `new`. Returns whether they differ.
fn compare_arguments(
    rt: &HostRuntime,
    old: SideInputs<'_, '_, '_>,
    new: &CommandArguments<'_>,
) -> Result<bool, Fault> {
    let files = plan_files(rt, new, Some(old))?;
    let new = SideInputs {
        arguments: new,
        files: &files,
    };
    compare_sides(rt, old, new)
}

/// Compares the builds of two requests. Returns whether they differ.
fn compare_requests(rt: &HostRuntime, old: Request<'_>, new: Request<'_>) -> Result<bool, Fault> {
    let old = command_arguments(rt.alloc(), old)?;
    let new = command_arguments(rt.alloc(), new)?;
    no_summary(rt.alloc(), &old, &new)?;
    one_format(rt.alloc(), &old, &new)?;
    warn_of_tests(rt, old.has_old_tests || new.has_old_tests);
    let files = plan_files(rt, &old, None)?;
    let old = SideInputs {
        arguments: &old,
        files: &files,
    };
    compare_arguments(rt, old, &new)
}

/// Compares the builds of the two documents of `request`; `new` is the path of the second. Returns whether they differ.
fn compare_documents(rt: &HostRuntime, request: &Request<'_>, new: &str) -> Result<bool, Fault> {
    let requests = compared_requests(rt.alloc(), request, new)?;
    compare_requests(rt, requests.old, requests.new)
}

/// Answers a request about one document. Returns whether the answer is negative.
fn answer_one(rt: &HostRuntime, request: Request<'_>) -> Result<bool, Fault> {
    let arguments = command_arguments(rt.alloc(), request)?;
    let files = plan_files(rt, &arguments, None)?;
    warn_of_tests(rt, arguments.has_old_tests);
    answer(rt, &arguments, &files)
}

/// Answers a request. Returns whether the answer is negative.
fn answer_request(rt: &HostRuntime, request: Request<'_>) -> Result<bool, Fault> {
    match request.new {
        Some(new) => compare_documents(rt, &request, new),
        None => answer_one(rt, request),
    }
}

/// Returns the text of `clap` that `error` has.
fn text_of(alloc: Global, error: &Error) -> Result<String, AllocError> {
    format!(in alloc; "{error}")
}

/// Writes the text of `--help` to standard output. Returns false: no answer is negative.
fn help(rt: &HostRuntime, error: &Error) -> Result<bool, Fault> {
    let text = text_of(rt.alloc(), error)?;
    write_bytes(rt, text.as_bytes())
}

/// Returns the line, or the lines, for `fault`.
fn message_of(alloc: Global, fault: &Fault) -> Result<String, AllocError> {
    let message = format!(in alloc; "{fault}")?;
    match fault {
        Fault::Listed { .. } => Ok(message),
        _ => escaped(alloc, message.as_str()),
    }
}

/// Writes the line for `fault` to standard error. A failed write there can't be reported anywhere.
fn say(rt: &HostRuntime, fault: &Fault) {
    match message_of(rt.alloc(), fault) {
        Ok(message) => {
            let _ = eprintln!(rt; "feats: {message}");
        }
        Err(_) => {
            let _ = eprintln!(rt; "feats: out of memory");
        }
    }
}

/// Returns the exit status of a run that ended so, where an answer may be negative, and says the fault.
fn ended(rt: &HostRuntime, outcome: Result<bool, Fault>) -> ExitCode {
    match outcome {
        Ok(false) => ExitCode::SUCCESS,
        Ok(true) => ExitCode::from(1),
        Err(fault) => {
            say(rt, &fault);
            ExitCode::from(2)
        }
    }
}

/// Returns `words` with their control characters escaped.
fn shown_words(alloc: Global, words: &[&str]) -> Result<Vec<String>, AllocError> {
    let mut shown = Vec::with_capacity(alloc, words.len())?;
    for word in words {
        shown.push(escaped(alloc, word)?)?;
    }
    Ok(shown)
}

/// Prints the mistake `error` in `words`. The words are parsed once more with their control characters escaped, for the words in the text.
fn print_mistake(rt: &HostRuntime, words: &[&str], error: &Error) -> Result<(), AllocError> {
    let owned = shown_words(rt.alloc(), words)?;
    let shown = texts_of(rt.alloc(), &owned)?;
    // A failed write to standard error can't be reported anywhere.
    let _ = match parse(rt.alloc(), &shown) {
        Err(error) => error.print(rt),
        Ok(_) => error.print(rt),
    };
    Ok(())
}

/// Returns the exit status for `words`, which ask for help, or are mistaken, and says so.
fn unparsed(rt: &HostRuntime, words: &[&str], error: &Error) -> ExitCode {
    if error.kind() == MistakeKind::OutOfMemory {
        return ended(rt, Err(Fault::Memory));
    }
    if !error.use_stderr() {
        return ended(rt, help(rt, error));
    }
    match print_mistake(rt, words, error) {
        Ok(()) => ExitCode::from(2),
        Err(_) => ended(rt, Err(Fault::Memory)),
    }
}

/// Returns the request of `words`; the first word is the program's name. If `words` can't be parsed, prints the mistake and returns the
/// exit status.
fn request_of<'a>(rt: &HostRuntime, words: &'a [&str]) -> Result<Request<'a>, ExitCode> {
    match parse(rt.alloc(), words) {
        Ok(Some(request)) => Ok(request),
        Ok(None) => Err(ended(rt, Err(no_command(rt.alloc())))),
        Err(error) => Err(unparsed(rt, words, &error)),
    }
}

/// Answers a command line, and returns the exit status.
fn answer_line(rt: &HostRuntime, words: &[&str]) -> ExitCode {
    match request_of(rt, words) {
        Ok(request) => ended(rt, answer_request(rt, request)),
        Err(status) => status,
    }
}

/// Compares the build of `old` with that of a command line, and returns the exit status.
fn compare_line(rt: &HostRuntime, old: Request<'_>, words: &[&str]) -> ExitCode {
    match request_of(rt, words) {
        Ok(new) => ended(rt, compare_requests(rt, old, new)),
        Err(status) => status,
    }
}

/// Compares the builds of two command lines, and returns the exit status.
fn compare_lines(rt: &HostRuntime, before: &[&str], after: &[&str]) -> ExitCode {
    match request_of(rt, before) {
        Ok(old) => compare_line(rt, old, after),
        Err(status) => status,
    }
}

/// Answers `words`, the first of which is the program's name, and returns the exit status.
fn answer_words(rt: &HostRuntime, words: &[&str]) -> ExitCode {
    if let [_, "--version" | "-V"] = words {
        return ended(rt, write_bytes(rt, VERSION.as_bytes()));
    }
    match compared_words(rt.alloc(), words) {
        Ok(Some(lines)) => compare_lines(rt, &lines.before, &lines.after),
        Ok(None) => answer_line(rt, words),
        Err(fault) => ended(rt, Err(fault)),
    }
}

/// Returns the words of the command line.
fn command_line(rt: &HostRuntime) -> Result<Vec<String>, Fault> {
    let arguments = match env::args(rt) {
        Ok(arguments) => arguments,
        Err(error) if error.kind() == ErrorKind::InvalidData => return Err(not_text(rt.alloc())),
        Err(_) => return Err(Fault::Memory),
    };
    let mut words = Vec::new(rt.alloc());
    for word in arguments {
        words.push(word)?;
    }
    Ok(words)
}

/// Returns the texts of `words`.
fn texts_of(alloc: Global, words: &[String]) -> Result<Vec<&str>, AllocError> {
    let mut texts = Vec::with_capacity(alloc, words.len())?;
    for word in words {
        texts.push(word.as_str())?;
    }
    Ok(texts)
}

/// Answers the words `owned`, and returns the exit status.
fn answer_owned(rt: &HostRuntime, owned: &[String]) -> ExitCode {
    match texts_of(rt.alloc(), owned) {
        Ok(words) => answer_words(rt, &words),
        Err(_) => ended(rt, Err(Fault::Memory)),
    }
}

fn main(rt: HostRuntime) -> ExitCode {
    match command_line(&rt) {
        Ok(words) => answer_owned(&rt, &words),
        Err(fault) => ended(&rt, Err(fault)),
    }
}
