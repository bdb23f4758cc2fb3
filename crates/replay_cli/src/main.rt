//! Replays a recorded trace of edits over an editable text, and prints what each command did and the text at the end.
#![tactic(auto)]

ghost use Rattle.std.specs.Prelude.{◌≡◌, ◌≢◌, ◌↔◌, map, None, IfSome, string_bytes};
ghost use Rattle.std.specs.IoError.{error_kind};
ghost use Rattle.std.specs.Process.{exit_status};
ghost use Rattle.replay_cli.specs.Runs.{requested_by, IsSet};
ghost use Rattle.replay_cli.specs.Statuses.{code_of};

mod checker;
mod lines;
mod player;
mod requests;
mod run;
mod shelf;
mod status;

pub use checker::check_trace;
pub use lines::{LineKind, is_blank_line, line_kind, next_line};
pub use player::{LineOutcome, play_lines, run_line, stop_at};
use replay_io::{FileStore, OutSink};
pub use requests::{Request, Task, request_of};
pub use run::run;
pub use shelf::run_on_blank_shelf;
pub use status::Status;
use std::env;
use std::io::{self, ErrorKind};
use std::process::ExitCode;

fn main(rt: HostRuntime) -> ExitCode {
    let status = match words(&rt) {
        Ok(words) => replay(&rt, words.as_slice()),
        Err(error) => unread_words(&error),
    };
    let text = status.text();
    if !text.is_empty() {
        let said = rt.eprintln(text.as_str());
        drop(said);
    }
    exit_of(&status)
}

// The words behind the program's own name. One that is no text makes all of them unreadable.
fn words(rt: &HostRuntime) -> io::Result<Vec<String>> {
    Ok(env::args(rt)?.skip(1).collect(rt.alloc())?)
}

// How a run ends whose words can't be read.
fn unread_words(error: &io::Error) -> Status
    ensures memory { (error_kind error.now ≡ ErrorKind.OutOfMemory) → result ≡ Status.NoMemory }
    ensures usage { (error_kind error.now ≢ ErrorKind.OutOfMemory) → result ≡ Status.Usage }
{
    if error.kind() == ErrorKind::OutOfMemory {
        Status::NoMemory
    } else {
        Status::Usage
    }
}

// The program over the real files and standard output, of whose bytes no clause can tell. With the built-in settings
// there is no fault of the settings.
fn replay(rt: &HostRuntime, words: &[String]) -> Status
    ensures usage { (result ≡ Status.Usage) ↔ (requested_by (map string_bytes words.now) ≡ None) }
    ensures built_in { IfSome (requested_by (map string_bytes words.now)) (λ it. it.settings ≡ None → IsSet result) }
{
    let mut files = FileStore::new(rt, rt.alloc());
    let mut output = OutSink::new(io::writer(rt));
    run_on_blank_shelf(rt.alloc(), words, &mut files, &mut output)
}

// The program's exit code.
fn exit_of(status: &Status) -> ExitCode
    ensures { exit_status result ≡ code_of status.now }
{
    ExitCode::from(status.code())
}

#[cfg(test)]
mod tests;
