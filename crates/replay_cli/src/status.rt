//! How a run ends.

ghost use Rattle.std.specs.Prelude.{◌≡◌, ◌≤◌, length};
ghost use Rattle.replay_cli.specs.Statuses.{code_of, status_text, kind_text, setting_text};

use arrayvec::ArrayString;
use itoa::Buffer;
use trace_model::{SettingsFault, TraceFault};

/// How a run ended.
#[derive(Clone, Copy, Debug, PartialEq, Eq)]
pub enum Status {
    /// Every line of the trace was run, or read by `check`, and all output is written.
    Done,
    /// The words are none that the program knows.
    Usage,
    /// This line, counted from 1, is the first that isn't blank and is no command.
    TraceFault { line: u32, kind: TraceFault },
    /// The settings have this fault.
    SettingsFault(SettingsFault),
    /// The trace couldn't be read.
    ReadFault,
    /// The output couldn't be written.
    WriteFault,
    /// There was no memory.
    NoMemory,
    /// The trace has more than 268,435,456 bytes.
    TraceTooLong,
}

impl Status {
    /// The program's exit code.
    pub fn code(&self) -> u8
        ensures { result ≡ code_of self.now }
    {
        match self {
            Status::Done => 0,
            Status::Usage => 1,
            Status::TraceFault { .. } => 2,
            Status::SettingsFault(_) => 3,
            Status::ReadFault => 4,
            Status::WriteFault => 5,
            Status::NoMemory => 6,
            Status::TraceTooLong => 7,
        }
    }

    /// What is said of it on standard error, without a line end; nothing where the run is done.
    pub fn text(&self) -> ArrayString<64>
        ensures { result.bytes ≡ status_text self.now }
    {
        match self {
            Status::Done => text_of(""),
            Status::Usage => text_of("fault usage"),
            Status::TraceFault { line, kind } => line_fault(*line, *kind),
            Status::SettingsFault(kind) => settings_fault(*kind),
            Status::ReadFault => text_of("fault read"),
            Status::WriteFault => text_of("fault write"),
            Status::NoMemory => text_of("fault memory"),
            Status::TraceTooLong => text_of("fault trace-too-long"),
        }
    }
}

// A text that fits.
fn text_of(words: &str) -> ArrayString<64>
    requires { length words.now ≤ 64 }
    ensures { result.bytes ≡ words.now }
{
    let mut text = ArrayString::new();
    text.push_str(words);
    text
}

fn line_fault(line: u32, kind: TraceFault) -> ArrayString<64>
    ensures { result.bytes ≡ status_text (Status.TraceFault line kind) }
{
    let mut digits = Buffer::new();
    let mut text = text_of("fault line ");
    text.push_str(digits.format(line));
    text.push_str(" ");
    text.push_str(kind_words(kind));
    text
}

fn settings_fault(kind: SettingsFault) -> ArrayString<64>
    ensures { result.bytes ≡ status_text (Status.SettingsFault kind) }
{
    let mut text = text_of("fault settings ");
    text.push_str(setting_words(kind));
    text
}

fn kind_words(kind: TraceFault) -> &'static str
    ensures words { result.now ≡ kind_text kind }
    ensures short { length result.now ≤ 20 }
{
    match kind {
        TraceFault::LineTooLong => "line-too-long",
        TraceFault::Json => "json",
        TraceFault::NotObject => "not-object",
        TraceFault::Op => "op",
        TraceFault::Field => "field",
        TraceFault::Missing => "missing",
        TraceFault::Number => "number",
        TraceFault::Text => "text",
        TraceFault::NoMemory => "memory",
    }
}

fn setting_words(kind: SettingsFault) -> &'static str
    ensures words { result.now ≡ setting_text kind }
    ensures short { length result.now ≤ 20 }
{
    match kind {
        SettingsFault::Toml => "toml",
        SettingsFault::Key => "key",
        SettingsFault::Value => "value",
        SettingsFault::Limit => "limit",
        SettingsFault::Face => "face",
        SettingsFault::Watcher => "watcher",
        SettingsFault::NoMemory => "memory",
    }
}
