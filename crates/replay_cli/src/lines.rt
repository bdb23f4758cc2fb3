//! The lines of a trace.

ghost use Rattle.std.specs.Prelude.{◌≡◌, ◌<◌, [], ◌∷◌, ◌==◌, true, length, position, IfOk, IfSome, MatchOption};
ghost use Rattle.std.specs.List.{list_all};
ghost use Rattle.trace_model.specs.TraceLines.{open_line, is_blank, is_blank_byte};
ghost use Rattle.trace_model.specs.Output.{line_kind as kind_of_line};
ghost use Rattle.replay_cli.specs.Steps.{kind_seen, lines_in};

use edit_base::{Limits, NoMemory};
use std::alloc::Global;
use trace_model::{Command, TraceFault};
use trace_words::read_line;

/// What a line of a trace is.
#[derive(Drop)]
pub enum LineKind {
    /// A line that is counted and skipped.
    Blank,
    /// A command.
    Command(Command),
    /// A line with this fault.
    Faulty(TraceFault),
}

/// The next line of these bytes, and what stands behind its `\n`. Where more bytes of the trace were cut off, only a
/// line whose `\n` stands here counts; else the bytes behind the last `\n` are a line too.
#[tactic(auto, using(crate::proofs::Cutting::cutting))]
pub fn next_line(bytes: &[u8], is_cut: bool) -> Option<(&[u8], &[u8])>
    ensures lines { MatchOption result (lines_in is_cut bytes.now ≡ [])
        (λ pair. lines_in is_cut bytes.now ≡ pair.0.now ∷ lines_in is_cut pair.1.now) }
    ensures tail { MatchOption result (is_cut ≡ true → open_line bytes.now ≡ bytes.now)
        (λ pair. is_cut ≡ true → open_line bytes.now ≡ open_line pair.1.now) }
    ensures shorter { IfSome result (λ pair. length pair.1.now < length bytes.now) }
{
    match line_length(bytes) {
        Some(end) => Some((&bytes[..end], &bytes[end + 1..])),
        None if is_cut => None,
        None if bytes.is_empty() => None,
        None => Some((bytes, &[])),
    }
}

fn line_length(bytes: &[u8]) -> Option<usize>
    ensures { result ≡ position (λ byte. byte == 10) bytes.now }
{
    bytes.iter().position(|byte| *byte == b'\n')
}

/// Whether a line is skipped: at most 131,072 bytes, all of them spaces, tabs or `\r`.
pub fn is_blank_line(line: &[u8]) -> bool
    ensures { result ≡ is_blank line.now }
{
    line.len() <= Limits::LINE_BYTES as usize && all_blank(line)
}

fn all_blank(line: &[u8]) -> bool
    ensures { result ≡ list_all is_blank_byte line.now }
{
    line.iter().all(|byte| is_space(*byte))
}

fn is_space(byte: u8) -> bool
    ensures { result ≡ is_blank_byte byte }
{
    matches!(byte, b' ' | b'\t' | b'\r')
}

/// What a line without its `\n` is.
#[tactic(auto, unfolding(trace_model::specs::Output::line_kind))]
pub fn line_kind(alloc: Global, line: &[u8]) -> Result<LineKind, NoMemory>
    ensures { IfOk result (λ it. kind_seen it ≡ kind_of_line line.now) }
{
    if is_blank_line(line) {
        return Ok(LineKind::Blank);
    }
    match read_line(alloc, line) {
        Ok(command) => Ok(LineKind::Command(command)),
        Err(TraceFault::NoMemory) => Err(NoMemory),
        Err(fault) => Ok(LineKind::Faulty(fault)),
    }
}
