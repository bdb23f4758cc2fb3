//! The flags word of a span: its kind, its priority and the mark of a composing text.

ghost use Rattle.std.specs.Prelude.{◌≡◌, ◌%◌, ◌↔◌, false, IsTrue, IsErr, IfOk};
ghost use Rattle.edit_model.specs.Flags.{has_refused_bit, is_bad, is_composing, kind_named, kind_of, priority_of};
ghost use Rattle.edit_model.specs.Flags.{is_paragraph, is_point_mark, start_kind, end_kind};

use edit_model::{EndKind, Kind};
use std::marker::Model;

/// A flags word that isn't bad: its low byte names a kind, and none of the bits 10 to 15 is set.
#[derive(Clone, Copy, Debug, PartialEq, Eq)]
pub struct Flags {
    word: u32,
}

impl Model for Flags {
    ghost use Rattle.std.specs.Prelude.{ℕ, ◌≡◌, false};
    ghost use Rattle.edit_model.specs.Flags.{is_bad};

    ghost Value = { ℕ };

    ghost view = { λ flags. flags.word };

    ghost invariant = { λ flags. is_bad flags.word ≡ false };

    ghost inverse = { λ word. record { word = word } };
}

/// The word's low byte names no kind, or one of its bits 10 to 15 is set.
#[derive(Clone, Copy, Debug, PartialEq, Eq)]
pub struct BadFlags;

impl Flags {
    /// The word as it was given.
    pub fn word(self) -> u32
        ensures word { result ≡ self }
        ensures good { is_bad self ≡ false }
    {
        self.word
    }
}

/// The flags of a word.
///
/// # Errors
///
/// `BadFlags` exactly where the word is bad.
pub fn flags_of(word: u32) -> Result<Flags, BadFlags>
    ensures bad { IsErr result ↔ IsTrue (is_bad word) }
    ensures kept { IfOk result (λ flags. flags ≡ word) }
{
    if kind_of_byte(low_byte(word)).is_none() || has_refused_bits(word) {
        return Err(BadFlags);
    }
    Ok(Flags { word })
}

/// The kind that a word's low byte names: that of its flags, or `MarkMark` where it names none.
pub fn kind_of_word(word: u32) -> Kind
    ensures { result ≡ kind_of word }
{
    kind_of_byte(low_byte(word)).unwrap_or(Kind::MarkMark)
}

/// The priority that a word carries, whether it is bad or not.
pub fn priority_of_word(word: u32) -> u8
    ensures { result ≡ priority_of word }
{
    ((word >> 16) & 0xff) as u8
}

/// Whether a word marks a span as part of a composing text, be it bad or not.
pub fn is_composing(word: u32) -> bool
    ensures { result ≡ is_composing word }
{
    (word >> 8) & 1 == 1
}

/// Whether a span of this kind may not be empty.
pub fn is_point_mark(kind: Kind) -> bool
    ensures { result ≡ is_point_mark kind }
{
    matches!(kind, Kind::PointMark)
}

/// Whether the ends of a span of this kind stay at paragraph boundaries.
pub fn is_paragraph(kind: Kind) -> bool
    ensures { result ≡ is_paragraph kind }
{
    matches!(kind, Kind::Paragraph)
}

/// How the start of a span of this kind moves.
pub fn start_of(kind: Kind) -> EndKind
    ensures { result ≡ start_kind kind }
{
    match kind {
        Kind::MarkMark | Kind::MarkPoint => EndKind::Mark,
        Kind::PointMark | Kind::PointPoint => EndKind::Point,
        Kind::Paragraph => EndKind::Paragraph,
    }
}

/// How the end of a span of this kind moves.
pub fn end_of_kind(kind: Kind) -> EndKind
    ensures { result ≡ end_kind kind }
{
    match kind {
        Kind::MarkMark | Kind::PointMark => EndKind::Mark,
        Kind::MarkPoint | Kind::PointPoint => EndKind::Point,
        Kind::Paragraph => EndKind::Paragraph,
    }
}

fn low_byte(word: u32) -> u8
    ensures { result ≡ word % 256 }
{
    (word & 0xff) as u8
}

fn kind_of_byte(byte: u8) -> Option<Kind>
    ensures { result ≡ kind_named byte }
{
    match byte {
        0x11 => Some(Kind::MarkMark),
        0x12 => Some(Kind::MarkPoint),
        0x21 => Some(Kind::PointMark),
        0x22 => Some(Kind::PointPoint),
        0x33 => Some(Kind::Paragraph),
        _ => None,
    }
}

fn has_refused_bits(word: u32) -> bool
    ensures { result ≡ has_refused_bit word }
{
    (word >> 10) & 0x3f != 0
}
