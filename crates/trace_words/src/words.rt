//! A span, and what it carries, in words.

ghost use Rattle.std.specs.Prelude.{◌≡◌, [], ◌∷◌, MatchOption, decimal};
ghost use Rattle.std.specs.Str.{bytes_eq};
ghost use Rattle.edit_base.specs.declared.bounds.TheConstants.Limits.{METRIC};
ghost use Rattle.trace_model.specs.Words.{words_of, whole_number, greatest_id, greatest_byte};
ghost use Rattle.trace_model.specs.Words.{what_by_words, as_what, ordered_span, span_by_words, as_span};

use edit_base::{NewSpan, What};
use itoa::Buffer;

// The span that `ID START END FLAGS WHAT` says, with one space between words.
pub(crate) fn span_from(text: &str) -> Option<NewSpan>
    ensures { result ≡ as_span text.now }
{
    let Some((id, behind)) = cut(text) else {
        return None;
    };
    let Some((start, behind)) = cut(behind) else {
        return None;
    };
    let Some((end, behind)) = cut(behind) else {
        return None;
    };
    let Some((flags, what)) = cut(behind) else {
        return None;
    };
    span_with(id, start, end, flags, what)
}

// The span of these four numbers and this what.
fn span_with(id: &str, start: &str, end: &str, flags: &str, what: &str) -> Option<NewSpan>
    ensures { result ≡ span_by_words (id.now ∷ start.now ∷ end.now ∷ flags.now ∷ words_of what.now) }
{
    let id = number_from(id)?;
    let start = number_from(start)?;
    let end = number_from(end)?;
    let flags = number_from(flags)?;
    ordered_span(id, start, end, flags, what_from(what)?)
}

// A span whose start isn't behind its end.
fn ordered_span(id: u32, start: u32, end: u32, flags: u32, what: What) -> Option<NewSpan>
    ensures { result ≡ ordered_span id start end flags what }
{
    if start <= end {
        Some(NewSpan {
            id,
            start,
            end,
            flags,
            what,
        })
    } else {
        None
    }
}

// What `tag N`, `face N`, `watch N`, `margin N N` or `float N N` says, with one space between words.
pub(crate) fn what_from(text: &str) -> Option<What>
    ensures { result ≡ as_what text.now }
{
    let Some((name, behind)) = cut(text) else {
        return None;
    };
    let Some((first, second)) = cut(behind) else {
        return with_one(name, behind);
    };
    match cut(second) {
        Some(_) => None,
        None => with_two(name, first, second),
    }
}

// The word in front of the first space, and what stands behind the space.
fn cut(text: &str) -> Option<(&str, &str)>
    ensures { MatchOption result (words_of text.now ≡ text.now ∷ [])
        (λ parts. words_of text.now ≡ parts.0.now ∷ words_of parts.1.now) }
{
    text.split_once(' ')
}

fn with_one(name: &str, number: &str) -> Option<What>
    ensures { result ≡ what_by_words (name.now ∷ number.now ∷ []) }
{
    match name {
        "tag" => Some(What::Tag(number_from(number)?)),
        "face" => Some(What::Face(byte_from(number)?)),
        "watch" => Some(What::Watch(byte_from(number)?)),
        _ => None,
    }
}

fn with_two(name: &str, first: &str, second: &str) -> Option<What>
    ensures { result ≡ what_by_words (name.now ∷ first.now ∷ second.now ∷ []) }
{
    match name {
        "margin" => Some(What::Margin {
            first: metric_from(first)?,
            rest: metric_from(second)?,
        }),
        "float" => Some(What::Float {
            margin: metric_from(first)?,
            lines: metric_from(second)?,
        }),
        _ => None,
    }
}

// ---- numbers

// A face or a slot.
fn byte_from(digits: &str) -> Option<u8>
    ensures { result ≡ whole_number greatest_byte digits.now }
{
    u8::try_from(number_from(digits)?).ok()
}

// A margin, or a number of lines.
fn metric_from(digits: &str) -> Option<u16>
    ensures { result ≡ whole_number METRIC digits.now }
{
    u16::try_from(number_from(digits)?).ok()
}

// A number of 32 bits: decimal digits without a sign or a leading zero.
fn number_from(digits: &str) -> Option<u32>
    ensures { result ≡ whole_number greatest_id digits.now }
{
    let number: u32 = digits.parse().ok()?;
    if is_written(number, digits) {
        Some(number)
    } else {
        None
    }
}

// Whether a number's own form is these digits.
fn is_written(number: u32, digits: &str) -> bool
    ensures { result ≡ bytes_eq (decimal number) digits.now }
{
    Buffer::new().format(number) == digits
}
