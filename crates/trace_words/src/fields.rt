//! The fields of an object, each in its form.

ghost use Rattle.std.specs.Prelude.{◌≡◌, pos, option_map, option_and_then};
ghost use Rattle.serde_json.specs.Find.{as_str};
ghost use Rattle.serde_json.specs.View.{view, items_view, members_view};
ghost use Rattle.trace_model.specs.Words.{as_span};
ghost use Rattle.trace_model.specs.Reading.{what_of, spans_said, spans_of, value_in};
ghost use Rattle.trace_model.specs.Reading.{number_found, place_found, count_found, word_found};
ghost use Rattle.trace_model.specs.Reading.{what_found, text_found, spans_found};
ghost use Rattle.trace_words.specs.Fields.{FindsNumber, FindsText};

use crate::words::{span_from, what_from};
use edit_base::{Incoming, Items, Limits, NewSpan, What, units_of};
use serde_json::{Map, Value};
use std::alloc::Global;
use trace_model::TraceFault;

// An object of JSON.
pub(crate) type Object = Map<String, Value>;

pub(crate) fn member<'a>(object: &'a Object, name: &str) -> Option<&'a Value>
    ensures { option_map (λ it. view it.now) result
        ≡ value_in name.now (members_view object.now.entries) }
{
    object.get(name)
}

// ---- numbers

// The whole number of a field, from a least to a greatest one.
fn number_in(object: &Object, name: &str, least: i64, greatest: i64) -> Result<i64, TraceFault>
    ensures { FindsNumber (λ z. z)
        (number_found least greatest name.now (members_view object.now.entries)) result }
{
    match member(object, name).and_then(Value::as_i64) {
        Some(number) if least <= number && number <= greatest => Ok(number),
        _ => Err(TraceFault::Number),
    }
}

// A place.
pub(crate) fn place_in(object: &Object, name: &str) -> Result<i32, TraceFault>
    ensures { FindsNumber (λ z. z) (place_found name.now (members_view object.now.entries)) result }
{
    let number = number_in(object, name, i64::from(i32::MIN), i64::from(i32::MAX))?;
    Ok(number as i32)
}

// A count: as a place, without sign.
pub(crate) fn count_in(object: &Object, name: &str) -> Result<u32, TraceFault>
    ensures { FindsNumber (λ n. pos n) (count_found name.now (members_view object.now.entries)) result }
{
    let number = number_in(object, name, 0, i64::from(i32::MAX))?;
    Ok(number as u32)
}

// An id or a flags word.
pub(crate) fn word_in(object: &Object, name: &str) -> Result<u32, TraceFault>
    ensures { FindsNumber (λ n. pos n) (word_found name.now (members_view object.now.entries)) result }
{
    let number = number_in(object, name, 0, i64::from(u32::MAX))?;
    Ok(number as u32)
}

// ---- texts

pub(crate) fn what_in(object: &Object, name: &str) -> Result<What, TraceFault>
    ensures { FindsText (what_found name.now (members_view object.now.entries)) result }
{
    member(object, name)
        .and_then(what_from_value)
        .ok_or(TraceFault::Text)
}

pub(crate) fn text_in(alloc: Global, object: &Object, name: &str) -> Result<Items<u16>, TraceFault>
    ensures { FindsText (text_found name.now (members_view object.now.entries)) result }
{
    let Some(text) = member(object, name).and_then(Value::as_str) else {
        return Err(TraceFault::Text);
    };
    let Ok(units) = units_of(alloc, text) else {
        return Err(TraceFault::NoMemory);
    };
    if units.len() > Incoming::MOST as usize {
        return Err(TraceFault::Text);
    }
    Ok(Items::from_vec(units))
}

// The spans of a field that may be left out: then there are none.
pub(crate) fn spans_in(
    alloc: Global,
    object: &Object,
    name: &str,
) -> Result<Items<NewSpan>, TraceFault>
    ensures { FindsText (spans_found name.now (members_view object.now.entries)) result }
{
    match member(object, name) {
        Some(value) => spans_from(alloc, value),
        None => Ok(Items::from_vec(Vec::new(alloc))),
    }
}

fn what_from_value(value: &Value) -> Option<What>
    ensures { result ≡ what_of (view value.now) }
{
    what_from(value.as_str()?)
}

// ---- spans

#[tactic(auto, using(crate::proofs::Counted::counted))]
fn spans_from(alloc: Global, value: &Value) -> Result<Items<NewSpan>, TraceFault>
    ensures { FindsText (spans_of (view value.now)) result }
{
    let Some(values) = value.as_array() else {
        return Err(TraceFault::Text);
    };
    if values.len() > Limits::LINE_SPANS as usize {
        return Err(TraceFault::Text);
    }
    each_span(alloc, values)
}

// The spans that these values say, one after another.
fn each_span(alloc: Global, values: &[Value]) -> Result<Items<NewSpan>, TraceFault>
    ensures { FindsText (spans_said (items_view values.now)) result }
{
    let Ok(mut spans) = Vec::with_capacity(alloc, values.len()) else {
        return Err(TraceFault::NoMemory);
    };
    for value in values {
        let Some(span) = span_from_value(value) else {
            return Err(TraceFault::Text);
        };
        let Ok(()) = spans.push(span) else {
            return Err(TraceFault::NoMemory);
        };
    }
    Ok(Items::from_vec(spans))
}

fn span_from_value(value: &Value) -> Option<NewSpan>
    ensures { result ≡ option_and_then as_span (as_str (view value.now)) }
{
    span_from(value.as_str()?)
}
