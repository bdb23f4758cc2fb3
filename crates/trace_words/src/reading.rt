//! What a line of a trace asks for.

ghost use Rattle.std.specs.Prelude.{◌≡◌, ◌≢◌, ◌<◌, IfOk, IfErr, Some, None, Ok, Err};
ghost use Rattle.std.specs.Prelude.{length, option_map, option_and_then, codes, string_bytes};
ghost use Rattle.std.specs.BTreeMap.{keys};
ghost use Rattle.std.specs.List.{list_any};
ghost use Rattle.std.specs.Str.{bytes_eq};
ghost use Rattle.serde_json.specs.Find.{as_str};
ghost use Rattle.serde_json.specs.View.{view, members_view};
ghost use Rattle.edit_model.specs.Brought.{incoming_of};
ghost use Rattle.trace_model.specs.Faults.{Gives};
ghost use Rattle.trace_model.specs.Operations.{operation};
ghost use Rattle.trace_model.specs.Reading.{json_of, value_in, op_in, has_foreign, is_missing};
ghost use Rattle.trace_model.specs.Reading.{first_fault, value_lines, field_lines, unless_fault};
ghost use Rattle.trace_model.specs.Reading.{command_in};
ghost use Rattle.trace_model.specs.Reading.{read_object, read_command, IsFitting};
ghost use Rattle.trace_words.specs.Table.{shown_field, is_foreign, is_absent};

use crate::fields::{Object, count_in, member, place_in, spans_in, text_in, what_in, word_in};
use crate::table::{OpField, op_fields, op_named};
use edit_base::{Incoming, Items, Limits, NewSpan};
use serde_json::Value;
use std::alloc::Global;
use trace_model::{Command, Op, TraceFault};

/// What a line asks for, or the first fault that applies.
///
/// # Errors
///
/// The faults are judged in the order of [`TraceFault`]. `NoMemory` may come in place of any other
/// but `LineTooLong`.
#[tactic(auto, unfolding(trace_model::specs::Reading::read_command))]
pub fn read_line(alloc: Global, bytes: &[u8]) -> Result<Command, TraceFault>
    ensures ok { IfOk result (λ asked. read_command bytes.now ≡ Ok asked) }
    ensures err { IfErr result
        (λ it. it ≢ TraceFault.NoMemory → read_command bytes.now ≡ Err it) }
    ensures long { Limits.LINE_BYTES < length bytes.now → result ≡ Err TraceFault.LineTooLong }
    ensures fits { IfOk result IsFitting }
{
    if bytes.len() > Limits::LINE_BYTES as usize {
        return Err(TraceFault::LineTooLong);
    }
    let value = value_of(alloc, bytes)?;
    match value.as_object() {
        Some(object) => command_of(alloc, object),
        None => Err(TraceFault::NotObject),
    }
}

#[tactic(auto, using(crate::proofs::Json::json))]
fn value_of(alloc: Global, bytes: &[u8]) -> Result<Value, TraceFault>
    ensures ok { IfOk result (λ value. json_of bytes.now ≡ Some (view value)) }
    ensures err { IfErr result (λ it. it ≢ TraceFault.NoMemory
        → (it ≡ TraceFault.Json) × (json_of bytes.now ≡ None)) }
{
    match Value::from_slice(alloc, bytes) {
        Ok(value) => Ok(value),
        Err(error) => {
            if error.is_memory() {
                Err(TraceFault::NoMemory)
            } else {
                Err(TraceFault::Json)
            }
        }
    }
}

fn command_of(alloc: Global, object: &Object) -> Result<Command, TraceFault>
    ensures { Gives TraceFault.NoMemory (read_object (Some (members_view object.now.entries))) result }
{
    let Some(op) = op_in(object) else {
        return Err(TraceFault::Op);
    };
    if has_foreign(object, op) {
        Err(TraceFault::Field)
    } else {
        read_known(alloc, op, object)
    }
}

// The command of an object whose members are all known. What is missing has no value of its form either, so it is
// looked for only where one was not read.
fn read_known(alloc: Global, op: Op, object: &Object) -> Result<Command, TraceFault>
    ensures { let members = members_view object.now.entries in
        Gives TraceFault.NoMemory
        (unless_fault (first_fault (field_lines (operation op).fields members)) (command_in op members))
        result }
{
    match read_values(alloc, op, object) {
        Ok(command) => Ok(command),
        Err(fault) => {
            if lacks_one(object, op) {
                Err(TraceFault::Missing)
            } else {
                Err(fault)
            }
        }
    }
}

// The operation that `op` names.
fn op_in(object: &Object) -> Option<Op>
    ensures { result ≡ op_in (members_view object.now.entries) }
{
    op_named(op_text(object)?)
}

fn op_text(object: &Object) -> Option<&str>
    ensures { option_map (λ it. it.now) result
        ≡ option_and_then as_str (value_in (codes "op") (members_view object.now.entries)) }
{
    member(object, "op").and_then(Value::as_str)
}

// Whether a member is neither `op` nor a field of the operation.
fn has_foreign(object: &Object, op: Op) -> bool
    ensures { result ≡ has_foreign (operation op).fields (members_view object.now.entries) }
{
    has_other(object, op_fields(op))
}

fn has_other(object: &Object, fields: &[OpField]) -> bool
    ensures { result ≡ list_any (λ key. is_foreign fields.now (string_bytes key)) (keys object.now) }
{
    object.keys().any(|key| is_foreign(fields, key.as_str()))
}

fn is_foreign(fields: &[OpField], key: &str) -> bool
    ensures { result ≡ is_foreign fields.now key.now }
{
    key != "op" && !is_listed(fields, key)
}

fn is_listed(fields: &[OpField], key: &str) -> bool
    ensures { result ≡ list_any (λ field. bytes_eq key.now field.name.now) fields.now }
{
    fields.iter().any(|field| key == field.name)
}

// Whether a field of the operation has to stand, and doesn't.
fn lacks_one(object: &Object, op: Op) -> bool
    ensures { result ≡ list_any (is_missing (members_view object.now.entries)) (operation op).fields }
{
    has_absent(object, op_fields(op))
}

fn has_absent(object: &Object, fields: &[OpField]) -> bool
    ensures { result ≡ list_any (λ field. is_absent (members_view object.now.entries) (shown_field field)) fields.now }
{
    fields.iter().any(|field| is_absent(object, field))
}

fn is_absent(object: &Object, field: &OpField) -> bool
    ensures { result ≡ is_absent (members_view object.now.entries) (shown_field field.now) }
{
    field.required && member(object, field.name).is_none()
}

// ---- fields

// The value of a field in its form.
macro_rules! field {
    ($alloc:expr, $object:expr, $name:expr, place) => { place_in($object, $name)? };
    ($alloc:expr, $object:expr, $name:expr, count) => { count_in($object, $name)? };
    ($alloc:expr, $object:expr, $name:expr, word) => { word_in($object, $name)? };
    ($alloc:expr, $object:expr, $name:expr, text) => { text_in($alloc, $object, $name)? };
    ($alloc:expr, $object:expr, $name:expr, what) => { what_in($object, $name)? };
    ($alloc:expr, $object:expr, $name:expr, spans) => { spans_in($alloc, $object, $name)? };
}

// A command of fields, which are read in this order: numbers in front of texts.
macro_rules! command {
    ($alloc:expr, $object:expr, { $($name:ident: $form:ident),* } => $command:expr) => {{
        $(let $name = field!($alloc, $object, stringify!($name), $form);)*
        Ok($command)
    }};
}

// The command of an operation, or the fault of the first field without a value of its form.
fn read_values(alloc: Global, op: Op, object: &Object) -> Result<Command, TraceFault>
    ensures { let members = members_view object.now.entries in
        Gives TraceFault.NoMemory
        (unless_fault (first_fault (value_lines (operation op).fields members)) (command_in op members))
        result }
{
    match op {
        Op::Replace =>
            command!(alloc, object, { start: place, end: place, text: text, spans: spans }
            => Command::Replace { start, end, incoming: incoming_of(text, spans) }),
        Op::SetSpan =>
            command!(alloc, object, { id: word, start: place, end: place, flags: word, what: what }
            => Command::SetSpan { id, start, end, flags, what }),
        Op::RemoveSpan => command!(alloc, object, { id: word } => Command::RemoveSpan { id }),
        Op::SpansOver => command!(alloc, object, { start: place, end: place }
            => Command::SpansOver { start, end }),
        Op::NextEdge => command!(alloc, object, { start: place, limit: place }
            => Command::NextEdge { start, limit }),
        Op::Select =>
            command!(alloc, object, { start: place, end: place } => Command::Select { start, end }),
        Op::Deselect => Ok(Command::Deselect),
        Op::Compose => command!(alloc, object, { cursor: place, text: text, spans: spans }
            => Command::Compose { incoming: incoming_of(text, spans), cursor }),
        Op::Commit => command!(alloc, object, { cursor: place, text: text, spans: spans }
            => Command::Commit { incoming: incoming_of(text, spans), cursor }),
        Op::Finish => Ok(Command::Finish),
        Op::Region =>
            command!(alloc, object, { start: place, end: place } => Command::Region { start, end }),
        Op::DeleteAround => command!(alloc, object, { before: count, after: count }
            => Command::DeleteAround { before, after }),
        Op::DeletePoints => command!(alloc, object, { before: count, after: count }
            => Command::DeletePoints { before, after }),
        Op::SetSelection => command!(alloc, object, { start: place, end: place }
            => Command::SetSelection { start, end }),
        Op::TextBefore =>
            command!(alloc, object, { count: count } => Command::TextBefore { count }),
        Op::TextAfter => command!(alloc, object, { count: count } => Command::TextAfter { count }),
        Op::Selected => Ok(Command::Selected),
        Op::Begin => Ok(Command::Begin),
        Op::End => Ok(Command::End),
    }
}

fn incoming_of(units: Items<u16>, spans: Items<NewSpan>) -> Incoming
    ensures { result ≡ incoming_of units spans }
{
    Incoming {
        units,
        spans,
        composing: false,
    }
}
