//! The table of operations.

ghost use Rattle.std.specs.Prelude.{◌≡◌, map, length, option_map, option_and_then};
ghost use Rattle.std.specs.List.{IsDistinct, slice_get};
ghost use Rattle.std.specs.Str.{bytes_eq};
ghost use Rattle.trace_model.specs.Operations.{operation, ops};
ghost use Rattle.trace_model.specs.Reading.{op_named};
ghost use Rattle.trace_words.specs.Table.{named_field, shown_field, table};

use std::marker::Model;
use trace_model::Op;

/// A field of an operation.
#[derive(Clone, Copy, Debug, PartialEq, Eq)]
pub struct OpField {
    pub name: &'static str,
    /// Whether it has to stand. Another field may be left out.
    pub required: bool,
}

// Every operation, in the order of the table.
const OPS: [Op; 19] = [
    Op::Replace,
    Op::SetSpan,
    Op::RemoveSpan,
    Op::SpansOver,
    Op::NextEdge,
    Op::Select,
    Op::Deselect,
    Op::Compose,
    Op::Commit,
    Op::Finish,
    Op::Region,
    Op::DeleteAround,
    Op::DeletePoints,
    Op::SetSelection,
    Op::TextBefore,
    Op::TextAfter,
    Op::Selected,
    Op::Begin,
    Op::End,
];

// What an operation is called, and its fields.
#[derive(Clone, Copy)]
struct Row {
    name: &'static str,
    fields: &'static [OpField],
}

// A row. A field in brackets may be left out.
macro_rules! row {
    ($name:literal: $($field:literal)* $([$spare:literal])*) => {
        Row {
            name: $name,
            fields: &[
                $(OpField { name: $field, required: true },)*
                $(OpField { name: $spare, required: false },)*
            ],
        }
    };
}

fn row_of(op: Op) -> Row
    ensures name { result.name.now ≡ (operation op).name }
    ensures fields { map shown_field result.fields.now ≡ map named_field (operation op).fields }
{
    match op {
        Op::Replace => row!("replace": "start" "end" "text" ["spans"]),
        Op::SetSpan => row!("set_span": "id" "start" "end" "flags" "what"),
        Op::RemoveSpan => row!("remove_span": "id"),
        Op::SpansOver => row!("spans_over": "start" "end"),
        Op::NextEdge => row!("next_edge": "start" "limit"),
        Op::Select => row!("select": "start" "end"),
        Op::Deselect => row!("deselect":),
        Op::Compose => row!("compose": "text" "cursor" ["spans"]),
        Op::Commit => row!("commit": "text" "cursor" ["spans"]),
        Op::Finish => row!("finish":),
        Op::Region => row!("region": "start" "end"),
        Op::DeleteAround => row!("delete_around": "before" "after"),
        Op::DeletePoints => row!("delete_points": "before" "after"),
        Op::SetSelection => row!("set_selection": "start" "end"),
        Op::TextBefore => row!("text_before": "count"),
        Op::TextAfter => row!("text_after": "count"),
        Op::Selected => row!("selected":),
        Op::Begin => row!("begin":),
        Op::End => row!("end":),
    }
}

/// What an operation is called in a trace, and in what is printed.
pub fn op_name(op: Op) -> &'static str
    ensures { result.now ≡ (operation op).name }
{
    row_of(op).name
}

/// The fields of an operation, in order.
pub fn op_fields(op: Op) -> &'static [OpField]
    ensures { map shown_field result.now ≡ map named_field (operation op).fields }
{
    row_of(op).fields
}

// The operation of a name.
pub(crate) fn op_named(name: &str) -> Option<Op>
    ensures { result ≡ op_named name.now }
{
    OPS.iter().copied().find(|op| is_named(*op, name))
}

fn is_named(op: Op, name: &str) -> bool
    ensures { result ≡ bytes_eq (operation op).name name.now }
{
    op_name(op) == name
}

/// The operations that are built, each with its name and its fields. Places in it count from 0.
#[derive(Drop)]
pub struct OpTable<const N: usize> {
    ops: [Op; N],
}

impl<const N: usize> Model for OpTable<N> {
    ghost use Rattle.std.specs.Prelude.{List, map};
    ghost use Rattle.trace_model.specs.Operations.{Operation, operation};

    ghost Value = { List Operation };

    ghost view = { λ it. map operation it.ops };
}

impl<const N: usize> OpTable<N> {
    /// How many operations there are.
    pub fn len(&self) -> usize
        ensures { result ≡ length self.now }
    {
        let ops: &[Op] = &self.ops;
        ops.len()
    }

    /// What the operation at a place is called.
    pub fn name(&self, at: usize) -> Option<&'static str>
        ensures { option_map (λ name. name.now) result ≡ option_map (λ it. it.name) (slice_get self.now at) }
    {
        Some(op_name(*self.ops.get(at)?))
    }

    /// How many fields the operation at a place has.
    pub fn field_count(&self, at: usize) -> Option<usize>
        ensures { result ≡ option_map (λ it. length it.fields) (slice_get self.now at) }
    {
        Some(op_fields(*self.ops.get(at)?).len())
    }

    /// A field, by its place among those of the operation at a place.
    pub fn field(&self, at: usize, of: usize) -> Option<OpField>
        ensures { option_map shown_field result
            ≡ option_and_then (λ it. slice_get (map named_field it.fields) of) (slice_get self.now at) }
    {
        field_at(op_fields(*self.ops.get(at)?), of)
    }
}

#[tactic(auto, using(crate::proofs::Rows::fields))]
fn field_at(fields: &[OpField], of: usize) -> Option<OpField>
    ensures { option_map shown_field result ≡ slice_get (map shown_field fields.now) of }
{
    fields.get(of).copied()
}

/// The table of every operation.
pub fn op_table() -> OpTable<19>
    ensures rows { result ≡ table }
    ensures names { IsDistinct bytes_eq (map (λ it. it.name) result) }
{
    OpTable { ops: OPS }
}
