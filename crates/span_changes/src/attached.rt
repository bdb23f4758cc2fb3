//! Ids that are attached.

ghost use Rattle.std.specs.Prelude.{◌≡◌};
ghost use Rattle.edit_model.specs.Attached.{is_attached};
ghost use Rattle.span_table.specs.Table.{spans_of};

use interval_tree::SpanIndex;

/// Whether a span with this id is attached.
pub fn is_attached(rows: &SpanIndex, id: u32) -> bool
    ensures { result ≡ is_attached id (spans_of rows.now) }
{
    rows.find(id).is_some()
}
