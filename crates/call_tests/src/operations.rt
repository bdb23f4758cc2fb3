//! The table of operations, against one that was written by hand.

use std::alloc::AllocError;
use std::test::Fail;
use trace_words::{OpField, op_table};

// Each operation with its fields, in the table's order; a field in brackets may be left out.
const TABLE: &str = "replace start end text [spans]; set_span id start end flags what; \
    remove_span id; spans_over start end; next_edge start limit; select start end; deselect; \
    compose text cursor [spans]; commit text cursor [spans]; finish; region start end; \
    delete_around before after; delete_points before after; set_selection start end; \
    text_before count; text_after count; selected; begin; end; ";

#[test]
fn the_table_has_each_operation_with_its_fields(rt: HostRuntime) -> Result<(), Fail> {
    let mut words = String::new(rt.alloc());
    write_table(&mut words)?;
    assert_eq!(rt; words.as_str(), TABLE);
    Ok(())
}

fn write_table(words: &mut String) -> Result<(), AllocError> {
    let table = op_table();
    for at in 0..table.len() {
        words.push_str(table.name(at).unwrap_or("none"))?;
        for of in 0..table.field_count(at).unwrap_or(0) {
            write_field(table.field(at, of), words)?;
        }
        words.push_str("; ")?;
    }
    Ok(())
}

fn write_field(field: Option<OpField>, words: &mut String) -> Result<(), AllocError> {
    match field {
        Some(OpField { name, required }) => {
            words.push_str(if required { " " } else { " [" })?;
            words.push_str(name)?;
            words.push_str(if required { "" } else { "]" })
        }
        None => words.push_str(" none"),
    }
}
