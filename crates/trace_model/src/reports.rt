//! What a connection is told of the selection and of the composing region.

/// The places of the selection and of the composing region, in UTF-16 units; -1 where there is none. The selection's
/// start may be the greater of its two.
#[derive(Clone, Copy, Debug, PartialEq, Eq)]
pub struct Report {
    pub sel_start: i64,
    pub sel_end: i64,
    pub start: i64,
    pub end: i64,
}
