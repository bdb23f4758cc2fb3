//! The table of moves.

ghost use Rattle.std.specs.Prelude.{◌≡◌, ◌<◌, [], slice_index_or};
ghost use Rattle.span_flags.specs.Moves.{IsEndTable, IsEndTableMove, PullsAlone, PullsWhere, row_of};
ghost use Rattle.span_flags.specs.Places.{column_of};

use crate::places::PlaceClass;
use edit_model::EndKind;
use std::marker::Model;

/// Where an end x of a span goes when the range from s to e becomes n units.
#[derive(Clone, Copy, Debug, PartialEq, Eq)]
pub enum Move {
    /// To x.
    Stay,
    /// To s.
    ToStart,
    /// To s + n.
    ToGrownEnd,
    /// To x - (e - s) + n.
    Shift,
    /// Shifted from the least place behind e that has `\n` right before it, or from the text's end.
    Pull,
}

/// One move for each kind of end and each class of place.
#[derive(Clone, Copy)]
pub struct MoveTable<const ENDS: usize, const PLACES: usize> {
    rows: [[Move; PLACES]; ENDS],
}

impl<const ENDS: usize, const PLACES: usize> Model for MoveTable<ENDS, PLACES> {
    ghost use Rattle.std.specs.Prelude.{List};
    ghost use Rattle.span_flags.specs.declared.moves.Move.{Move};

    ghost Value = { List (List Move) };

    ghost view = { λ table. table.rows };

    ghost inverse = { λ rows. record { rows = rows } };
}

impl<const ENDS: usize, const PLACES: usize> MoveTable<ENDS, PLACES> {
    /// The move in the row `end` and the column `place`.
    pub fn at(&self, end: usize, place: usize) -> Move
        requires row { end < ENDS }
        requires column { place < PLACES }
        ensures { result ≡ slice_index_or (slice_index_or self.now end []) place Move.Stay }
    {
        self.rows[end][place]
    }
}

// A table, row by row, each behind the name of its end kind.
macro_rules! table {
    ($($end:ident: $($cell:ident)+;)+) => {
        MoveTable { rows: [$([$(Move::$cell),+]),+] }
    };
}

/// The table of every move, with a row for each `EndKind` and a column for each `PlaceClass`.
pub fn move_table() -> MoveTable<3, 7>
    ensures moves { IsEndTable result }
    ensures pulls { PullsWhere result }
{
    table! {
        // Before, AtStart, Inside, AtEnd, Behind, Point, PointAtTextEnd
        Mark: Stay ToStart ToStart ToGrownEnd Shift Stay Stay;
        Point: Stay ToStart ToGrownEnd ToGrownEnd Shift ToGrownEnd ToGrownEnd;
        Paragraph: Stay ToStart Pull Pull Shift Stay ToGrownEnd;
    }
}

/// How an end of this kind at this place moves when `cut` units become `grown` units. Neither number decides which
/// move it is: they are part of what a move means.
pub fn moved(end_kind: EndKind, place: PlaceClass, cut: u32, grown: u32) -> Move
    ensures moves { IsEndTableMove end_kind place cut grown result }
    ensures pulls { PullsAlone end_kind place result }
{
    move_table().at(row(end_kind), column(place))
}

fn row(end_kind: EndKind) -> usize
    ensures number { result ≡ row_of end_kind }
    ensures within { result < 3 }
{
    end_kind as usize
}

fn column(place: PlaceClass) -> usize
    ensures number { result ≡ column_of place }
    ensures within { result < 7 }
{
    place as usize
}
