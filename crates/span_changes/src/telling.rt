//! What an edit changed, told in lists that are used again.

ghost use Rattle.std.specs.Prelude.{◌≡◌, ◌≤◌, ◌+◌, [], length, vec_capacity, OnOk, IsOk};
ghost use Rattle.moved_rows.specs.Moves.{IsStill};
ghost use Rattle.span_changes.specs.Rows.{HasRoom, KeepsRoom};

use crate::changes::Change;
use crate::room::make_room;
use edit_base::{NoMemory, SpanRow};

impl Change {
    /// A change of these numbers that tells of no span that went or came yet.
    pub fn start(&mut self, start: u32, old_end: u32, grown: u32)
        ensures start { self.new.start ≡ start }
        ensures old_end { self.new.old_end ≡ old_end }
        ensures grown { self.new.grown ≡ grown }
        ensures removed { self.new.removed.items ≡ [] }
        ensures added { self.new.added.items ≡ [] }
        ensures moved { self.new.moved ≡ self.old.moved }
        ensures room { KeepsRoom self.old self.new }
    {
        self.start = start;
        self.old_end = old_end;
        self.grown = grown;
        self.removed.clear();
        self.added.clear();
    }

    /// Room for so many rows more, and for telling of all rows. Where there is room already it asks for no memory, and
    /// without memory nothing changes but the room.
    pub fn reserve(&mut self, more: u32, touched: &mut Vec<SpanRow>) -> Result<(), NoMemory>
        ensures ok { OnOk result
            (HasRoom (length self.old.moved.rows.kept + more) (vec_capacity touched.new) self.new) }
        ensures spare { OnOk result (more ≤ self.new.moved.rows.spare) }
        ensures start { self.new.start ≡ self.old.start }
        ensures old_end { self.new.old_end ≡ self.old.old_end }
        ensures grown { self.new.grown ≡ self.old.grown }
        ensures removed { self.new.removed.items ≡ self.old.removed.items }
        ensures added { self.new.added.items ≡ self.old.added.items }
        ensures rows { self.new.moved.rows.kept ≡ self.old.moved.rows.kept }
        ensures still { IsStill self.old.moved self.new.moved }
        ensures grows { self.old.moved.rows.spare ≤ self.new.moved.rows.spare }
        ensures touched { vec_capacity touched.old ≤ vec_capacity touched.new }
        ensures room { KeepsRoom self.old self.new }
        ensures within { more ≤ self.old.moved.rows.spare
            → HasRoom (length self.old.moved.rows.kept + more) (vec_capacity touched.old) self.old → IsOk result }
    {
        let count = self.moved.rows().rows().count() as usize + more as usize;
        make_room(touched, count)?;
        make_room(&mut self.removed, count)?;
        make_room(&mut self.added, count)?;
        self.moved.reserve(more)
    }
}
