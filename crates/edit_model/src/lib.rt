//! The definitions and laws that every contract cites, in `specs/`, and the plain types that they speak of.
#![tactic(auto)]

mod entries;
mod events;
mod examples;
mod faces;
mod filters;
mod items;
mod kinds;
mod laws;
mod machine_laws;
mod mind_laws;
mod selection_laws;
mod steps;

pub use entries::{LogEntry, Logged};
pub use events::{SpanCallback, SpanChange, SpanEvent, TextEvent};
pub use examples::{attaches_spans, filters_texts, tells_spans};
pub use faces::{AdvanceRange, Face, Metrics};
pub use filters::{Filter, UnitRange};
pub use items::{Item, Planned};
pub use kinds::{EndKind, Kind};
pub use laws::{
    edits_keep_states_well_formed, edits_that_are_not_done_change_nothing,
    ends_stay_where_they_may, filters_keep_places, incoming_spans_are_attached_once,
};
pub use machine_laws::{edits_that_are_not_done_tell_nobody, runs_end};
pub use mind_laws::{answers_are_brief, answers_events, minds_keep_their_numbers};
pub use selection_laws::{
    items_resolve_in_order, regions_come_and_go, selections_stand_where_they_are_set,
};
pub use steps::Step;
