//! What the words of the command line ask for.

ghost use Rattle.std.specs.Prelude.{◌≡◌, ◌≤◌, IfSome};
ghost use Rattle.edit_base.specs.declared.bounds.TheConstants.Limits.{TEXT, SPANS};

use crate::commanding::TYPED;
use edit_base::Limits;

/// What is measured.
#[derive(Clone, Copy, Debug, PartialEq, Eq)]
pub enum Kind {
    /// A unit comes at a cursor, which starts in the middle and stands behind it then.
    Cursor,
    /// A unit comes at a place that is drawn for it.
    Anywhere,
    /// The unit before a cursor, which starts in the middle, goes.
    Backspace,
    /// A unit becomes another at the start and at the end, in turn.
    Ends,
    /// All units go, and as many come.
    Clear,
    /// A unit comes at a cursor, as above, where all spans begin.
    Pile,
    /// The spans at a place that is drawn are asked for.
    Query,
    /// The next edge behind a place that is drawn is asked for.
    Edge,
    /// A unit comes within 50 units of the one that came before it, from the middle on.
    Near,
    /// The unit under a POINT_MARK span goes, and the span with it, from the last of them on.
    Emptying,
    /// The 4,096 units in the middle go, with the POINT_MARK spans over each of them.
    Gone,
    /// They go from under POINT_POINT spans, which all move to one place.
    Moved,
    /// A span comes over a unit that is drawn.
    New,
    /// A span goes.
    Removal,
    /// A span that is drawn goes to a unit that is drawn.
    Put,
    /// A command of an editor: a unit comes behind the one that came before it, from the middle on.
    Typed,
    /// The selection goes from one place to another.
    Select,
    /// The same outside of a batch, so that each is reported.
    Report,
    /// The composing text becomes another one.
    Compose,
    /// A unit comes at the selection, from an input method.
    Commit,
    /// The unit before the selection goes.
    Delete,
}

impl Kind {
    /// Whether it is a command of an editor.
    pub fn is_command(&self) -> bool {
        matches!(
            self,
            Kind::Typed | Kind::Select | Kind::Report | Kind::Compose | Kind::Commit | Kind::Delete
        )
    }

    /// To how many texts it is done, one behind the other: to more than one where a text soon has no more spans for it,
    /// or takes no more.
    pub fn texts(&self) -> u32 {
        match self {
            Kind::Emptying | Kind::Gone | Kind::Moved | Kind::New | Kind::Removal => TEXTS,
            _ => 1,
        }
    }
}

/// What is measured: the kind, how many units and spans the text has at first, how many of the spans lie in one another,
/// and how often it is done to a text.
#[derive(Clone, Copy, Debug)]
pub struct Request {
    pub kind: Kind,
    pub length: u32,
    pub spans: u32,
    pub nested: u32,
    pub count: u32,
}

/// What the words ask for, where they are KIND LENGTH SPANS NESTED COUNT and it can be done.
pub fn request_of(words: &[String]) -> Option<Request>
    ensures some { IfSome result (λ request. 1 ≤ request.length) }
    ensures length { IfSome result (λ request. request.length ≤ TEXT) }
    ensures spans { IfSome result (λ request. request.spans ≤ SPANS) }
{
    let [kind, length, spans, nested, count] = words else {
        return None;
    };
    let request = Request {
        kind: kind_of(kind.as_str())?,
        length: length.parse().ok()?,
        spans: spans.parse().ok()?,
        nested: nested.parse().ok()?,
        count: count.parse().ok()?,
    };
    let is_within = 1 <= request.length
        && request.length <= Limits::TEXT
        && request.spans <= Limits::SPANS
        && request.nested <= request.spans;
    if is_within && has_room(&request) {
        Some(request)
    } else {
        None
    }
}

const KINDS: [(&str, Kind); 21] = [
    ("cursor", Kind::Cursor),
    ("anywhere", Kind::Anywhere),
    ("backspace", Kind::Backspace),
    ("ends", Kind::Ends),
    ("clear", Kind::Clear),
    ("pile", Kind::Pile),
    ("query", Kind::Query),
    ("edge", Kind::Edge),
    ("near", Kind::Near),
    ("emptying", Kind::Emptying),
    ("gone", Kind::Gone),
    ("moved", Kind::Moved),
    ("new", Kind::New),
    ("removal", Kind::Removal),
    ("put", Kind::Put),
    ("typed", Kind::Typed),
    ("select", Kind::Select),
    ("report", Kind::Report),
    ("compose", Kind::Compose),
    ("commit", Kind::Commit),
    ("delete", Kind::Delete),
];

/// How many spans a selection and a composing region are.
const KEPT: u32 = 3;

/// How many texts there are where one isn't enough.
const TEXTS: u32 = 16;

/// How many units go at once.
pub const RANGE: u32 = 4_096;

fn kind_of(word: &str) -> Option<Kind> {
    KINDS
        .iter()
        .find(|named| named.0 == word)
        .map(|named| named.1)
}

// Whether the text has room for the units that come, or as many units before the middle, or spans, as go. A cursor takes
// back what it brought once the text is full, so there one unit is enough. A command's text has a selection and may have
// a composing region, which are spans too, and its spans don't lie in one another.
fn has_room(request: &Request) -> bool
    requires length { request.now.length ≤ TEXT }
    requires spans { request.now.spans ≤ SPANS }
{
    let room = Limits::TEXT - request.length;
    if request.kind.is_command() {
        return request.nested == 0
            && request.spans + KEPT <= Limits::SPANS
            && has_room_for_commands(request, room);
    }
    match request.kind {
        Kind::Cursor | Kind::Pile => 0 < room,
        Kind::Anywhere | Kind::Near => request.count <= room,
        Kind::Backspace => request.count <= request.length / 2,
        Kind::Emptying => request.count <= request.spans.saturating_sub(request.nested),
        Kind::Gone | Kind::Moved => request.count <= 1 && RANGE <= request.length / 2,
        Kind::New => request.count <= Limits::SPANS - request.spans,
        Kind::Removal => request.count <= request.spans,
        Kind::Put => request.nested < request.spans,
        _ => true,
    }
}

// Whether it has room for what a command's text gets.
fn has_room_for_commands(request: &Request, room: u32) -> bool {
    match request.kind {
        Kind::Typed | Kind::Commit => request.count <= room,
        Kind::Select | Kind::Report => 2 <= request.length,
        Kind::Compose => 2 <= room,
        _ => request.count <= TYPED && TYPED <= room,
    }
}
