//! The limits of texts, spans, traces and settings.

/// The limits, as numbers. Where a limit has a least value too, the constant is the greatest.
pub struct Limits;

impl Limits {
    /// UTF-16 units of a text.
    pub const TEXT: u32 = 1_048_576;
    /// Spans attached at one time.
    pub const SPANS: u32 = 4_096;
    /// Watchers loaded.
    pub const WATCHERS: u32 = 8;
    /// Filters of the settings.
    pub const FILTERS: u32 = 8;
    /// The greatest depth of nested edits that the settings may allow.
    pub const DEPTH: u32 = 8;
    /// The depth of nested edits where the settings are silent.
    pub const DEPTH_DEFAULT: u32 = 4;
    /// Nested edits begun in one command.
    pub const NESTED_EDITS: u32 = 256;
    /// Edits of one answer.
    pub const ANSWER_EDITS: u32 = 4;
    /// Units of a text that an answer brings.
    pub const ANSWER_UNITS: u32 = 64;
    /// Bytes of a trace line.
    pub const LINE_BYTES: u32 = 131_072;
    /// Bytes of a trace.
    pub const TRACE_BYTES: u32 = 268_435_456;
    /// Bytes of a settings file.
    pub const SETTINGS_BYTES: u32 = 1_048_576;
    /// Incoming spans of one trace line.
    pub const LINE_SPANS: u32 = 64;
    /// Faces of the settings.
    pub const FACES: u32 = 16;
    /// Ranges of a face, and ranges of an allow filter.
    pub const RANGES: u32 = 1_024;
    /// An advance, an ascent, a descent, a margin, the lines of a float.
    pub const METRIC: u32 = 65_535;
    /// The width of a layout.
    pub const WIDTH: u32 = 16_777_216;
    /// Batch edits that are open within one another.
    pub const NESTING: u32 = 255;
}
