//! Why a line of a trace is no command, and why a settings file has no reading.

use thiserror::Error;

/// The first fault of a line.
#[derive(Clone, Copy, Debug, PartialEq, Eq, Error)]
pub enum TraceFault {
    /// The line has more than 131,072 bytes.
    #[error("line-too-long")]
    LineTooLong,
    /// The bytes are no JSON.
    #[error("json")]
    Json,
    /// The value is no object.
    #[error("not-object")]
    NotObject,
    /// There is no `op`, or it is no string, or the name of no operation.
    #[error("op")]
    Op,
    /// A member is neither `op` nor a field of the operation.
    #[error("field")]
    Field,
    /// A field that has to stand is absent.
    #[error("missing")]
    Missing,
    /// A number field holds no whole number of its form.
    #[error("number")]
    Number,
    /// A text, a what or a list of spans holds another value, or one without a reading.
    #[error("text")]
    Text,
    /// There was no memory to read the line.
    #[error("memory")]
    NoMemory,
}

/// The first fault of a settings file, or of the watchers that it asks for.
#[derive(Clone, Copy, Debug, PartialEq, Eq, Error)]
pub enum SettingsFault {
    /// The bytes are no TOML.
    #[error("toml")]
    Toml,
    /// A key has no meaning, or is absent.
    #[error("key")]
    Key,
    /// A value has another type.
    #[error("value")]
    Value,
    /// A number or a length is outside its limits.
    #[error("limit")]
    Limit,
    /// The ranges of a face overlap or are out of order.
    #[error("face")]
    Face,
    /// A watcher isn't there, or takes other numbers.
    #[error("watcher")]
    Watcher,
    /// There was no memory to read the settings.
    #[error("memory")]
    NoMemory,
}
