//! The limits, against numbers from outside.

use super::Limits;

/// Each limit, with the number of its table.
const LIMITS: [(u32, u32); 18] = [
    (Limits::TEXT, 1_048_576),
    (Limits::SPANS, 4_096),
    (Limits::WATCHERS, 8),
    (Limits::FILTERS, 8),
    (Limits::DEPTH, 8),
    (Limits::DEPTH_DEFAULT, 4),
    (Limits::NESTED_EDITS, 256),
    (Limits::ANSWER_EDITS, 4),
    (Limits::ANSWER_UNITS, 64),
    (Limits::LINE_BYTES, 131_072),
    (Limits::TRACE_BYTES, 268_435_456),
    (Limits::SETTINGS_BYTES, 1_048_576),
    (Limits::LINE_SPANS, 64),
    (Limits::FACES, 16),
    (Limits::RANGES, 1_024),
    (Limits::METRIC, 65_535),
    (Limits::WIDTH, 16_777_216),
    (Limits::NESTING, 255),
];

#[test]
fn limits_are_the_numbers_of_their_table(rt: HostRuntime) {
    for (limit, number) in &LIMITS {
        assert_eq!(rt; limit, number);
    }
}
