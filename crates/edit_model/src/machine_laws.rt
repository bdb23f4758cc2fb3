//! What the agenda machine means: each law is the contract of a function that does nothing.

ghost use Rattle.edit_model.specs.MachineLaws.{EveryRunEnds, ComesToItsOutcome, ComeToTheirOutcomes, EndsOnce, OthersEndAtOnce, NestedOnlyLog};

/// The run of an item ends, whatever the watchers answer, and in one way, which is its outcome. The items of a command
/// come to theirs one behind the other.
pub fn runs_end()
    ensures ends { EveryRunEnds }
    ensures outcome { ComesToItsOutcome }
    ensures outcomes { ComeToTheirOutcomes }
    ensures once { EndsOnce }
{}

/// An edit that isn't done leaves text, spans and minds, and makes no callback.
pub fn edits_that_are_not_done_tell_nobody()
    ensures commands { OthersEndAtOnce }
    ensures nested { NestedOnlyLog }
{}
