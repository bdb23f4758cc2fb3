//! What lines are cut into, and what is read and planned of them: each law is the contract of a function that does nothing.

ghost use Rattle.trace_model.specs.TraceLaws.{CutsAtNewlines, LeavesOneOpen, ReadsFittingCommands, PlansFittingItems, CountsWithin};

/// The lines of a trace hold no `\n`, and with `\n` behind each they are the trace; one `\n` more only where the trace
/// ends in a line without it. Of a trace over its limit the lines that are ended, each with its `\n`, and the open line
/// behind them are the bytes that were read.
pub fn lines_are_cut_at_newlines()
    ensures whole { CutsAtNewlines }
    ensures over_limit { LeavesOneOpen }
{}

/// A command that was read brings no more than a replacement may.
pub fn commands_bring_what_fits()
    ensures { ReadsFittingCommands }
{}

/// The items of a command bring no more than a replacement may. Counted characters end in the text.
pub fn connections_ask_for_what_fits()
    ensures items { PlansFittingItems }
    ensures counts { CountsWithin }
{}
