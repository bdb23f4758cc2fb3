//! What holds of every watcher: each law is the contract of a function that does nothing.

ghost use Rattle.edit_model.specs.MindExamples.{LoadsMinds, LoadsForTexts, LoadsForSpans, PairsUnits, SwapsUnits, KeepsToLength};
ghost use Rattle.edit_model.specs.MindExamples.{SqueezesSpaces, PaintsUnits, FollowsSpans, SaysAgain};
ghost use Rattle.edit_model.specs.MindLaws.{AnswersBriefly, AnswersSpansBriefly, CountsAndKeeps, StaysBlank, HasNoOthers};

/// An answer has at most four edits, and each of its replacements brings at most 64 units.
pub fn answers_are_brief()
    ensures text { AnswersBriefly }
    ensures spans { AnswersSpansBriefly }
{}

/// A callback changes nothing of a mind but its count of calls and its place. A blank mind stays as it is and answers
/// nothing. A kind behind the last one takes no numbers and answers nothing.
pub fn minds_keep_their_numbers()
    ensures numbers { CountsAndKeeps }
    ensures blank { StaysBlank }
    ensures others { HasNoOthers }
{}

/// Some loads, answers and minds.
pub fn answers_events()
    ensures loads { LoadsMinds }
    ensures loads_for_texts { LoadsForTexts }
    ensures loads_for_spans { LoadsForSpans }
    ensures pair { PairsUnits }
    ensures swap { SwapsUnits }
    ensures limit { KeepsToLength }
    ensures squeeze { SqueezesSpaces }
    ensures paint { PaintsUnits }
    ensures follow { FollowsSpans }
    ensures echo { SaysAgain }
{}
