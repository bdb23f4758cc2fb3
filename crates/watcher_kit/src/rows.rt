//! Which kind each type of watcher is of: the contract of a function that does nothing.

ghost use Rattle.edit_model.specs.Minds.{note, pair, swap, limit, squeeze, paint, follow, echo};
ghost use Rattle.watcher_kit.specs.Rows.{IsOfKind};
ghost use Rattle.watcher_kit.specs.declared.watching.Watching.{Watching};
ghost use Rattle.watcher_kit.specs.declared.note.NoteKind.{NoteKind};
ghost use Rattle.watcher_kit.specs.declared.pair.PairKind.{PairKind};
ghost use Rattle.watcher_kit.specs.declared.swap.SwapKind.{SwapKind};
ghost use Rattle.watcher_kit.specs.declared.limit.LimitKind.{LimitKind};
ghost use Rattle.watcher_kit.specs.declared.squeeze.SqueezeKind.{SqueezeKind};
ghost use Rattle.watcher_kit.specs.declared.paint.PaintKind.{PaintKind};
ghost use Rattle.watcher_kit.specs.declared.follow.FollowKind.{FollowKind};
ghost use Rattle.watcher_kit.specs.declared.echo.EchoKind.{EchoKind};

use crate::echo::Echo;
use crate::follow::Follow;
use crate::limit::Limit;
use crate::note::Note;
use crate::paint::Paint;
use crate::pair::Pair;
use crate::squeeze::Squeeze;
use crate::swap::Swap;
use watcher_api::Watcher;

/// A watcher, blank or loaded, is of the kind that its type is called after: it has that kind's number, whose row of the
/// table of kinds has that kind's rules.
pub fn types_are_of_their_kinds()
    ensures note { (it : Watching NoteKind) → IsOfKind 0 note (⟦<Note as Watcher>⟧.mind it) }
    ensures pair { (it : Watching PairKind) → IsOfKind 1 pair (⟦<Pair as Watcher>⟧.mind it) }
    ensures swap { (it : Watching SwapKind) → IsOfKind 2 swap (⟦<Swap as Watcher>⟧.mind it) }
    ensures limit { (it : Watching LimitKind) → IsOfKind 3 limit (⟦<Limit as Watcher>⟧.mind it) }
    ensures squeeze { (it : Watching SqueezeKind) → IsOfKind 4 squeeze (⟦<Squeeze as Watcher>⟧.mind it) }
    ensures paint { (it : Watching PaintKind) → IsOfKind 5 paint (⟦<Paint as Watcher>⟧.mind it) }
    ensures follow { (it : Watching FollowKind) → IsOfKind 6 follow (⟦<Follow as Watcher>⟧.mind it) }
    ensures echo { (it : Watching EchoKind) → IsOfKind 7 echo (⟦<Echo as Watcher>⟧.mind it) }
{}
