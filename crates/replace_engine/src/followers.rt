//! Followers of a text: they are told of each change.

ghost use Rattle.std.specs.Prelude.{◌≡◌, ◌++◌, [], ◌∷◌, List, IsOk, OnOk};
ghost use Rattle.edit_model.specs.State.{State};
ghost use Rattle.span_changes.specs.Changes.{effect_of};
ghost use Rattle.edit_model.specs.Changed.{Effect};
ghost use Rattle.edit_model.specs.Faces.{Ground, no_ground};
ghost use Rattle.edit_model.specs.Leads.{LeadsTo};

use crate::text::SpannedText;
use edit_base::{NoMemory, Steps};
use span_changes::Change;
use std::sync::ledger::Ledger;

/// Follows the states of a text.
pub trait Follower {
    /// Whether it follows this state.
    ghost follows: { Self → State → Type 0 };

    /// The faces and the width that it was made with, which no call changes.
    ghost layout_ground: { Self → Ground };

    /// Whether these effects, told of in their order, take the first value to the second. One that keeps what it is
    /// told of says here what it keeps.
    ghost takes: { Self → List Effect → Self → Type 0 };

    /// Tells it of a change that leads from a state that it follows to that of `text`, which it follows from then on.
    fn told<L: Ledger>(
        &mut self,
        text: &SpannedText,
        change: &Change,
        steps: &mut Steps<L>,
    ) -> Result<(), NoMemory>
        requires followed { (old : State) × follows self.old old × LeadsTo (effect_of change.now) old text.now.state }
        requires last { effect_of change.now ≡ text.now.effect }
        ensures follows { OnOk result (follows self.new text.now.state) }
        ensures takes { OnOk result (takes self.old (text.now.effect ∷ []) self.new) }
        ensures layout_ground { layout_ground self.new ≡ layout_ground self.old };

    /// No effect takes it to itself.
    ghost takes_none: { (it : Self) → takes it [] it };

    /// Some effects and then others take it where both lists do, one behind the other.
    ghost takes_both: { (first second third : Self) (here there : List Effect)
        → takes first here second → takes second there third → takes first (here ++ there) third };
}

/// A follower that is told and keeps nothing, and so follows every state, and is taken anywhere.
#[derive(Clone, Copy, Debug, PartialEq, Eq)]
pub struct Unfollowed;

impl Follower for Unfollowed {
    ghost follows = { λ _ _. Unit {0} };

    ghost layout_ground = { λ _. no_ground };

    ghost takes = { λ _ _ _. Unit {0} };

    ghost takes_none = { λ _. tt };

    ghost takes_both = { λ _ _ _ _ _ _ _. tt };

    fn told<L: Ledger>(
        &mut self,
        _text: &SpannedText,
        _change: &Change,
        _steps: &mut Steps<L>,
    ) -> Result<(), NoMemory>
        ensures { IsOk result }
    {
        Ok(())
    }
}
