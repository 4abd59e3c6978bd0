//! The rule that the words, the slots and the views keep between any two steps, and what each kind of step does.

ghost use Rattle.position_words.specs.declared.view.Aim.TheVariants.{Fold, Read};
ghost use Rattle.position_words.specs.Steps.{StepLooks, StepTakesFor, StepGives};
ghost use Rattle.position_words.specs.View.{after_split, newcomer_view, after_join, spent_view};

use crate::view::View;
use atomic_table::{Join, Play, Split, TableRule};
use shard_state::ShardState;
use std::snapshot::Snapshot;

/// The rule. Its key has the states of the shards at the start.
pub struct SlotRule;

impl TableRule<Option<ShardState>, View, Snapshot<Vec<ShardState>>> for SlotRule {
    ghost use Rattle.position_words.specs.Rule.{IsKept};
    ghost use Rattle.position_words.specs.View.{first_view};

    ghost holds = { λ key. IsKept key.value.items };

    ghost first = { λ key. first_view key.value.items };
}

// A load of a word.
pub(crate) struct Looking;

impl Play<Option<ShardState>, View> for Looking {
    ghost then = { StepLooks };
}

// A take to fold, which wins or loses.
pub(crate) struct TakingToFold;

impl Play<Option<ShardState>, View> for TakingToFold {
    ghost then = { StepTakesFor Fold };
}

// A take to read, which wins or loses.
pub(crate) struct TakingToRead;

impl Play<Option<ShardState>, View> for TakingToRead {
    ghost then = { StepTakesFor Read };
}

// The store that gives a shard back.
pub(crate) struct Giving;

impl Play<Option<ShardState>, View> for Giving {
    ghost then = { StepGives };
}

// A new seat, which has seen the same positions.
pub(crate) struct SplittingOff;

impl Split<View> for SplittingOff {
    ghost left = { after_split };

    ghost right = { newcomer_view };
}

// A seat that has seen what both had.
pub(crate) struct Joining;

impl Join<View> for Joining {
    ghost both = { after_join };

    ghost spent = { spent_view };
}
