//! What `left_right` has two copies of: the view that is shown.

ghost use Rattle.std.specs.Prelude.{◌≡◌, Some, None};
ghost use Rattle.std.specs.Arc.{arc_value};
ghost use Rattle.std.specs.List.{last_or};
ghost use Rattle.ledger_readers.specs.Views.{last_or_else};

use crate::prefix::{Publication, PublishedCount, PublishedPrefix};
use crossbeam_utils::rule::Unruled;
use left_right::Absorb;
use left_right::reader::Reader;
use left_right::writer::Writer;
use std::alloc::AllocError;
use std::sync::Arc;

/// A view, with the list that it ends. The side that readers don't enter may lack the list.
#[derive(Drop)]
pub struct Shown<S: Drop, J: Publication> {
    pub view: Arc<S>,
    pub prefix: Option<PublishedPrefix<S, J>>,
    ghost last: { last_or_else prefix (arc_value view) ≡ Some (arc_value view) },
}

/// A view and the list that it ends, for one reader.
#[derive(Drop)]
pub struct ShownView<S: Drop, J: Publication> {
    pub view: Arc<S>,
    pub prefix: PublishedPrefix<S, J>,
    ghost last: { last_or None prefix ≡ Some (arc_value view) },
}

/// One of the two copies of what is shown.
#[derive(Drop)]
pub struct ReadingSide<S: Drop, J: Publication> {
    pub shown: Shown<S, J>,
    pub count: Arc<PublishedCount<S, J>>,
}

/// Writes both sides.
pub type SideWriter<S, J> = Writer<ReadingSide<S, J>, Arc<S>, (), Unruled>;

/// Enters the side that is shown.
pub type SideReader<S, J> = Reader<ReadingSide<S, J>, (), Unruled>;

impl<S: Drop, J: Publication> Shown<S, J> {
    /// What is shown, for one reader more.
    pub fn share(&self) -> Result<ShownView<S, J>, AllocError> {
        let Some(prefix) = &self.prefix else {
            return Err(AllocError);
        };
        Ok(ShownView {
            view: Arc::try_clone(&self.view)?,
            prefix: prefix.copy(),
        })
    }
}

/// What shows the list that it ends, if it has it.
pub trait Lists {
    type Prefix;

    ghost use Rattle.std.specs.Prelude.{Option};

    ghost listed: { Self → Option Self.Prefix };
}

impl<S: Drop, J: Publication> Lists for ReadingSide<S, J> {
    type Prefix = PublishedPrefix<S, J>;

    ghost listed = { λ side. side.shown.prefix };
}

/// An operation puts a view in the place of the one that is shown.
impl<S: Drop, J: Publication> Absorb<Arc<S>> for ReadingSide<S, J> {
    type State = S;

    ghost state = { λ side. arc_value side.shown.view };

    ghost applied = { λ _ view. arc_value view };

    // The view enters the list here, after all that can fail: nothing takes it out again.
    #[tactic(auto, using(crate::proofs::Prefixes::last_or_snoc))]
    fn absorb_first(
        &mut self,
        operation: &Arc<S>,
        other: &ReadingSide<S, J>,
    ) -> Result<(), AllocError> {
        let view = Arc::try_clone(operation)?;
        let Some(prefix) = &other.shown.prefix else {
            return Err(AllocError);
        };
        let mut prefix = prefix.copy();
        if !prefix.append(&self.count, operation) {
            return Err(AllocError);
        }
        self.shown = Shown {
            view,
            prefix: Some(prefix),
        };
        Ok(())
    }

    fn absorb_second(
        &mut self,
        operation: Arc<S>,
        _other: &ReadingSide<S, J>,
    ) -> Result<(), Arc<S>> {
        self.shown = Shown {
            view: operation,
            prefix: None,
        };
        Ok(())
    }
}
