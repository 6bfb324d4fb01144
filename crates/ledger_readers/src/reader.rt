//! How a reader reads.

ghost use Rattle.std.specs.Prelude.{◌≡◌, ◌⊎◌, IfOk};
ghost use mathlib.Core.List.{IsPrefix};
ghost use Rattle.ledger_readers.specs.Views.{IsAnswerOf};

use crate::lookup::{Lookup, Read};
use crate::prefix::{Publication, PublishedPrefix};
use crate::publisher::Told;
use crate::side::{ShownView, SideReader};
use crossbeam_utils::rule::Unruled;
use std::alloc::AllocError;
use std::marker::Model;

/// A reader. Contracts see it as the longest list that it has read from or learned.
#[derive(Drop)]
pub struct LedgerReader<S: Drop, J: Publication> {
    pub(crate) side: Option<SideReader<S, J>>,
    pub(crate) prefix: PublishedPrefix<S, J>,
}

impl<S: Drop, J: Publication> Model for LedgerReader<S, J> {
    ghost use Rattle.std.specs.Prelude.{List};

    ghost Value = { List S };

    ghost view = { λ reader. reader.prefix };
}

/// What is shown, if it can be had.
fn enter<S: Drop, J: Publication>(
    side: SideReader<S, J>,
) -> (SideReader<S, J>, Result<ShownView<S, J>, AllocError>) {
    match side.enter_as::<Unruled>() {
        Ok(reading) => {
            let shown = reading.get().shown.share();
            (reading.leave(), shown)
        }
        Err(side) => (side, Err(AllocError)),
    }
}

impl<S: Drop, J: Publication> LedgerReader<S, J> {
    /// Takes in what a publisher told. It waits for nobody.
    pub fn learn(&mut self, told: Told<S, J>)
        ensures longer { IsPrefix self.old self.new }
        ensures told { IsPrefix told self.new }
        ensures one { (self.new ≡ self.old) ⊎ (self.new ≡ told) }
    {
        let Told { prefix } = told;
        if self.prefix.is_prefix_of(&prefix) {
            self.prefix = prefix;
        }
    }

    /// What is shown, where it is no less than what this reader knows.
    fn latest(&mut self) -> Result<ShownView<S, J>, AllocError>
        ensures same { self.new ≡ self.old }
        ensures later { IfOk result (λ latest. IsPrefix self.old latest.prefix) }
    {
        let Some(side) = self.side.take() else {
            return Err(AllocError);
        };
        let (side, latest) = enter(side);
        self.side = Some(side);
        let latest = latest?;
        if self.prefix.is_prefix_of(&latest.prefix) {
            Ok(latest)
        } else {
            Err(AllocError)
        }
    }
}

impl<S: Lookup + Drop, J: Publication> LedgerReader<S, J> {
    /// What the last view of some prefix of the published list says of a key, unless memory is refused. That prefix
    /// begins with all that this reader has read from or learned before, and is what it has read from now. It waits for
    /// nobody.
    pub fn read(&mut self, key: &S::Key) -> Result<Read<S::Entry>, AllocError>
        ensures later { IsPrefix self.old self.new }
        ensures answer { IfOk result (λ r. IsAnswerOf S.seq_of S.finds self.new key.now r.number r.seq r.entry) }
    {
        let ShownView { view, prefix } = self.latest()?;
        let number = prefix.len() - 1;
        self.prefix = prefix;
        let entry = view.find(key)?;
        Ok(Read {
            number,
            seq: view.seq(),
            entry,
        })
    }
}
