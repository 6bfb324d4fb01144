//! How views are published.

ghost use Rattle.std.specs.Prelude.{
  ◌≡◌,
  ◌++◌,
  ◌∷◌,
  [],
  length,
  drop,
  Some,
  IfSome,
  IfOk,
  IfErr,
  OnOk,
  OnErr,
  All,
  IsTrue,
  MatchBool,
};
ghost use Rattle.std.specs.Arc.{arc_value};
ghost use mathlib.Core.List.{IsPrefix};

use crate::prefix::{Publication, PublishedPrefix};
use crate::reader::LedgerReader;
use crate::side::{Lists, ReadingSide, SideWriter};
use core::mem::replace_with;
use crossbeam_utils::rule::Unruled;
use left_right::Absorb;
use left_right::writer::Writer;
use std::alloc::AllocError;
use std::marker::Model;
use std::sync::{Arc, Wait};

/// The right to publish views. It is not `Drop`: end it by `end`.
pub struct PublisherOf<T: Absorb<O> + Lists + Drop, O: Drop> {
    pub(crate) writer: Writer<T, O, (), Unruled>,
    pub(crate) prefix: T::Prefix,
    pub(crate) readers: u32,
    ghost shown: { T.listed writer.desk.shown.value ≡ Some prefix },
    ghost rest: { drop writer.behind writer.log.items ≡ [] },
}

/// The right to publish views.
pub type Publisher<S, J> = PublisherOf<ReadingSide<S, J>, Arc<S>>;

/// What had been published when a publisher told it. Contracts see it as that list.
#[derive(Drop)]
pub struct Told<S, J: Publication> {
    pub(crate) prefix: PublishedPrefix<S, J>,
}

impl<S, J: Publication> Model for Told<S, J> {
    ghost use Rattle.std.specs.Prelude.{List};

    ghost Value = { List S };

    ghost view = { λ told. told.prefix };
}

/// The list of what is shown, if it is this one and one view more.
fn next_prefix<S: Drop, J: Publication>(
    side: &ReadingSide<S, J>,
    prefix: &PublishedPrefix<S, J>,
) -> Option<PublishedPrefix<S, J>>
    ensures shown { IfSome result (λ next. side.now.shown.prefix ≡ Some next) }
    ensures next { IfSome result (λ next. next ≡ prefix.now ++ arc_value side.now.shown.view ∷ []) }
{
    let next = side.shown.prefix.as_ref()?;
    if prefix.len().checked_add(1)? == next.len() && prefix.is_prefix_of(next) {
        Some(next.copy())
    } else {
        None
    }
}

/// Shows a view. Once it was appended nothing can fail.
fn show<S: Drop, J: Publication, R: Wait>(
    rt: &R,
    mut writer: SideWriter<S, J>,
    prefix: &PublishedPrefix<S, J>,
    view: Arc<S>,
) -> (SideWriter<S, J>, Result<PublishedPrefix<S, J>, AllocError>)
    requires shown { writer.desk.shown.value.shown.prefix ≡ Some prefix.now }
    requires rest { drop writer.behind writer.log.items ≡ [] }
    ensures rest { drop result.0.behind result.0.log.items ≡ [] }
    ensures ok { IfOk result.1 (λ next. next ≡ prefix.now ++ arc_value view ∷ []) }
    ensures shown { IfOk result.1 (λ next. result.0.desk.shown.value.shown.prefix ≡ Some next) }
    ensures err { IfErr result.1 (λ _. result.0.desk.shown.value.shown.prefix ≡ Some prefix.now) }
{
    if writer.append(view).is_err() {
        return (writer, Err(AllocError));
    }
    let (writer, shown) = writer.publish_as::<Unruled, R>(rt);
    if shown.is_ok() {
        if let Some(next) = next_prefix(writer.published(), prefix) {
            return (writer, Ok(next));
        }
    }
    // Only a full count of owners of a view comes here.
    for _ in rt.forever() {}
    unreachable!()
}

/// Whether the list begins with what each reader knows.
fn includes_all<S: Drop, J: Publication>(
    prefix: &PublishedPrefix<S, J>,
    readers: &[LedgerReader<S, J>],
) -> bool
    ensures { IsTrue result → All (λ known. IsPrefix known prefix.now) readers.now }
{
    for reader in readers {
        if !reader.prefix.is_prefix_of(prefix) {
            return false;
        }
    }
    true
}

/// Waits for as long as a reader knows more than this list, which none does.
fn await_all<S: Drop, J: Publication, R: Wait>(
    rt: &R,
    prefix: &PublishedPrefix<S, J>,
    readers: &[LedgerReader<S, J>],
)
    ensures { All (λ known. IsPrefix known prefix.now) readers.now }
{
    if includes_all(prefix, readers) {
        return;
    }
    for _ in rt.forever() {}
    unreachable!()
}

impl<S: Drop, J: Publication> PublisherOf<ReadingSide<S, J>, Arc<S>> {
    ghost use Rattle.ledger_readers.specs.Published.{published, reader_count};

    /// Puts a view at the end of the list, unless memory is refused. It waits for readers that are looking at what was
    /// shown before the last view.
    pub fn publish<R: Wait>(&mut self, rt: &R, view: Arc<S>) -> Result<(), AllocError>
        ensures ok { OnOk result (published self.new ≡ published self.old ++ arc_value view ∷ []) }
        ensures err { OnErr result (published self.new ≡ published self.old) }
        ensures readers { reader_count self.new ≡ reader_count self.old }
    {
        let prefix = self.prefix.copy();
        let next = replace_with(&mut self.writer, view, |writer, view| {
            show(rt, writer, &prefix, view)
        });
        self.prefix = next?;
        Ok(())
    }

    /// Tells what was published. It waits for nobody.
    pub fn tell(&self) -> Told<S, J>
        ensures { result ≡ published self.now }
    {
        Told {
            prefix: self.prefix.copy(),
        }
    }

    /// Whether the list begins with what a reader knows, and else the reader knows more than the list. It waits for
    /// nobody.
    pub fn includes(&self, reader: &LedgerReader<S, J>) -> bool
        ensures { MatchBool result (IsPrefix reader.now (published self.now))
            (IsPrefix (published self.now) reader.now) }
    {
        reader.prefix.is_prefix_of(&self.prefix)
    }

    /// Ends the publisher and all its readers. What each of them knows is a prefix of the list. It takes no memory, and
    /// may wait for readers.
    pub fn end<R: Wait>(self, rt: &R, readers: Vec<LedgerReader<S, J>>)
        requires { length readers.items ≡ reader_count self }
        ensures { All (λ known. IsPrefix known (published self)) readers.items }
    {
        let PublisherOf {
            writer,
            prefix,
            readers: _,
        } = self;
        await_all(rt, &prefix, readers.as_slice());
        drop(readers);
        drop(writer.take(rt));
    }
}
