//! The list of published views. What threads share of it is a word, its length; a `Seen` is a prefix of it.

ghost use Rattle.std.specs.Prelude.{◌≡◌, ◌+◌, ◌++◌, ◌∷◌, ◌⊎◌, [], length, IsTrue, MatchBool};
ghost use mathlib.Core.List.{IsPrefix};
ghost use Rattle.ledger_readers.specs.Rules.{count_of};

use logbook::{Gain, Offer, Plain, Play, Rule, Seen, Start, Word};
use std::marker::{Brand, Model, PhantomData};

/// The rule of the book that has the list.
pub struct ListRule;

impl<S> Rule<S, u64> for ListRule {
    ghost use Rattle.std.specs.Prelude.{[]};
    ghost use base.Fml.{ftrue};
    ghost use Rattle.ledger_readers.specs.Rules.{IsCounted};

    ghost holds = { λ cells log. IsCounted cells log };

    ghost first = { [] };

    ghost hinted = { λ n log. Unit {0} };

    ghost shows = { λ log. [] };

    ghost keeps = { λ names log. ftrue };

    ghost moves = { λ ask before after answer. Unit {0} };
}

/// Callers trade nothing.
pub struct NoTrade;

impl<S> Gain<S, u64> for NoTrade {
    ghost use base.Fml.{ftrue};

    ghost after = { λ names about answer. ftrue };
}

/// A step that puts a view at the end.
pub struct Append;

impl<S> Play<S, u64> for Append {
    ghost use Rattle.ledger_readers.specs.Rules.{Appends};

    ghost then = { Appends };
}

/// What a step asks for: the view.
impl<S> Plain<S, S, u64> for Append {
    ghost use Rattle.std.specs.Prelude.{None};

    ghost ask = { λ view. view };

    ghost state = { λ view. None };
}

/// Which list it is: a publisher, its readers and what it told are of one publication. Each call of a program picks it,
/// as `EmptyList` says.
pub trait Publication {
    ghost use Rattle.logbook.specs.Pages.{Book};

    ghost book: { Book };
}

impl Publication for Brand {
    ghost book = { record { number = 0; log_name = 0; cells_name = 0 } };
}

/// An empty list, which is of no publication yet. Contracts see it as its book, so that a call of a function over
/// `J: Publication` that takes it, at `Brand`, can pick that book for the publication.
#[derive(Drop)]
pub struct EmptyList<S> {
    count: Word<S, u64, ListRule>,
    seen: Seen<S, u64, ListRule>,
}

impl<S> Model for EmptyList<S> {
    ghost use Rattle.std.specs.Prelude.{◌≡◌, []};
    ghost use Rattle.logbook.specs.Pages.{Book};
    ghost use Rattle.ledger_readers.specs.Rules.{count_of};

    ghost Value = { Book };

    ghost view = { λ list. list.seen.book };

    ghost invariant = { λ list. (list.seen.log ≡ []) × (list.count ≡ count_of list.seen.book) };
}

impl<S> EmptyList<S> {
    pub fn new() -> EmptyList<S> {
        let (seen, mut first, _second) = Seen::open(Start::alone(), 0, 0);
        EmptyList {
            count: Word::tracked(0, &mut first),
            seen,
        }
    }

    /// How many views the list has, and its prefix that has none.
    pub(crate) fn named<J: Publication>(self) -> (PublishedCount<S, J>, PublishedPrefix<S, J>)
        requires { self ≡ J.book }
        ensures { result.1 ≡ [] }
    {
        let EmptyList { count, seen } = self;
        (
            PublishedCount {
                count,
                of: PhantomData,
            },
            PublishedPrefix {
                views: 0,
                seen,
                of: PhantomData,
            },
        )
    }
}

/// How many views the list of a publication has: the word that its threads share.
#[derive(Drop)]
pub struct PublishedCount<S, J: Publication> {
    count: Word<S, u64, ListRule>,
    of: PhantomData<J>,
    ghost count_is: { count ≡ count_of J.book },
}

/// A prefix of the publication's list. Contracts see it as that list.
#[derive(Drop)]
pub struct PublishedPrefix<S, J: Publication> {
    views: u64,
    seen: Seen<S, u64, ListRule>,
    of: PhantomData<J>,
}

impl<S, J: Publication> Model for PublishedPrefix<S, J> {
    ghost use Rattle.std.specs.Prelude.{◌≡◌, List, length};

    ghost Value = { List S };

    ghost view = { λ prefix. prefix.seen.log };

    ghost invariant = { λ prefix. (prefix.views ≡ length prefix.seen.log) × (prefix.seen.book ≡ J.book) };
}

impl<S, J: Publication> PublishedPrefix<S, J> {
    /// How many views it has.
    pub fn len(&self) -> u64
        ensures { result ≡ length self.now }
    {
        self.views
    }

    /// A copy.
    pub fn copy(&self) -> PublishedPrefix<S, J>
        ensures { result ≡ self.now }
    {
        PublishedPrefix {
            views: self.views,
            seen: self.seen.again(),
            of: PhantomData,
        }
    }

    /// Whether the other one begins with this one, which is so unless this one is longer.
    pub fn is_prefix_of(&self, other: &PublishedPrefix<S, J>) -> bool
        ensures { MatchBool result (IsPrefix self.now other.now) (IsPrefix other.now self.now) }
    {
        let mut both = self.seen.again();
        both.learn(&other.seen);
        self.views <= other.views
    }

    /// Puts a view at the end, unless the publication's list is longer than this, and says whether it did.
    pub fn append(&mut self, count: &PublishedCount<S, J>, view: &S) -> bool
        ensures { IsTrue result → self.new ≡ self.old ++ view.now ∷ [] }
    {
        let Some(next) = self.views.checked_add(1) else {
            return false;
        };
        let mut offer: Offer<S, u64, ListRule, NoTrade> = self
            .seen
            .plain::<NoTrade, S, Append>(view);
        let mut pen = self.seen.no_pen();
        let views = self.views;
        let found = count
            .count
            .compare_exchange::<Append, NoTrade>(views, next, &mut self.seen, &mut offer, &mut pen);
        self.views = if found == views { next } else { found };
        found == views
    }
}
