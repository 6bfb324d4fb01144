//! How merges that workers have finished are handed in.

ghost use Rattle.std.specs.Prelude.{◌≡◌, ◌+◌};
ghost use Rattle.merge_board.specs.Parts.{IsCollectorIn, collector_parts, collected_by, empty_looks_of};
ghost use Rattle.worker_merges.specs.Adopting.{IsHandedIn, Adopts};

use bucket_merge::MergeOut;
use ledger_close::Ledger;
use merge_board::{Collector, Room};
use std::sync::Wait;

/// Hands in an outcome. One that is refused is dropped.
fn hand_in(ledger: &mut Ledger, out: MergeOut)
    ensures state { ledger.new.state ≡ ledger.old.state }
    ensures caches { ledger.new.caches ≡ ledger.old.caches }
    ensures handed_in { IsHandedIn out ledger.old ledger.new }
{
    let _refused = ledger.hand_in(out);
}

/// Hands in each outcome that waits, in their order, until none waits. One that is refused is dropped. It takes no
/// memory.
pub fn adopt<R: Wait>(rt: &R, ledger: &mut Ledger, room: &Room, collector: &mut Collector)
    requires { IsCollectorIn room.now collector.old }
    ensures room { IsCollectorIn room.now collector.new }
    ensures parts { collector_parts collector.new ≡ collector_parts collector.old }
    ensures state { ledger.new.state ≡ ledger.old.state }
    ensures caches { ledger.new.caches ≡ ledger.old.caches }
    ensures adopts { Adopts (collected_by collector.old) (collected_by collector.new) ledger.old ledger.new }
    ensures looked { empty_looks_of collector.new ≡ empty_looks_of collector.old + 1 }
{
    for _ in rt.forever() {
        match collector.take(rt, room) {
            Some(posted) => hand_in(ledger, posted.into_out()),
            None => return,
        }
    }
    unreachable!()
}
