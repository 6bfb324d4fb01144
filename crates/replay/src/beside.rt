//! How records are closed while workers make merges beside the closing thread.

ghost use Rattle.std.specs.Prelude.{◌≡◌, ◌≤◌, [], All, length};
ghost use denote.Param.Send.{IsSync};
ghost use Rattle.stored_outcome.specs.run_streams.Seen.{seen};
ghost use Rattle.stored_outcome.specs.run_streams.SeenVolume.{seen_volume};
ghost use Rattle.worker_merges.specs.WorkerSlots.{IsManned, HasEnded, IsSideOf, IsSideEndOf};
ghost use Rattle.replay.specs.Stored.{CanGoOn};
ghost use Rattle.replay.specs.Keeping.{DidFollow};
ghost use Rattle.replay.specs.StoredRuns.{RanStored};
ghost use Rattle.replay.specs.Beside as spec;

use crate::closer::{Opened, follow_with};
use crate::crew::Crew;
use crate::stored_run::open;
use merge_board::Room;
use outside::{Gate, Sink, Source, Steps, Volume};
use std::alloc::Global;
use std::sync::Wait;
use std::sync::ledger::Ledger as Count;
use std::thread::{Threads, join_mut};
use stored_outcome::run_outcome::Status;
use worker_merges::ledger_close::Ledger;
use worker_merges::{Side, SideEnd, WorkerSlot, Workshop, adopt, gather, hire, post_due, work_all};

/// The workers of a room, as the closing thread sees them.
#[derive(Drop)]
pub(crate) struct AtWork<'r, R> {
    rt: &'r R,
    room: &'r Room,
    workers: u32,
}

impl<'r, R: Wait> Crew for AtWork<'r, R> {
    type Side = Side;

    ghost has = { λ crew side. IsSideOf crew.room.now crew.workers side };

    fn adopt(&self, side: &mut Side, ledger: &mut Ledger) {
        adopt(self.rt, ledger, self.room, &mut side.collector);
    }

    fn post_due(&self, side: &mut Side, ledger: &mut Ledger) {
        let _back = post_due(self.rt, ledger, self.room, &mut side.board);
    }
}

/// How a run ended, and what is left of the closing thread's side.
#[derive(Drop)]
pub(crate) struct Served {
    end: Status,
    side: SideEnd,
}

/// Posts the merges that are pending, closes the records of the input, and then the board.
fn serve<R: Wait, V: Volume, I: Source, O: Sink, L: Count>(
    rt: &R,
    alloc: Global,
    room: &Room,
    workers: u32,
    side: &mut Option<Side>,
    opened: &mut Opened,
    vol: &mut V,
    input: &mut I,
    out: &mut O,
    steps: &mut Steps<L>,
) -> Served
    requires side { spec.HasSide room.now workers side.old }
    requires open { CanGoOn opened.old.format opened.old.closing.keeper.store V.reports (V.disk vol.old)
        opened.old.closing.ledger.state }
    ensures side { IsSideEndOf room.now workers result.side }
    ensures followed { DidFollow (Unit {0}) opened.old.closing.ledger.state 0 []
        (seen I.left I.faults input.old input.new) (seen O.taken O.faults out.old out.new)
        (seen_volume V.reports V.disk V.faults vol.old vol.new) result.end }
{
    let Some(mut side) = side.take() else {
        unreachable!()
    };
    let crew = AtWork { rt, room, workers };
    crew.post_due(&mut side, &mut opened.closing.ledger);
    let end = follow_with(alloc, &crew, &mut side, opened, vol, input, out, steps);
    Served {
        end,
        side: side.close(rt, room).0,
    }
}

/// The workers run in threads of their own, and the records are closed in this one.
fn serve_beside<R: Threads + Wait + Sync, G: Gate, V: Volume, I: Source, O: Sink, L: Count>(
    rt: &R,
    alloc: Global,
    room: &Room,
    gate: &G,
    workers: u32,
    slots: &mut [WorkerSlot],
    side: &mut Option<Side>,
    opened: &mut Opened,
    vol: &mut V,
    input: &mut I,
    out: &mut O,
    steps: &mut Steps<L>,
) -> Served
    requires manned { All (IsManned room.now) slots.old }
    requires side { spec.HasSide room.now workers side.old }
    requires open { CanGoOn opened.old.format opened.old.closing.keeper.store V.reports (V.disk vol.old)
        opened.old.closing.ledger.state }
    ensures count { length slots.new ≡ length slots.old }
    ensures ended { All (HasEnded room.now) slots.new }
    ensures side { IsSideEndOf room.now workers result.side }
    ensures followed { DidFollow (Unit {0}) opened.old.closing.ledger.state 0 []
        (seen I.left I.faults input.old input.new) (seen O.taken O.faults out.old out.new)
        (seen_volume V.reports V.disk V.faults vol.old vol.new) result.end }
{
    join_mut(
        rt,
        &mut ||
            requires { IsSync R.row × IsSync G.row × All (IsManned room.now) slots.now }
            ensures count { length slots.exit.now ≡ length slots.entry.now }
            ensures ended { All (HasEnded room.entry.now) slots.exit.now }
        { work_all(rt, room, gate, slots) },
        &mut || -> Served
            requires side { spec.HasSide room.now workers side.now }
            requires open { CanGoOn opened.now.format opened.now.closing.keeper.store V.reports (V.disk vol.now)
                opened.now.closing.ledger.state }
            ensures side { IsSideEndOf room.entry.now workers result.side }
            ensures followed { DidFollow (Unit {0}) opened.entry.now.closing.ledger.state 0 []
                (seen I.left I.faults input.entry.now input.exit.now)
                (seen O.taken O.faults out.entry.now out.exit.now)
                (seen_volume V.reports V.disk V.faults vol.entry.now vol.exit.now) result.end }
        {
            serve(
                rt, alloc, room, workers, side, opened, vol, input, out, steps,
            )
        },
    )
    .1
}

/// Closes a ledger for each record of the input while workers make merges. Where memory for them is refused, nothing
/// is read.
fn close_beside<R: Threads + Wait + Sync, G: Gate, V: Volume, I: Source, O: Sink, L: Count>(
    rt: &R,
    alloc: Global,
    gate: &G,
    workers: u32,
    opened: &mut Opened,
    vol: &mut V,
    input: &mut I,
    out: &mut O,
    steps: &mut Steps<L>,
) -> Status
    requires some { 1 ≤ workers }
    requires few { workers ≤ 8 }
    requires open { CanGoOn opened.old.format opened.old.closing.keeper.store V.reports (V.disk vol.old)
        opened.old.closing.ledger.state }
    ensures { DidFollow (Unit {0}) opened.old.closing.ledger.state 0 [] (seen I.left I.faults input.old input.new)
        (seen O.taken O.faults out.old out.new) (seen_volume V.reports V.disk V.faults vol.old vol.new) result }
{
    let Ok(shop) = hire(alloc, workers) else {
        return Status::NoMemory;
    };
    let Workshop {
        room,
        side,
        mut slots,
        ends,
    } = shop;
    let Served { end, side } = serve_beside(
        rt,
        alloc,
        &room,
        gate,
        workers,
        slots.as_mut_slice(),
        &mut Some(side),
        opened,
        vol,
        input,
        out,
        steps,
    );
    // Nobody asks for the account. All parts of the room come back here.
    let _account = room.settle(rt, alloc, side.board, gather(slots, ends), side.collector);
    end
}

/// Mounts a store, closes a ledger for each record of the input, and has it kept, while 1 to 8 workers make merges.
pub(crate) fn run_beside<
    R: Threads + Wait + Sync,
    G: Gate,
    I: Source,
    O: Sink,
    V: Volume,
    L: Count,
>(
    rt: &R,
    alloc: Global,
    gate: &G,
    workers: u32,
    input: &mut I,
    out: &mut O,
    vol: &mut V,
    steps: &mut Steps<L>,
) -> Status
    requires some { 1 ≤ workers }
    requires few { workers ≤ 8 }
    ensures { RanStored (seen I.left I.faults input.old input.new) (seen O.taken O.faults out.old out.new)
        (seen_volume V.reports V.disk V.faults vol.old vol.new) result }
{
    match open(alloc, vol, steps) {
        Ok(mut opened) => {
            close_beside(
                rt,
                alloc,
                gate,
                workers,
                &mut opened,
                vol,
                input,
                out,
                steps,
            )
        }
        Err(end) => end,
    }
}
