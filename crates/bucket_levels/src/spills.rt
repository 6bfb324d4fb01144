//! When levels spill, and what that says of the merge that is pending into one.

ghost use Rattle.std.specs.Prelude.{◌≡◌, ◌≤◌, ◌<◌, ◌^◌};
ghost use Rattle.bucket_levels.specs.Spills as spec;
ghost use Rattle.bucket_levels.specs.Pending as pending;

/// How many ledgers' changes a level, 0 to 9, takes before its curr becomes its snap.
fn half(level: u32) -> u32
    requires { level < 10 }
    ensures half { result ≡ spec.half level }
    ensures some { 1 ≤ result }
    ensures few { result < 2 ^ 31 }
{
    4u32.pow(level + 1) / 2
}

/// Whether a level spills into the one below it at a ledger: the deepest one never does.
pub(crate) fn spills(level: u32, seq: u32) -> bool
    ensures { result ≡ spec.spills level seq }
{
    level < 10 && seq % half(level) == 0
}

/// Whether a step commits the merge into a level and begins the next one.
pub(crate) fn renews(level: u32, seq: u32) -> bool
    ensures { result ≡ pending.renews level seq }
{
    level > 0 && spills(level - 1, seq)
}

/// When the merge began that is pending into a level, 1 to 10, after ledger `seq`.
pub(crate) fn start_of(level: u32, seq: u32) -> u32
    requires low { 1 ≤ level }
    requires high { level ≤ 10 }
    ensures { result ≡ pending.start_of level seq }
{
    seq - seq % half(level - 1)
}

/// Whether a level, 1 to 10, spills as the merge that is pending into it is committed.
pub(crate) fn spills_at_commit(level: u32, seq: u32) -> bool
    requires low { 1 ≤ level }
    requires high { level ≤ 10 }
    ensures { result ≡ spec.spills level (pending.commit_of level seq) }
{
    let commit = start_of(level, seq) as u64 + half(level - 1) as u64;
    level < 10 && commit % half(level) as u64 == 0
}
