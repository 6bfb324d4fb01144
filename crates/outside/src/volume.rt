//! Files that may lose power.

ghost use Rattle.std.specs.Prelude.{◌≡◌, ◌≤◌, ◌<◌, ◌+◌, ◌^◌, ℕ, List, OnOk, IsErr, IfOk, length, take, drop};
ghost use Rattle.outside.specs.Streams.{HasCause};
ghost use Rattle.outside.specs.Disk.{Image, Disk, Runs, Same, Stays, InFile, Torn, Wrote, CutShort, IsSafe};

use crate::failed::Failed;

/// Four files, numbered 0 to 3, that may lose power. Between two syncs a crash may leave any bytes in each range that
/// was written or cut since and after the old end, and any length between the least and the greatest since. Bytes
/// outside those ranges stay. A call that failed counts its range as written.
pub trait Volume {
    // Inhabited where the volume reports its bytes.
    ghost reports: { Type 0 };

    // What is read, what a crash may leave now, and what one might have left since a moment.
    ghost disk: { Self → Disk };

    // How many calls have failed so far. It stops at 2^64 - 1.
    ghost faults: { Self → ℕ };

    /// The length of a file in bytes.
    fn len(&mut self, file: u8) -> Result<u64, Failed>
        requires { file < 4 }
        ensures len { reports → IfOk result (λ n. n ≡ length ((disk self.new).reads file)) }
        ensures stays { Stays (disk self.old) (disk self.new) }
        ensures cause { HasCause (faults self.old) (faults self.new) result };

    /// Reads the bytes from `at` on into the start of `buf`, and answers how many it gave: at least 1 where `buf` isn't
    /// empty.
    fn read_at(&mut self, file: u8, at: u64, buf: &mut [u8]) -> Result<usize, Failed>
        requires file { file < 4 }
        requires within { reports → at + length buf.old ≤ length ((disk self.old).reads file) }
        ensures bytes { reports → IfOk result (λ n. take n buf.new ≡ take n (drop at ((disk self.new).reads file))) }
        ensures most { IfOk result (λ n. n ≤ length buf.new) }
        ensures some { IfOk result (λ n. 0 < length buf.new → 0 < n) }
        ensures stays { Stays (disk self.old) (disk self.new) }
        ensures cause { HasCause (faults self.old) (faults self.new) result };

    /// Writes a piece from `at` on. A write whose end would be above 2^64 - 1 fails and changes nothing.
    fn write_at(&mut self, file: u8, at: u64, piece: &[u8]) -> Result<(), Failed>
        requires { file < 4 }
        ensures written { reports → at ≤ length ((disk self.old).reads file)
            → OnOk result (InFile file (Wrote at piece.now) (disk self.old).reads (disk self.new).reads) }
        ensures runs { Runs (InFile file (Torn at (length piece.now))) (disk self.old) (disk self.new) }
        ensures too_far { 2 ^ 64 ≤ at + length piece.now → IsErr result × Stays (disk self.old) (disk self.new) }
        ensures cause { HasCause (faults self.old) (faults self.new) result };

    /// Cuts a file to `size` bytes.
    fn cut(&mut self, file: u8, size: u64) -> Result<(), Failed>
        requires file { file < 4 }
        requires within { reports → size ≤ length ((disk self.old).reads file) }
        ensures cut { reports → OnOk result (InFile file (λ old new. new ≡ take size old)
            (disk self.old).reads (disk self.new).reads) }
        ensures runs { Runs (InFile file (CutShort size)) (disk self.old) (disk self.new) }
        ensures cause { HasCause (faults self.old) (faults self.new) result };

    /// From `Ok` on a crash leaves what a read gives.
    fn sync(&mut self) -> Result<(), Failed>
        ensures safe { OnOk result (IsSafe (disk self.new)) }
        ensures reads { OnOk result ((disk self.new).reads ≡ (disk self.old).reads) }
        ensures runs { Runs Same (disk self.old) (disk self.new) }
        ensures cause { HasCause (faults self.old) (faults self.new) result };

    // What is read is among what a crash may leave.
    ghost reads_now: { (v : Self) → reports → (disk v).may_leave (disk v).reads };

    // This moment is one of those since an earlier one.
    ghost now_counts: { (v : Self) (t : ℕ) (c : Image) → t ≤ (disk v).moment → (disk v).may_leave c
        → (disk v).left_since t c };

    // Since this moment there is no other.
    ghost only_now: { (v : Self) (c : Image) → (disk v).left_since (disk v).moment c → (disk v).may_leave c };
}

/// Writes a piece from `at` on, and syncs.
pub fn write_and_sync<V: Volume>(vol: &mut V, file: u8, at: u64, piece: &[u8]) -> Result<(), Failed>
    requires { file < 4 }
    ensures written { V.reports → at ≤ length ((V.disk vol.old).reads file)
        → OnOk result (InFile file (Wrote at piece.now) (V.disk vol.old).reads (V.disk vol.new).reads) }
    ensures safe { OnOk result (IsSafe (V.disk vol.new)) }
    ensures runs { Runs (InFile file (Torn at (length piece.now))) (V.disk vol.old) (V.disk vol.new) }
    ensures too_far { 2 ^ 64 ≤ at + length piece.now → IsErr result }
    ensures cause { HasCause (V.faults vol.old) (V.faults vol.new) result }
{
    match vol.write_at(file, at, piece) {
        Err(failed) => Err(failed),
        Ok(()) => vol.sync(),
    }
}
