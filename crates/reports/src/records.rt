//! Records after their marks.

ghost use Rattle.std.specs.Prelude.{◌≡◌, ◌≤◌, Ok, length, take};
ghost use Rattle.xdr_core.specs.Format.{IsBytes};
ghost use Rattle.record_stream.specs.Measured.{record_end};
ghost use Rattle.run_outcome.specs.Outcome.{framed};

/// The bytes of a mark.
const MARK_LEN: usize = 4;

/// The bytes of the record after the mark at the start of a text.
pub fn prefix_record(ahead: &[u8], end: usize) -> &[u8]
    requires { record_end ahead.now ≡ Ok end }
    ensures framed { framed result.now ≡ take end ahead.now }
    ensures short { length result.now ≤ 16777216 }
    ensures within { end ≤ length ahead.now }
    ensures fits { IsBytes ahead.now }
{
    let (prefix, _) = ahead.split_at(end);
    prefix.split_at(MARK_LEN).1
}
