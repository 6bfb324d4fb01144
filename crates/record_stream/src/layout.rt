//! Where the parts of a start image are in its text. No memory is taken for it.

ghost use Rattle.std.specs.Prelude.{◌≡◌, ◌≤◌, ℕ, List, IfOk, IfErr, Err};
ghost use Rattle.xdr_header.specs.Image as image;
ghost use Rattle.record_stream.specs.Layouts as spec;

use xdr_core::{Cursor, XdrFault, XdrKind};

/// A piece of a text.
#[derive(Clone, Copy)]
pub(crate) struct Span {
    pub(crate) start: usize,
    pub(crate) len: usize,
}

/// The piece without bytes at the start of each text.
pub(crate) const NOTHING: Span = Span { start: 0, len: 0 };

/// How many files there are.
const FILES: usize = 22;

/// Where the parts of an image are in the text that it is a prefix of, and where it ends.
#[derive(Clone, Copy)]
pub(crate) struct Layout {
    pub(crate) header: Span,
    pub(crate) files: [Span; FILES],
    pub(crate) end: usize,
}

/// The bytes `SLI1`, as a discriminant.
const MAGIC: i32 = 0x534C4931;

/// The most bytes of a header.
const MAX_HEADER_LEN: u32 = 16777216;

/// The most bytes of the files together.
const MAX_FILES_LEN: u64 = 536870912;

/// Passes by a file of at most `max` bytes after their number.
#[tactic(auto, unfolding(xdr_header::specs::Image::file))]
fn pass_file(max: u64, cursor: &mut Cursor<'_>) -> Result<Span, XdrFault>
    ensures passes { (text : List ℕ) → spec.IsIn text cursor.old
        → IfOk result (λ file. spec.IsPassed text (image.file max) cursor.old cursor.new file) }
    ensures fits { IfOk result (λ file. file.len ≤ max) }
    ensures faults { IfErr result (λ wrong. (image.file max).read cursor.old ≡ Err wrong) }
{
    let mut ahead = cursor.fork();
    let len = ahead.u64()?;
    if len > max {
        return Err(cursor.fault(XdrKind::TooLong));
    }
    let start = ahead.at();
    ahead.bytes(len as usize)?;
    *cursor = ahead;
    Ok(Span {
        start,
        len: len as usize,
    })
}

/// Where the parts of the image at the start of a text are, or the first fault.
pub(crate) fn layout_of(text: &[u8]) -> Result<Layout, XdrFault>
    ensures { spec.IsLaidOut text.now result }
{
    let mut ahead = Cursor::new(text);
    ahead.tag(MAGIC)?;
    let len = ahead.mark(MAX_HEADER_LEN)?.len();
    let header = Span {
        start: ahead.at() - len,
        len,
    };
    let mut files = [NOTHING; FILES];
    let mut room = MAX_FILES_LEN;
    for file in &mut files {
        *file = pass_file(room, &mut ahead)?;
        room -= file.len as u64;
    }
    Ok(Layout {
        header,
        files,
        end: ahead.at(),
    })
}
