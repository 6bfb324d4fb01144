//! The start image that an input begins with.

ghost use Rattle.std.specs.Prelude.{◌≡◌, [], MatchResult};
ghost use Rattle.xdr_core.specs.Format.{IsBytes};
ghost use Rattle.stored_outcome.specs.run_streams.Seen.{seen};
ghost use Rattle.hash_ids.specs.Ids.{network_id_of};
ghost use Rattle.stored_outcome.specs.run_outcome.declared.status.Status.TheVariants as status;
ghost use Rattle.replay.specs.Starting.{Cut, IsUncut, IsBarred, StartsAt, IsJudgedSo};

use hash_ids::network_id;
use outside::Source;
use record_stream::{ImageLength, PieceFault, read_piece, take_image};
use std::alloc::Global;
use stored_outcome::run_outcome::Status;
use worker_merges::ledger_close::{ImageFault, Ledger};
use xdr_core::XdrFault;
use xdr_header::StartImage;

/// A ledger, and how long the image is that it starts from.
#[derive(Drop)]
pub struct Started {
    pub ledger: Ledger,
    /// The length of the image in bytes.
    pub at: usize,
}

/// An image, and how long its encoding is.
#[derive(Drop)]
pub(crate) struct PrefixImage {
    pub(crate) image: StartImage,
    pub(crate) at: usize,
}

/// The end of a run whose input has this fault in its image.
fn bad_image(text: &[u8], fault: XdrFault) -> Status
    ensures fits { IsBytes text.now }
    ensures end { result ≡ status.BadInput fault.at }
{
    Status::BadInput {
        at: fault.at as u128,
    }
}

/// Reads the image at the start of the input. After it other bytes may be ahead.
pub(crate) fn read_image<I: Source>(
    alloc: Global,
    input: &mut I,
    ahead: &mut Vec<u8>,
) -> Result<PrefixImage, Status>
    requires { ahead.old.items ≡ [] }
    ensures { MatchResult result
        (λ prefix. Cut prefix.image prefix.at ahead.new.items (seen I.left I.faults input.old input.new))
        (λ end. IsUncut (seen I.left I.faults input.old input.new) end) }
{
    let at = match read_piece::<ImageLength, I>(input, ahead) {
        Ok(end) => end,
        Err(PieceFault::Xdr(fault)) => {
            return Err(bad_image(ahead.as_slice(), fault));
        }
        Err(PieceFault::Failed) => return Err(Status::ReadFault),
        Err(PieceFault::NoMemory) => return Err(Status::NoMemory),
    };
    let Ok(image) = take_image(alloc, ahead) else {
        return Err(Status::NoMemory);
    };
    Ok(PrefixImage { image, at })
}

/// The ledger of an image on the network with this passphrase, or the end of a run from it.
pub(crate) fn judge(passphrase: &str, image: StartImage) -> Result<Ledger, Status>
    ensures { IsJudgedSo (network_id_of passphrase.now) image result }
{
    let Ok(network) = network_id(passphrase) else {
        return Err(Status::NoMemory);
    };
    match Ledger::from_image(image, network) {
        Ok(ledger) => Ok(ledger),
        Err(ImageFault::BadImage { rule }) => Err(Status::BadImage { rule }),
        Err(ImageFault::NoMemory) => Err(Status::NoMemory),
    }
}

/// The ledger of the image at the start of the input, on the network with this passphrase. After the image other bytes
/// of the input may be ahead. Else it answers the end of the run.
pub fn start<I: Source>(
    alloc: Global,
    passphrase: &str,
    input: &mut I,
    ahead: &mut Vec<u8>,
) -> Result<Started, Status>
    requires { ahead.old.items ≡ [] }
    ensures { MatchResult result
        (λ started. StartsAt passphrase.now started.ledger.state started.at ahead.new.items
        (seen I.left I.faults input.old input.new))
        (λ end. IsBarred passphrase.now (seen I.left I.faults input.old input.new) end) }
{
    let PrefixImage { image, at } = read_image(alloc, input, ahead)?;
    match judge(passphrase, image) {
        Ok(ledger) => Ok(Started { ledger, at }),
        Err(end) => Err(end),
    }
}
