//! The command `init`, but for the line on standard error.

ghost use Rattle.std.specs.Prelude.{◌≡◌, ◌≢◌, Err, IfOk, MatchResult};
ghost use Rattle.xdr_header.specs.Image.{start_image};
ghost use Rattle.hash_ids.specs.Ids.{network_id_of};
ghost use Rattle.stored_outcome.specs.run_streams.Seen.{seen};
ghost use Rattle.stored_outcome.specs.run_streams.SeenVolume.{seen_volume};
ghost use Rattle.stored_outcome.specs.run_outcome.declared.status.Status.TheVariants as status;
ghost use Rattle.stored_outcome.specs.Init.{InitLeft};
ghost use Rattle.replay.specs.Starting.{IsJudgedSo};
ghost use Rattle.replay.specs.Initing as spec;

use crate::starting::{PrefixImage, judge, read_image};
use hash_ids::network_id;
use image_store::{Store, StoreFault};
use item_list::ItemList;
use ledger_types::Hash;
use outside::{Source, Volume};
use reports::end_input;
use std::alloc::{AllocError, Global};
use stored_outcome::run_outcome::Status;
use xdr_header::StartImage;

/// Reads the input to its end, as an image.
fn read_complete<I: Source>(alloc: Global, input: &mut I) -> Result<StartImage, Status>
    ensures { MatchResult result (λ image. spec.IsInput image (seen I.left I.faults input.old input.new))
        (λ end. spec.IsUnread (seen I.left I.faults input.old input.new) end) }
{
    let mut ahead = Vec::new(alloc);
    let PrefixImage { image, at } = read_image(alloc, input, &mut ahead)?;
    match end_input(at, input, ahead.as_slice()) {
        Ok(()) => Ok(image),
        Err(end) => Err(end),
    }
}

/// Copies of the files of an image.
fn copy_files(alloc: Global, files: &[ItemList<u8>]) -> Result<ItemList<ItemList<u8>>, AllocError>
    ensures { IfOk result (λ copies. copies ≡ files.now) }
{
    let mut copies = ItemList::new(alloc);
    for file in files {
        copies.push(file.copy()?)?;
    }
    Ok(copies)
}

/// A copy of an image.
fn copy_image(alloc: Global, image: &StartImage) -> Result<StartImage, AllocError>
    ensures { IfOk result (λ copy. copy ≡ image.now) }
{
    let header = image.header.copy()?;
    let files = copy_files(alloc, image.files.as_slice())?;
    Ok(StartImage { header, files })
}

/// Sees to it that an image is that of a ledger on the network with this passphrase.
fn check_image(alloc: Global, passphrase: &str, image: &StartImage) -> Result<(), Status>
    ensures { MatchResult result (λ _. spec.IsLedgers (network_id_of passphrase.now) image.now)
        (λ end. IsJudgedSo (network_id_of passphrase.now) image.now (Err end)) }
{
    let Ok(copy) = copy_image(alloc, image) else {
        return Err(Status::NoMemory);
    };
    match judge(passphrase, copy) {
        Ok(_ledger) => Ok(()),
        Err(end) => Err(end),
    }
}

/// Makes a store of an image on a volume that has none.
fn store_image<V: Volume>(alloc: Global, network: Hash, image: &StartImage, vol: &mut V) -> Status
    requires { start_image.within image.now }
    ensures { spec.Storing network image.now (seen_volume V.reports V.disk V.faults vol.old vol.new) result }
{
    match Store::create(alloc, vol, network, image) {
        Ok(_) => Status::Done,
        Err(StoreFault::DiskFault) => Status::DiskFault,
        Err(StoreFault::AlreadyThere) => Status::AlreadyThere,
        Err(StoreFault::NoMemory) => Status::NoMemory,
        Err(_) => unreachable!(),
    }
}

/// Makes a store of an image that is that of a ledger on the network with this passphrase. It is judged before the
/// volume is asked.
fn keep_image<V: Volume>(alloc: Global, passphrase: &str, image: &StartImage, vol: &mut V) -> Status
    requires { start_image.within image.now }
    ensures { spec.Keeps (network_id_of passphrase.now) image.now
        (seen_volume V.reports V.disk V.faults vol.old vol.new) result }
{
    match check_image(alloc, passphrase, image) {
        Ok(()) => {}
        Err(end) => return end,
    }
    let Ok(network) = network_id(passphrase) else {
        return Status::NoMemory;
    };
    store_image(alloc, network, image, vol)
}

/// Makes a store of the image that is the entire input, on the network with this passphrase.
pub(crate) fn make<I: Source, V: Volume>(
    alloc: Global,
    passphrase: &str,
    input: &mut I,
    vol: &mut V,
) -> Status
    ensures made { InitLeft (network_id_of passphrase.now) (seen I.left I.faults input.old input.new)
        (seen_volume V.reports V.disk V.faults vol.old vol.new) result }
    ensures no_write { result ≢ status.WriteFault }
{
    match read_complete(alloc, input) {
        Ok(image) => keep_image(alloc, passphrase, &image, vol),
        Err(end) => end,
    }
}
