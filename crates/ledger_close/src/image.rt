//! The ledger of a start image, and the image of a ledger.

ghost use Rattle.std.specs.Prelude.{◌≡◌, ◌↔◌, length, map, IfOk, IfErr, IsTrue, List, Ok};
ghost use Rattle.xdr_header.specs.Header.{ledger_header};
ghost use Rattle.xdr_header.specs.Image.{start_image};
ghost use Rattle.bucket_levels.specs.Spills.{level_count};
ghost use Rattle.bucket_levels.specs.Levels.{pair_of};
ghost use Rattle.bucket_levels.specs.Pairs.{Pair};
ghost use Rattle.bucket_levels.specs.Pending.{AreUndrawnAt};
ghost use Rattle.close_rules.specs.Images.{IsJudged};
ghost use Rattle.close_rules.specs.legal_rules.Headers.{IsSupported};
ghost use Rattle.ledger_close.specs.Answers as answer;
ghost use Rattle.ledger_close.specs.ImageFiles.{IsFileFault};
ghost use Rattle.ledger_close.specs.Judging as judging;

use crate::buckets::{copy_files, do_files_fit, read_pairs};
use crate::ledger::Ledger;
use bucket_core::laws::a_file_is_of_one_bucket;
use bucket_levels::{LevelPair, Levels};
use close_laws::images::images_represent_states;
use close_rules::{ImageFault, ImageRule};
use entry_map::{Base, OfferIndex};
use image_rules::{are_fields_in_range, first_broken};
use item_list::ItemList;
use ledger_types::{Hash, LedgerHeader};
use level_entries::{PlacedEntries, level_entries};
use level_pages::{StoredEntries, share_pairs};
use page_cache::LevelCaches;
use std::alloc::{AllocError, Global};
use value_hashes::ledger_hash;
use xdr_core::{Builder, Cursor, ReadFault};
use xdr_header::laws::reading_and_encoding_agree;
use xdr_header::{StartImage, read_ledger_header, write_ledger_header};

/// The fault of an image that breaks a rule.
const fn broken(rule: ImageRule) -> ImageFault
    ensures { result ≡ judging.broken rule }
{
    ImageFault::BadImage { rule }
}

/// The header that bytes encode, if they encode one and no more.
#[tactic(auto, unfolding(close_rules::specs::Images::header_in))]
fn read_header(alloc: Global, bytes: &[u8]) -> Result<LedgerHeader, ImageFault>
    ensures { judging.IsHeaderRead bytes.now result }
{
    reading_and_encoding_agree();
    let mut ahead = Cursor::new(bytes);
    let header = match read_ledger_header(alloc, &mut ahead) {
        Ok(header) => header,
        Err(ReadFault::NoMemory) => return Err(ImageFault::NoMemory),
        Err(ReadFault::Xdr(_)) => return Err(broken(ImageRule::Header)),
    };
    match ahead.end() {
        Ok(()) => Ok(header),
        Err(_) => Err(broken(ImageRule::Header)),
    }
}

/// Whether a ledger may have a version of the protocol.
fn is_supported(version: u32) -> bool
    ensures { IsTrue result ↔ IsSupported version }
{
    18 <= version && version <= 19
}

/// The header of an image, by the first three rules.
fn judge_header(alloc: Global, image: &StartImage) -> Result<LedgerHeader, ImageFault>
    ensures { judging.IsHeaderJudged image.now result }
{
    let header = match read_header(alloc, image.header.as_slice()) {
        Ok(header) => header,
        Err(fault) => return Err(fault),
    };
    if !is_supported(header.ledger_version) {
        return Err(broken(ImageRule::Version));
    }
    if !are_fields_in_range(&header) {
        return Err(broken(ImageRule::Fields));
    }
    Ok(header)
}

/// The files of an image's levels, by the fourth rule.
fn judge_files(alloc: Global, files: ItemList<ItemList<u8>>) -> Result<Vec<LevelPair>, ImageFault>
    ensures ok { IfOk result (λ pairs. judging.DoFilesFit files (map pair_of pairs.items)) }
    ensures bad { IfErr result
        (λ wrong. IsFileFault wrong ((levels : List Pair) → judging.DoFilesFit files levels → ⊥)) }
{
    a_file_is_of_one_bucket();
    if files.len() != 22 {
        return Err(broken(ImageRule::Bucket));
    }
    let pairs = match read_pairs(alloc, files.into_vec()) {
        Ok(pairs) => pairs,
        Err(fault) => return Err(fault),
    };
    if !do_files_fit(pairs.as_slice()) {
        return Err(broken(ImageRule::Bucket));
    }
    Ok(pairs)
}

/// The entries that levels represent, by the rule on marks.
fn judge_marks<'a>(alloc: Global, pairs: &'a [LevelPair]) -> Result<PlacedEntries<'a>, ImageFault>
    requires { length pairs.now ≡ level_count }
    ensures ok { IfOk result (λ entries. judging.Lists (map pair_of pairs.now) entries) }
    ensures bad { IfErr result (λ wrong. judging.IsMarksFault (map pair_of pairs.now) wrong) }
{
    match level_entries(alloc, pairs)? {
        Some(entries) => Ok(entries),
        None => Err(broken(ImageRule::Marks)),
    }
}

/// Whether two hashes are one.
fn is_same_hash(a: &Hash, b: &Hash) -> bool
    ensures { IsTrue result ↔ (a.now ≡ b.now) }
{
    a.0.as_slice() == b.0.as_slice()
}

/// The rules after that one: the hash of the levels, and the rules of entries.
fn judge_entries(
    header: &LedgerHeader,
    levels: &Levels,
    entries: &PlacedEntries<'_>,
) -> Result<(), ImageFault>
    ensures { judging.AreJudged header.now levels.now.pairs entries.now result }
{
    if !is_same_hash(&levels.hash(), &header.bucket_list_hash) {
        return Err(broken(ImageRule::ListHash));
    }
    match first_broken(header, entries)? {
        None => Ok(()),
        Some(rule) => Err(broken(rule)),
    }
}

/// The index of the offers in levels and the number of their entries, by the rules after that of files. Entries are
/// decoded one at a time.
fn judge_levels(
    alloc: Global,
    header: &LedgerHeader,
    levels: &Levels,
    pairs: &[LevelPair],
) -> Result<(OfferIndex, usize), ImageFault>
    requires count { length pairs.now ≡ level_count }
    requires same { map pair_of pairs.now ≡ levels.now.pairs }
    ensures { judging.AreLevelsCounted header.now levels.now.pairs result }
{
    let placed = match judge_marks(alloc, pairs) {
        Ok(placed) => placed,
        Err(fault) => return Err(fault),
    };
    match judge_entries(header, levels, &placed) {
        Ok(()) => {}
        Err(fault) => return Err(fault),
    }
    let offers = placed.offers()?;
    Ok((offers, placed.len()))
}

/// The entries of levels, found in their files, by the rules after that of files.
fn judged_entries(
    alloc: Global,
    header: &LedgerHeader,
    levels: &Levels,
    pairs: Vec<LevelPair>,
) -> Result<StoredEntries, ImageFault>
    requires count { length pairs.items ≡ level_count }
    requires same { map pair_of pairs.items ≡ levels.now.pairs }
    ensures { judging.AreLevelsJudged header.now levels.now.pairs result }
{
    match judge_levels(alloc, header, levels, pairs.as_slice()) {
        Ok((offers, len)) => Ok(StoredEntries::new(pairs, offers, len)),
        Err(fault) => Err(fault),
    }
}

/// The encoding of a header.
fn header_bytes(alloc: Global, header: &LedgerHeader) -> Result<ItemList<u8>, AllocError>
    requires { ledger_header.within header.now }
    ensures { IfOk result (λ bytes. bytes ≡ ledger_header.encoding header.now) }
{
    let mut builder = Builder::new(alloc);
    write_ledger_header(header, &mut builder)?;
    Ok(ItemList::from_vec(builder.finish()))
}

impl Ledger {
    /// The ledger of a start image, on the network with this id; or the first rule that the image breaks. No job of
    /// the merges that are pending is drawn, and none is ready.
    pub fn from_image(image: StartImage, network: Hash) -> Result<Ledger, ImageFault>
        ensures judges { answer.JudgesImage network image result }
        ensures pending { IfOk result (λ ledger. AreUndrawnAt ledger.pending) }
    {
        let alloc = image.header.allocator();
        let header = match judge_header(alloc, &image) {
            Ok(header) => header,
            Err(fault) => return Err(fault),
        };
        let digest = ledger_hash(alloc, &header)?;
        let StartImage { header: _, files } = image;
        let pairs = match judge_files(alloc, files) {
            Ok(pairs) => pairs,
            Err(fault) => return Err(fault),
        };
        let shared = share_pairs(alloc, pairs.as_slice())?;
        let caches = LevelCaches::new(alloc, pairs.as_slice())?;
        let levels = Levels::restart(pairs, header.ledger_seq)?;
        let entries = match judged_entries(alloc, &header, &levels, shared) {
            Ok(entries) => entries,
            Err(fault) => return Err(fault),
        };
        Ok(Ledger {
            network,
            header,
            digest,
            entries,
            levels,
            caches,
        })
    }

    /// The image of the ledger: the one of which `from_image` makes it again, on its network. It copies the header and
    /// the files.
    pub fn image(&self, alloc: Global) -> Result<StartImage, AllocError>
        ensures within { IfOk result (λ image. start_image.within image) }
        ensures judged { IfOk result (λ image. IsJudged self.now.state.network image (Ok self.now.state)) }
    {
        images_represent_states();
        let header = header_bytes(alloc, &self.header)?;
        let files = copy_files(alloc, &self.levels)?;
        Ok(StartImage { header, files })
    }
}
