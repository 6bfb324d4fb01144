//! The lines of the answer to a query for the cheapest path.

ghost use Rattle.std.specs.Prelude.{◌≡◌, ◌++◌, OnOk, IfOk};
ghost use Rattle.std.specs.List.{flat_map};
ghost use Rattle.hex.specs.Hex.{encode_lower};
ghost use Rattle.xdr_entries.specs.Basic as encoding;
ghost use Rattle.run_outcome.specs.PathRun as spec;
ghost use Rattle.run_outcome.specs.Lines.{spaced};

use crate::pieces::{push_signed_word, push_word};
use crate::refused::push_numbered;
use ledger_types::Asset;
use path_finder::{Found, PathFault};
use std::alloc::{AllocError, Global};
use xdr_core::Builder;
use xdr_entries::write_asset;

/// Puts the line of the cost at the end of a text.
#[tactic(auto, unfolding(run_outcome::specs::PathRun::cost_line))]
fn push_cost_line(alloc: Global, text: &mut Vec<u8>, found: &Found) -> Result<(), AllocError>
    ensures { OnOk result (text.new.items ≡ text.old.items ++ spec.cost_line found.now) }
{
    text.extend_from_slice(b"cost")?;
    push_signed_word(alloc, text, found.cost)?;
    text.push(b'\n')?;
    Ok(())
}

/// Puts the hexadecimal digits of an asset's encoding at the end of a text, after a space.
#[tactic(auto, using(xdr_core::proofs::FormatLaws::written, xdr_entries::proofs::BasicLaws::asset_laws))]
fn push_asset_word(alloc: Global, text: &mut Vec<u8>, asset: &Asset) -> Result<(), AllocError>
    ensures { OnOk result (text.new.items
        ≡ text.old.items ++ spaced (encode_lower (encoding.asset.encoding asset.now))) }
{
    let mut builder = Builder::new(alloc);
    write_asset(asset, &mut builder)?;
    let digits = hex::encode(alloc, builder.as_slice())?;
    push_word(text, digits.as_bytes())
}

/// Puts the line of an asset on the way at the end of a text.
#[tactic(auto, unfolding(run_outcome::specs::PathRun::via_line))]
fn push_via_line(alloc: Global, text: &mut Vec<u8>, via: &Asset) -> Result<(), AllocError>
    ensures { OnOk result (text.new.items ≡ text.old.items ++ spec.via_line via.now) }
{
    text.extend_from_slice(b"via")?;
    push_asset_word(alloc, text, via)?;
    text.push(b'\n')?;
    Ok(())
}

/// Puts the lines of the assets of a path at the end of a text.
fn push_via_lines(alloc: Global, text: &mut Vec<u8>, path: &[Asset]) -> Result<(), AllocError>
    ensures { OnOk result (text.new.items ≡ text.old.items ++ flat_map spec.via_line path.now) }
{
    for via in path {
        push_via_line(alloc, text, via)?;
    }
    Ok(())
}

/// The lines of the cheapest path, its cost and the assets on the way, or that there is none.
#[tactic(auto, unfolding(run_outcome::specs::PathRun::path_lines))]
pub fn path_text(alloc: Global, found: &Option<Found>) -> Result<Vec<u8>, AllocError>
    ensures { IfOk result (λ text. text.items ≡ spec.path_lines found.now) }
{
    let Some(found) = found else {
        return b"none\n".to_vec(alloc);
    };
    let mut text = Vec::new(alloc);
    push_cost_line(alloc, &mut text, found)?;
    push_via_lines(alloc, &mut text, found.path.as_slice())?;
    Ok(text)
}

/// Puts why a query isn't answered at the end of a text, after a space.
#[tactic(auto, unfolding(run_outcome::specs::PathRun::path_fault_text))]
fn push_path_fault(alloc: Global, text: &mut Vec<u8>, fault: PathFault) -> Result<(), AllocError>
    ensures { OnOk result (text.new.items ≡ text.old.items ++ spaced (spec.path_fault_text fault)) }
{
    match fault {
        PathFault::BadQuery { index } => {
            push_numbered(alloc, text, b"BadQuery", u128::from(index))
        }
        PathFault::TooMany { given } => push_numbered(alloc, text, b"TooMany", u128::from(given)),
        PathFault::NoMemory => push_word(text, b""),
    }
}

/// The line of a query that isn't answered.
#[tactic(auto, unfolding(run_outcome::specs::PathRun::unanswered_line))]
pub fn unanswered_text(alloc: Global, fault: PathFault) -> Result<Vec<u8>, AllocError>
    ensures { IfOk result (λ text. text.items ≡ spec.unanswered_line fault) }
{
    let mut text = b"refused".to_vec(alloc)?;
    push_path_fault(alloc, &mut text, fault)?;
    text.push(b'\n')?;
    Ok(text)
}
