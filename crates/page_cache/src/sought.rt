//! A key that is looked up in one file after another.

ghost use Rattle.std.specs.Prelude.{IfOk};
ghost use Rattle.page_cache.specs.Sought as spec;

use bucket_core::{encoded_key, fingerprint};
use ledger_types::LedgerKey;
use std::alloc::{AllocError, Global};

/// The text of a key, with its fingerprint.
#[derive(Drop)]
pub(crate) struct SoughtKey {
    pub(crate) text: Vec<u8>,
    pub(crate) fingerprint: u64,
}

/// What a key is looked up by, `None` where it has no encoding.
pub(crate) fn sought_key(alloc: Global, key: &LedgerKey) -> Result<Option<SoughtKey>, AllocError>
    ensures { IfOk result (λ sought. spec.IsSought key.now sought) }
{
    match encoded_key(alloc, key)? {
        None => Ok(None),
        Some(text) => {
            let fingerprint = fingerprint(text.as_slice());
            Ok(Some(SoughtKey { text, fingerprint }))
        }
    }
}
