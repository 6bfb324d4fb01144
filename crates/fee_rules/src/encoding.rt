//! The encodings of a set's envelopes, and what their hashes say of when they go.

ghost use Rattle.std.specs.Prelude.{◌≡◌, ◌<◌, ◌^◌, ◌++◌, ◌∷◌, [], All, IfOk, OnOk, length, map};
ghost use Rattle.xdr_tx.specs.Transactions.{transaction_envelope};
ghost use Rattle.fee_rules.specs.Queues as queues;
ghost use Rattle.fee_rules.specs.Encodings as spec;

use crate::queued::{Queued, queued_at};
use op_types::TransactionEnvelope;
use std::alloc::{AllocError, Global};
use xdr_core::Builder;
use xdr_tx::write_transaction_envelope;

/// Envelopes in the queues of their sources, beside their encodings, both in the order of the set's list.
#[derive(Drop)]
pub(crate) struct Encoded {
    pub texts: Vec<Vec<u8>>,
    pub queued: Vec<Queued>,
}

/// The encoding of an envelope.
fn encoding(alloc: Global, envelope: &TransactionEnvelope) -> Result<Vec<u8>, AllocError>
    requires { transaction_envelope.within envelope.now }
    ensures { IfOk result (λ text. text.items ≡ transaction_envelope.encoding envelope.now) }
{
    let mut builder = Builder::new(alloc);
    write_transaction_envelope(envelope, &mut builder)?;
    Ok(builder.finish())
}

/// Encodes one envelope more, at an index of the set's list.
fn encode_next(
    alloc: Global,
    index: u32,
    envelope: &TransactionEnvelope,
    encoded: &mut Encoded,
) -> Result<(), AllocError>
    requires { transaction_envelope.within envelope.now }
    ensures texts { OnOk result (spec.texts_of encoded.new
        ≡ spec.texts_of encoded.old ++ transaction_envelope.encoding envelope.now ∷ []) }
    ensures queued { OnOk result (
        encoded.new.queued.items ≡ encoded.old.queued.items ++ queues.queued_of index envelope.now ∷ []) }
{
    let text = encoding(alloc, envelope)?;
    encoded
        .queued
        .push(queued_at(index, envelope, text.as_slice())?)?;
    encoded.texts.push(text)?;
    Ok(())
}

/// Encodes the envelopes of a list, each once.
pub(crate) fn encode_all(
    alloc: Global,
    envelopes: &[TransactionEnvelope],
) -> Result<Encoded, AllocError>
    requires within { All (λ envelope. transaction_envelope.within envelope) envelopes.now }
    requires few { length envelopes.now < 2 ^ 32 }
    ensures texts { IfOk result (λ encoded.
        spec.texts_of encoded ≡ map (λ envelope. transaction_envelope.encoding envelope) envelopes.now) }
    ensures queued { IfOk result (λ encoded. encoded.queued.items ≡ queues.all_queued envelopes.now) }
{
    let mut encoded = Encoded {
        texts: Vec::new(alloc),
        queued: Vec::new(alloc),
    };
    for (index, envelope) in envelopes.iter().enumerate() {
        encode_next(alloc, index as u32, envelope, &mut encoded)?;
    }
    Ok(encoded)
}
