//! What operations on offers answer.

ghost use Rattle.std.specs.Prelude.{◌≡◌};
ghost use Rattle.op_types.specs.declared.operation_result.OperationResult.TheVariants.{Inner as inner};
ghost use Rattle.op_offers.specs.Operations as spec;

use crate::fault::OfferFault;
use op_form::fault_result;
use op_types::{ManageOfferResult, OperationResult, OperationResultTr};

/// The types of operations on offers.
#[derive(Clone, Copy)]
pub enum Kind {
    /// MANAGE_SELL_OFFER.
    Sell,
    /// CREATE_PASSIVE_SELL_OFFER.
    Passive,
    /// MANAGE_BUY_OFFER.
    Buy,
}

/// What an operation of a type answers.
pub fn answer(kind: Kind, code: ManageOfferResult) -> OperationResult
    ensures { result ≡ inner (spec.answer_of kind code) }
{
    match kind {
        Kind::Sell => OperationResult::Inner(OperationResultTr::ManageSellOffer(code)),
        Kind::Passive => OperationResult::Inner(OperationResultTr::CreatePassiveSellOffer(code)),
        Kind::Buy => OperationResult::Inner(OperationResultTr::ManageBuyOffer(code)),
    }
}

/// The code of a fault that isn't one of the reserve, of too many crossings or of memory.
fn code_of(fault: OfferFault) -> ManageOfferResult
    ensures { result ≡ spec.code_of fault }
{
    match fault {
        OfferFault::Malformed => ManageOfferResult::Malformed,
        OfferFault::NotFound => ManageOfferResult::NotFound,
        OfferFault::SellNoTrust => ManageOfferResult::SellNoTrust,
        OfferFault::SellNotAuthorized => ManageOfferResult::SellNotAuthorized,
        OfferFault::BuyNoTrust => ManageOfferResult::BuyNoTrust,
        OfferFault::BuyNotAuthorized => ManageOfferResult::BuyNotAuthorized,
        OfferFault::LineFull => ManageOfferResult::LineFull,
        OfferFault::NothingToSell | OfferFault::Underfunded => ManageOfferResult::Underfunded,
        OfferFault::CrossSelf => ManageOfferResult::CrossSelf,
        OfferFault::Reserve(_) | OfferFault::TooMany | OfferFault::NoMemory => {
            ManageOfferResult::LowReserve
        }
    }
}

/// What an operation answers that fails.
pub fn fault_answer(kind: Kind, fault: OfferFault) -> OperationResult
    ensures { result ≡ spec.fault_answer (spec.answer_of kind) fault }
{
    match fault {
        OfferFault::TooMany => OperationResult::ExceededWorkLimit,
        OfferFault::Reserve(other) => fault_result(other, answer(kind, code_of(fault))),
        _ => answer(kind, code_of(fault)),
    }
}
