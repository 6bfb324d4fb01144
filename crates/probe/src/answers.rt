//! What operations and changes of sponsorship answer, by the protocol's names and numbers.

use crate::output::Output;
use op_types::{
    AccountMergeResult, Coded, CreateClaimableBalanceResult, OperationResult, OperationResultTr,
};
use sponsor_rules::AddFault;

/// Writes an operation's name and the code of its result.
fn write_code<C: Coded>(output: &mut Output, name: &str, answer: &C) {
    output.word(name);
    output.number(answer.code() as i128);
}

/// Writes what a merge answers: where it succeeds, with the lumens that it moved.
fn write_merge(output: &mut Output, answer: &AccountMergeResult) {
    write_code(output, "account_merge", answer);
    if let AccountMergeResult::Success(moved) = answer {
        output.number(*moved as i128);
    }
}

/// Writes what the creation of a claimable balance answers: where it succeeds, with the balance's id.
fn write_made(output: &mut Output, answer: &CreateClaimableBalanceResult) {
    write_code(output, "create_balance", answer);
    if let CreateClaimableBalanceResult::Success(id) = answer {
        output.bytes(&id.0.0);
    }
}

/// Writes what an operation answers that was run.
fn write_inner(output: &mut Output, answer: &OperationResultTr) {
    match answer {
        OperationResultTr::CreateAccount(answer) => write_code(output, "create_account", answer),
        OperationResultTr::Payment(answer) => write_code(output, "payment", answer),
        OperationResultTr::SetOptions(answer) => write_code(output, "set_options", answer),
        OperationResultTr::AccountMerge(answer) => write_merge(output, answer),
        OperationResultTr::Inflation(answer) => write_code(output, "inflation", answer),
        OperationResultTr::ManageData(answer) => write_code(output, "manage_data", answer),
        OperationResultTr::BumpSequence(answer) => write_code(output, "bump_sequence", answer),
        OperationResultTr::ChangeTrust(answer) => write_code(output, "change_trust", answer),
        other => write_other(output, other),
    }
}

/// The same of claimable balances and sponsorships.
fn write_other(output: &mut Output, answer: &OperationResultTr) {
    match answer {
        OperationResultTr::BeginSponsoringFutureReserves(answer) => {
            write_code(output, "begin_sponsoring", answer)
        }
        OperationResultTr::EndSponsoringFutureReserves(answer) => {
            write_code(output, "end_sponsoring", answer)
        }
        OperationResultTr::RevokeSponsorship(answer) => write_code(output, "revoke", answer),
        OperationResultTr::Clawback(answer) => write_code(output, "clawback", answer),
        OperationResultTr::CreateClaimableBalance(answer) => write_made(output, answer),
        OperationResultTr::ClaimClaimableBalance(answer) => {
            write_code(output, "claim_balance", answer)
        }
        OperationResultTr::ClawbackClaimableBalance(answer) => {
            write_code(output, "clawback_balance", answer)
        }
        _ => output.word("BAD"),
    }
}

/// Writes what an operation answers, if it was applied.
pub fn write_answer(output: &mut Output, answer: &Option<OperationResult>) {
    match answer {
        Some(OperationResult::Inner(answer)) => write_inner(output, answer),
        Some(other) => write_code(output, "operation", other),
        None => output.word("BAD"),
    }
}

/// Writes what a change of sponsorship answers, if it could be made.
pub fn write_change(output: &mut Output, answer: Result<(), AddFault>) {
    output.word(match answer {
        Ok(()) => "done",
        Err(AddFault::TooManySubentries) => "TooManySubentries",
        Err(AddFault::TooManySponsoring) => "TooManySponsoring",
        Err(AddFault::LowReserve) => "LowReserve",
        Err(AddFault::NoMemory) => "BAD",
    });
}
