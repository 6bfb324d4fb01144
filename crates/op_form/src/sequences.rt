//! The sequence numbers of accounts that a ledger makes.

ghost use Rattle.std.specs.Prelude.{◌≡◌, ◌<◌};
ghost use Rattle.op_form.specs.Sequences as spec;

use sponsor_rules::Ctx;

/// The sequence number of an account that the closing ledger makes: the number of that ledger, and 32 zero bits.
pub fn first_seq(ctx: &Ctx) -> i64
    requires { ctx.now.seq < spec.last_seq }
    ensures { result ≡ spec.first_seq ctx.now }
{
    (i64::from(ctx.seq) + 1) * 4_294_967_296
}
