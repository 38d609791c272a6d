//! What rows say of the CFA.
ghost use Rattle.std.specs.Prelude.{◌≡◌};
ghost use Rattle.framehop_check.specs.Claim.{claim_of_cfa, claim_of_row};

use framehop_cfi::row::UnwindTableRow;
use framehop_cfi::rule::{CfaRule, Register, RegisterRule};
use framehop_cfi::storage::UnwindContextStorage;
use framehop_code::effect::{Base, Code};

/// What a row says of the CFA.
#[derive(Clone, Copy, PartialEq, Eq)]
pub enum Claim {
    /// It is so many bytes above the stack pointer or the frame pointer.
    Above { base: Base, offset: i64 },
    /// It is found in another way, or not at all.
    Other,
}

/// Returns what a row says of the CFA. A row whose return address is undefined, as in the outermost function of a thread,
/// says nothing: no caller is looked for.
pub(crate) fn claim_of_row<C: Code, S: UnwindContextStorage>(row: &UnwindTableRow<S>) -> Claim
    ensures { result ≡ claim_of_row C.numbered C.return_column row.now }
{
    match row.register(Register(C::return_address())) {
        Some(RegisterRule::Undefined) => Claim::Other,
        _ => claim_of_cfa::<C>(*row.cfa()),
    }
}

/// Returns what a rule says of the CFA.
fn claim_of_cfa<C: Code>(cfa: CfaRule) -> Claim
    ensures { result ≡ claim_of_cfa C.numbered cfa }
{
    match cfa {
        CfaRule::RegisterAndOffset { register, offset } => match C::base_of(register.0) {
            Some(base) => Claim::Above { base, offset },
            None => Claim::Other,
        },
        CfaRule::Expression(_) => Claim::Other,
    }
}
