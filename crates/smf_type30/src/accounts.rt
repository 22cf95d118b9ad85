ghost use Rattle.std.specs.Prelude.{◌≡◌, ◌≤◌, ◌∷◌, ◌++◌, length, drop, is_some, IsNone, IsSome};
ghost use Rattle.std.specs.Prelude.{IfSome, option_copied};
ghost use Rattle.smf_type30.specs.Layout.{triplets_end};
ghost use Rattle.smf_type30.specs.Section.{HasTriplet, offset_of};
ghost use Rattle.smf_type30.specs.Accounts.{fields_in, nth_of, accounts_of, account_of};
ghost use Rattle.smf_type30.specs.AccountWalk.{BeginsWith, BeginsWithNone, EndsBefore, LeavesRest};

use crate::layout::{ACCOUNTING, Section};
use crate::section::{count, offset};

/// The first accounting field of a text, which is a length byte (SMF30ACL) and that many bytes
/// (SMF30ACT), and what follows it: nothing where the text ends before the field does.
pub fn split_account(text: &[u8]) -> Option<(&[u8], &[u8])>
    ensures none { IsNone result → BeginsWithNone text.now }
    ensures some { IfSome result (λ split. BeginsWith text.now split.0.now split.1.now) }
    ensures whole { IfSome result (λ split.
        text.now ≡ length split.0.now ∷ split.0.now ++ split.1.now) }
{
    let (len, rest) = text.split_first()?;
    rest.split_at_checked(*len as usize)
}

/// What follows a number of fields of a text, if they all lie inside it.
fn skip_fields(count: u16, text: &[u8]) -> Option<&[u8]>
    ensures inside { is_some result ≡ is_some (fields_in count text.now) }
    ensures none { IsNone result → EndsBefore count text.now }
    ensures some { IfSome result (λ rest. LeavesRest count text.now rest.now) }
{
    let mut rest = text;
    for _ in 0..count {
        let (_, after) = split_account(rest)?;
        rest = after;
    }
    Some(rest)
}

/// The field after n others, among the given number at the start of a text.
fn nth_field(count: u16, text: &[u8], n: u16) -> Option<&[u8]>
    requires { IsSome (fields_in count text.now) }
    ensures { option_copied result ≡ nth_of (fields_in count text.now) n }
{
    if count <= n {
        return None;
    }
    let (field, _) = split_account(skip_fields(n, text)?)?;
    Some(field)
}

/// A record from a section on that need not have any field: nothing where it begins outside.
pub fn from_section(bytes: &[u8], section: Section) -> &[u8]
    requires triplet { HasTriplet bytes.now section }
    requires no_field { section.least ≡ 0 }
    ensures { result.now ≡ drop (offset_of bytes.now section) bytes.now }
{
    bytes.get(offset(bytes, section)..).unwrap_or_default()
}

/// Whether the accounting fields lie inside the record.
#[tactic(auto, unfolding(crate::specs::Accounts::accounts_of))]
pub fn has_accounts(bytes: &[u8]) -> bool
    requires { triplets_end ≤ length bytes.now }
    ensures { result ≡ is_some (accounts_of bytes.now) }
{
    skip_fields(count(bytes, ACCOUNTING), from_section(bytes, ACCOUNTING)).is_some()
}

/// Accounting field n, the first being 1.
#[tactic(auto, unfolding(crate::specs::Accounts::accounts_of, crate::specs::Accounts::account_of))]
pub fn account(bytes: &[u8], n: u16) -> Option<&[u8]>
    requires long { triplets_end ≤ length bytes.now }
    requires fields { IsSome (accounts_of bytes.now) }
    ensures { option_copied result ≡ account_of bytes.now n }
{
    let others = n.checked_sub(1)?;
    nth_field(
        count(bytes, ACCOUNTING),
        from_section(bytes, ACCOUNTING),
        others,
    )
}
