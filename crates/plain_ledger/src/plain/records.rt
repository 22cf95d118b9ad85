//! Records that are submitted to a plain ledger, and one that is asked for by its name.

ghost use Rattle.std.specs.Prelude.{◌≡◌, Ok, Err, if◌then◌else◌};
ghost use Rattle.book_model.specs.Words.{same_bytes};
ghost use Rattle.plain_ledger.specs.Plain.{record_of};

use super::PlainBooks;
use crate::held::HeldRecord;
use book_core::{is_full, name_of, price_in};
use book_model::{Accepted, LedgerFault, Naming};
use smf_type30::Type30;
use std::alloc::Global;

/// What is answered to a record with a name that one has that is held.
fn known_or_clash(held: &HeldRecord, bytes: &[u8]) -> Result<Accepted, LedgerFault>
    ensures { result ≡ (if same_bytes (record_of held.now) bytes.now
        then Ok Accepted.Known else Err LedgerFault.DigestClash) }
{
    if held.bytes.as_slice() == bytes {
        Ok(Accepted::Known)
    } else {
        Err(LedgerFault::DigestClash)
    }
}

impl<N: Naming + Drop> PlainBooks<N> {
    ghost use Rattle.std.specs.Prelude.{◌≡◌, IfOk};
    ghost use Rattle.book_model.specs.Words.{Answers, identity_of, IsUsage, IsUsageRecord};
    ghost use Rattle.book_model.specs.Words.{accept_outcome, record_outcome};
    ghost use Rattle.plain_ledger.specs.PlainBook.{IsPlainCall, book_in, naming_in};

    /// Holds a record from now on where it is new, a tariff is in force on its day, and there is
    /// room for it.
    pub(crate) fn keep_record(&mut self, bytes: &[u8]) -> Result<Accepted, LedgerFault>
        requires { IsUsageRecord bytes.now }
        ensures { IsPlainCall (λ accepted. accepted) self.old self.new result
            (accept_outcome (N.name_of (naming_in self.old)) bytes.now) }
    {
        let usage = Type30::of_usage(bytes);
        if self.cache.has(&usage.identity2(), bytes) {
            return Ok(Accepted::Known);
        }
        self.keep_named(&usage, bytes)
    }

    /// The same, by the record's name.
    fn keep_named(&mut self, usage: &Type30<'_>, bytes: &[u8]) -> Result<Accepted, LedgerFault>
        requires same { usage.now ≡ bytes.now }
        requires usage { IsUsageRecord bytes.now }
        ensures { IsPlainCall (λ accepted. accepted) self.old self.new result
            (accept_outcome (N.name_of (naming_in self.old)) bytes.now) }
    {
        let name = name_of(&self.naming, bytes);
        let count = self.held.len();
        if let Some(held) = self.held.get(&name) {
            return known_or_clash(held, bytes);
        }
        let Some(priced) = price_in(self.rulings.tariffs(), usage) else {
            return Ok(Accepted::Unpriced);
        };
        let amount = priced.amount;
        if is_full(count, self.total, amount) {
            return Err(LedgerFault::Full);
        }
        let alloc = self.alloc;
        let held = HeldRecord::new(alloc, usage, bytes, priced)?;
        let identity = held.identity;
        let record = held.bytes.clone()?;
        self.held.insert(name, held)?;
        self.cache.remember(identity, record);
        self.total += amount;
        Ok(Accepted::Kept)
    }

    /// The record that is held under a name.
    pub(crate) fn record_held(&self, alloc: Global, name: &[u8; 32]) -> Result<Vec<u8>, LedgerFault>
        ensures bytes { Answers (λ bytes. bytes.items) result (record_outcome
            (N.name_of (naming_in self.now)) name.now (book_in self.now)).answer }
        ensures usage { IfOk result (λ bytes. IsUsage bytes.items) }
    {
        let Some(held) = self.held.get(name) else {
            return Err(LedgerFault::NoSuchRecord);
        };
        let bytes = Vec::from_slice(alloc, &held.bytes)?;
        Ok(bytes)
    }
}
