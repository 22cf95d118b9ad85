//! A tariff file as a bill takes it: its tariff, and what it says of the office. Its document is
//! read once for both.

ghost use Rattle.std.specs.Prelude.{◌≡◌, IfOk};
ghost use Rattle.toml.specs.View.{table_view};
ghost use Rattle.tariff_rules.specs.Headed as spec;
ghost use Rattle.tariff_rules.specs.Letterhead.{letterhead_in, letterhead_of, letterhead_shown};

use crate::fault::TariffFault;
use crate::letterhead::Letterhead;
use crate::tariff::{Tariff, document_in};
use std::alloc::{AllocError, Global};
use toml::Table;

/// A tariff under its letterhead.
#[derive(Drop)]
pub struct HeadedTariff {
    /// The tariff, `None` where the file has a fault.
    pub tariff: Option<Tariff>,
    /// What stands in the head of a bill by it.
    pub letterhead: Letterhead,
}

/// The tariff of a document, if it has no fault.
fn tariff_of(alloc: Global, document: &Table) -> Result<Option<Tariff>, AllocError>
    ensures { IfOk result (λ tariff. tariff ≡ spec.tariff_of (table_view document.now)) }
{
    match Tariff::of_document(alloc, document) {
        Ok(tariff) => Ok(Some(tariff)),
        Err(TariffFault::Memory) => Err(AllocError),
        Err(_) => Ok(None),
    }
}

impl HeadedTariff {
    /// What a document says.
    fn of_document(alloc: Global, document: &Table) -> Result<HeadedTariff, AllocError>
        ensures tariff { IfOk result (λ headed.
            headed.tariff ≡ spec.tariff_of (table_view document.now)) }
        ensures letterhead { IfOk result (λ headed. letterhead_shown headed.letterhead
            ≡ letterhead_of (table_view document.now)) }
    {
        let tariff = tariff_of(alloc, document)?;
        let letterhead = Letterhead::of_document(alloc, document)?;
        Ok(HeadedTariff { tariff, letterhead })
    }

    /// Reads a tariff file. A text that is no document has no tariff, and says nothing of the
    /// office; nothing but want of memory fails.
    pub fn read(alloc: Global, text: &str) -> Result<HeadedTariff, AllocError>
        ensures tariff { IfOk result (λ headed. headed.tariff ≡ spec.tariff_in text.now) }
        ensures letterhead { IfOk result (λ headed.
            letterhead_shown headed.letterhead ≡ letterhead_in text.now) }
    {
        match document_in(alloc, text)? {
            Some(document) => HeadedTariff::of_document(alloc, &document),
            None => Ok(HeadedTariff {
                tariff: None,
                letterhead: Letterhead::empty(),
            }),
        }
    }
}
