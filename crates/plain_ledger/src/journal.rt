//! The journal of a plain ledger: what each call said. Its entries are made of that.

ghost use Rattle.std.specs.Prelude.{◌≡◌, [], IfOk, OnOk, Some, if◌then◌else◌};
ghost use Rattle.book_model.specs.Journal.{change_newest, keep_in};
ghost use Rattle.plain_ledger.specs.Journals as spec;
ghost use Rattle.plain_ledger.specs.MadeEntries.{entries_made};

use crate::copies::copied_share;
use crate::made_entries::{MadeEntry, make_entries};
use book_model::{Accepted, LedgerFault, Note, Ruled, Share, Stop};
use std::alloc::{AllocError, Global};

/// Where a ruling stands, as it was asked for.
#[derive(Drop)]
pub(crate) enum Standing {
    /// A tariff, by its text.
    Tariff(String),
    /// A close, by its period.
    Close(u16),
    /// A choice, by how many came before it.
    Choice(u32),
    Adoption,
    /// A tariff in the place of another, by how many came before it.
    Replacement(u32),
    /// A credit, by how many came before it.
    Credit(u32),
}

/// What one call said.
#[derive(Drop)]
pub(crate) enum Said {
    /// A ruling was done.
    Ruling(Note, Standing),
    /// A record was kept, with no word of an import.
    Record(Vec<u8>),
    /// A record was kept, with this word of its import; and whether the call took all its records.
    Import(Share, bool, Vec<u8>),
    /// The import that went on ended.
    End(Stop),
}

/// What all calls said, in order.
#[derive(Drop)]
pub(crate) struct Journal {
    said: Vec<Said>,
}

/// The ruling is done.
pub(crate) fn is_done(answer: &Result<Ruled, LedgerFault>) -> bool
    ensures { result ≡ spec.is_done answer.now }
{
    match answer {
        Ok(Ruled::Done) => true,
        Ok(Ruled::Already) => false,
        Err(_) => false,
    }
}

/// The record is kept.
pub(crate) fn is_kept(answer: &Result<Accepted, LedgerFault>) -> bool
    ensures { result ≡ spec.is_kept answer.now }
{
    match answer {
        Ok(Accepted::Kept) => true,
        Ok(Accepted::Known) => false,
        Ok(Accepted::Unpriced) => false,
        Err(_) => false,
    }
}

impl Journal {
    /// Nothing was said yet.
    pub(crate) fn new(alloc: Global) -> Journal
        ensures { spec.entries_in result ≡ [] }
    {
        Journal {
            said: Vec::new(alloc),
        }
    }

    /// Makes room for what one more call says.
    pub(crate) fn reserve(&mut self) -> Result<(), AllocError>
        ensures same { spec.entries_in self.new ≡ spec.entries_in self.old }
        ensures room { OnOk result (spec.HasRoom self.new) }
    {
        self.said.reserve(1)
    }

    /// Keeps what a call said. There is room for it.
    pub(crate) fn add(&mut self, said: Said)
        requires { spec.HasRoom self.old }
        ensures { spec.entries_in self.new ≡ spec.said_after said (spec.entries_in self.old) }
    {
        self.said.push_reserved(said);
    }

    /// Keeps what a call said, if it said something and did what it was asked to.
    pub(crate) fn add_if(&mut self, did: bool, said: Option<Said>)
        requires { spec.HasRoom self.old }
        ensures { spec.entries_in self.new ≡ (if did
            then spec.said_all said (spec.entries_in self.old) else spec.entries_in self.old) }
    {
        if !did {
            return;
        }
        let Some(said) = said else {
            return;
        };
        self.add(said);
    }

    /// What a record says, if it is kept with no word of an import: nothing where no call said
    /// anything before.
    fn alone(&self, alloc: Global, bytes: &[u8]) -> Result<Option<Said>, AllocError>
        ensures { IfOk result (λ said. spec.said_all said (spec.entries_in self.now)
            ≡ change_newest (keep_in bytes.now) (spec.entries_in self.now)) }
    {
        if self.said.is_empty() {
            return Ok(None);
        }
        let own = Vec::from_slice(alloc, bytes)?;
        Ok(Some(Said::Record(own)))
    }

    /// What a record says, if it is kept, with what its import says.
    fn of_import(
        &self,
        alloc: Global,
        bytes: &[u8],
        share: &Share,
        whole: bool,
    ) -> Result<Option<Said>, AllocError>
        ensures { IfOk result (λ said. spec.said_all said (spec.entries_in self.now)
            ≡ spec.entries_by (spec.events_told (Some share.now) whole bytes.now)
            (spec.entries_in self.now)) }
    {
        let copy = copied_share(alloc, share)?;
        let own = Vec::from_slice(alloc, bytes)?;
        Ok(Some(Said::Import(copy, whole, own)))
    }

    /// What a record says, if it is kept, with what its import says, if it says something.
    pub(crate) fn of_record(
        &self,
        alloc: Global,
        bytes: &[u8],
        import: &Option<Share>,
        whole: bool,
    ) -> Result<Option<Said>, AllocError>
        ensures { IfOk result (λ said. spec.said_all said (spec.entries_in self.now)
            ≡ spec.entries_by (spec.events_told import.now whole bytes.now)
            (spec.entries_in self.now)) }
    {
        match import {
            None => self.alone(alloc, bytes),
            Some(share) => self.of_import(alloc, bytes, share, whole),
        }
    }

    /// The entries, the oldest first.
    pub(crate) fn entries(&self, alloc: Global) -> Result<Vec<MadeEntry>, AllocError>
        ensures { IfOk result (λ made. entries_made made.items ≡ spec.entries_in self.now) }
    {
        make_entries(alloc, &self.said)
    }
}
