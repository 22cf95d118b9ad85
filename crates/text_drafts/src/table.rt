//! A table that is made row by row.

ghost use Rattle.std.specs.Prelude.{◌≡◌, ℕ, ◌++◌, List, [], IfOk, map};
ghost use Rattle.csv.specs.Writing.{default_writer, row_text};
ghost use Rattle.text_drafts.specs.Tables.{IsBetweenRows};

use crate::meant::{Meant, then_of};
use crate::row::RowDraft;
use csv::{Writer, WriterBuilder};
use std::alloc::{AllocError, Global};
use std::marker::Model;

/// A table of comma-separated values, as far as it is made. A row for which there is no memory is
/// left out, and the table remembers that. A contract sees a table as the bytes that it was to have.
#[derive(Drop)]
pub struct TableDraft {
    alloc: Global,
    writer: Writer<Vec<u8>>,
    /// A row is left out.
    is_cut: bool,
    meant: Meant,
}

impl Model for TableDraft {
    ghost use Rattle.std.specs.Prelude.{◌≡◌, ℕ, false, List};

    ghost Value = { List ℕ };

    ghost use Rattle.text_drafts.specs.Tables.{IsBetweenRows};

    ghost view = { λ table. table.meant.bytes };

    ghost invariant = { λ table.
        table.is_cut ≡ false → IsBetweenRows table.writer table.meant.bytes };
}

/// A writer of no row yet.
fn new_writer(alloc: Global) -> Writer<Vec<u8>>
    ensures { IsBetweenRows result [] }
{
    WriterBuilder::new().from_writer(Vec::new(alloc))
}

/// The bytes of whole rows.
fn into_bytes(writer: Writer<Vec<u8>>) -> Result<Vec<u8>, AllocError>
    ensures { IfOk result (λ made.
        (bytes : List ℕ) → IsBetweenRows writer bytes → made.items ≡ bytes) }
{
    match writer.into_inner() {
        Ok(bytes) => Ok(bytes),
        Err(_) => Err(AllocError),
    }
}

impl TableDraft {
    /// No row is there yet.
    pub fn new(alloc: Global) -> TableDraft
        ensures { result ≡ [] }
    {
        TableDraft {
            alloc,
            writer: new_writer(alloc),
            is_cut: false,
            meant: Meant::new(),
        }
    }

    /// What its memory comes from.
    pub fn alloc(&self) -> Global {
        self.alloc
    }

    /// Adds a row of texts.
    pub fn add_texts(&mut self, fields: &[&[u8]])
        ensures { self.new
            ≡ self.old ++ row_text default_writer (map (λ field. field.now) fields.now) }
    {
        if self.writer.write_fields(fields).is_err() {
            self.is_cut = true;
        }
        self.meant = then_of(&self.meant, &fields);
    }

    /// Adds a row that was made field by field.
    pub fn add_row(&mut self, row: &RowDraft)
        ensures { self.new ≡ self.old ++ row_text default_writer row.now }
    {
        let is_written = match row.whole() {
            Some(fields) => self
                .writer
                .write_byte_record(fields.as_byte_record())
                .is_ok(),
            None => false,
        };
        if !is_written {
            self.is_cut = true;
        }
        self.meant = then_of(&self.meant, row);
    }

    /// The table by itself, if there was memory for all of it.
    pub fn finish(self) -> Result<Vec<u8>, AllocError>
        ensures { IfOk result (λ table. table.items ≡ self) }
    {
        if self.is_cut {
            return Err(AllocError);
        }
        into_bytes(self.writer)
    }
}
