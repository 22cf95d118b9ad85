//! A row of a table that is made field by field.

ghost use Rattle.std.specs.Prelude.{◌≡◌, ◌++◌, [], ◌∷◌, IfSome};
ghost use Rattle.csv.specs.Records.{fields_of};

use crate::draft::Draft;
use crate::meant_fields::{MeantFields, then_field};
use csv::StringRecord;
use std::alloc::Global;
use std::marker::Model;

/// A row of a table, as far as it is made. A field for which there is no memory is left out, and the
/// row remembers that. A contract sees a row as the fields that it was to have.
#[derive(Drop)]
pub struct RowDraft {
    alloc: Global,
    fields: StringRecord,
    /// A field is left out.
    is_cut: bool,
    meant: MeantFields,
}

impl Model for RowDraft {
    ghost use Rattle.std.specs.Prelude.{◌≡◌, ℕ, false, List};
    ghost use Rattle.csv.specs.Records.{fields_of};

    ghost Value = { List (List ℕ) };

    ghost view = { λ row. row.meant.fields };

    ghost invariant = { λ row.
        row.is_cut ≡ false → fields_of row.fields ≡ row.meant.fields };
}

impl RowDraft {
    /// No field is there yet.
    pub fn new(alloc: Global) -> RowDraft
        ensures { result ≡ [] }
    {
        RowDraft {
            alloc,
            fields: StringRecord::new(alloc),
            is_cut: false,
            meant: MeantFields::new(),
        }
    }

    /// What its memory comes from.
    pub fn alloc(&self) -> Global {
        self.alloc
    }

    /// Adds a text.
    pub fn add_str(&mut self, text: &str)
        ensures { self.new ≡ self.old ++ text.now ∷ [] }
    {
        if self.fields.push_field(text).is_err() {
            self.is_cut = true;
        }
        self.meant = then_field(&self.meant, &text.as_bytes());
    }

    /// Adds what a draft says.
    pub fn add_draft(&mut self, text: &Draft)
        ensures { self.new ≡ self.old ++ text.now ∷ [] }
    {
        match text.whole() {
            Some(whole) => self.add_str(whole),
            None => self.leave_out(text),
        }
    }

    /// Leaves out what a draft says, as there was no memory for all of it.
    fn leave_out(&mut self, text: &Draft)
        ensures { self.new ≡ self.old ++ text.now ∷ [] }
    {
        self.is_cut = true;
        self.meant = then_field(&self.meant, text);
    }

    /// The fields, if none of them is left out.
    pub fn whole(&self) -> Option<&StringRecord>
        ensures { IfSome result (λ fields. fields_of fields.now ≡ self.now) }
    {
        if self.is_cut {
            return None;
        }
        Some(&self.fields)
    }
}
