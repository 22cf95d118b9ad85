//! A text that is made piece by piece.

ghost use Rattle.std.specs.Prelude.{◌≡◌, ℕ, ◌++◌, List, [], IfOk, IfSome, string_bytes};
ghost use Rattle.std.specs.Fmt.{decimal};
ghost use Rattle.std.specs.Char.{encode_utf8};
ghost use Rattle.hex.specs.Hex.{encode_lower, encode_upper};
ghost use Rattle.smf_text.specs.CodePage.{show_text};
ghost use Rattle.smf_text.specs.Day.{IsDay, day_text_of};

use crate::meant::{Meant, then_of};
use smf_text::{day_text, show};
use std::alloc::{AllocError, Global};
use std::marker::Model;

/// A text, as far as it is made. A piece for which there is no memory is left out, and the draft
/// remembers that; so nothing that is added has a result, and whoever made the text asks once, at
/// its end. A contract sees a draft as the bytes that it was to have.
#[derive(Drop)]
pub struct Draft {
    alloc: Global,
    text: String,
    /// A piece is left out.
    is_cut: bool,
    meant: Meant,
}

impl Model for Draft {
    ghost use Rattle.std.specs.Prelude.{◌≡◌, ℕ, false, List, string_bytes};

    ghost Value = { List ℕ };

    ghost view = { λ draft. draft.meant.bytes };

    ghost invariant = { λ draft.
        draft.is_cut ≡ false → string_bytes draft.text ≡ draft.meant.bytes };
}

impl Draft {
    /// Nothing is said yet.
    pub fn new(alloc: Global) -> Draft
        ensures { result ≡ [] }
    {
        Draft {
            alloc,
            text: String::new(alloc),
            is_cut: false,
            meant: Meant::new(),
        }
    }

    /// What its memory comes from.
    pub fn alloc(&self) -> Global {
        self.alloc
    }

    /// Adds a text.
    pub fn push_str(&mut self, text: &str)
        ensures { self.new ≡ self.old ++ text.now }
    {
        if self.text.push_str(text).is_err() {
            self.is_cut = true;
        }
        self.meant = then_of(&self.meant, &text.as_bytes());
    }

    /// Adds a character.
    pub fn push(&mut self, character: char)
        ensures { self.new ≡ self.old ++ encode_utf8 character }
    {
        if self.text.push(character).is_err() {
            self.is_cut = true;
        }
        self.meant = then_of(&self.meant, &(character as u32));
    }

    /// Adds a number in decimal digits.
    pub fn push_number(&mut self, number: u64)
        ensures { self.new ≡ self.old ++ decimal number }
    {
        if write!(self.text, "{number}").is_err() {
            self.is_cut = true;
        }
        self.meant = then_of(&self.meant, &number);
    }

    /// Adds a day.
    pub fn push_day(&mut self, day: i32)
        requires { IsDay day }
        ensures { self.new ≡ self.old ++ day_text_of day }
    {
        let made = day_text(self.alloc, day);
        self.push_made(&day, made);
    }

    /// Adds bytes as people read them.
    pub fn push_shown(&mut self, bytes: &[u8])
        ensures { self.new ≡ self.old ++ show_text bytes.now }
    {
        let made = show(self.alloc, bytes);
        self.push_made(&bytes, made);
    }

    /// Adds bytes as hexadecimal digits of lower case.
    pub fn push_lower_hex(&mut self, bytes: &[u8])
        ensures { self.new ≡ self.old ++ encode_lower bytes.now }
    {
        let made = hex::encode(self.alloc, bytes);
        self.push_made(&bytes, made);
    }

    /// Adds bytes as hexadecimal digits of upper case.
    pub fn push_upper_hex(&mut self, bytes: &[u8])
        ensures { self.new ≡ self.old ++ encode_upper bytes.now }
    {
        let made = hex::encode_upper(self.alloc, bytes);
        self.push_made(&bytes, made);
    }

    /// Adds what another draft says.
    pub fn push_draft(&mut self, other: &Draft)
        ensures { self.new ≡ self.old ++ other.now }
    {
        match other.whole() {
            Some(text) => self.push_str(text),
            None => self.leave_out(other),
        }
    }

    /// Adds a text that was made of a value, if there was memory to make it.
    pub fn push_made<T>(&mut self, value: &T, made: Result<String, AllocError>)
        ghost piece: { List ℕ }
        requires { IfOk made (λ text. string_bytes text ≡ piece) }
        ensures { self.new ≡ self.old ++ piece }
    {
        match made {
            Ok(text) => self.push_str(text.as_str()),
            Err(_) => self.leave_out(value),
        }
    }

    /// Leaves out the piece that a value stands for, as there was no memory to make it.
    pub fn leave_out<T>(&mut self, value: &T)
        ghost piece: { List ℕ }
        ensures { self.new ≡ self.old ++ piece }
    {
        self.is_cut = true;
        self.meant = then_of(&self.meant, value);
    }

    /// The text, if no piece of it is left out.
    pub fn whole(&self) -> Option<&str>
        ensures { IfSome result (λ text. text.now ≡ self.now) }
    {
        if self.is_cut {
            return None;
        }
        Some(self.text.as_str())
    }

    /// The text by itself, if there was memory for all of it.
    pub fn finish(self) -> Result<String, AllocError>
        ensures { IfOk result (λ text. string_bytes text ≡ self) }
    {
        if self.is_cut {
            return Err(AllocError);
        }
        Ok(self.text)
    }
}
