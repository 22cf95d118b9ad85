//! What scripts have named: dumps and texts.

use crate::dump_parts::{Dumps, dump_of, push_hex_lines};
use crate::line_result::{LineFault, LineResult};
use std::alloc::Global;
use std::collections::BTreeMap;

/// What is named so far. A name may be given again, and then means what it was last given to.
#[derive(Drop)]
pub struct Named {
    alloc: Global,
    dumps: Dumps,
    texts: BTreeMap<String, String>,
}

/// Gives a value a name.
fn insert_named<V: Drop>(
    alloc: Global,
    values: &mut BTreeMap<String, V>,
    name: &str,
    value: V,
) -> LineResult {
    values.insert(String::from_str(alloc, name)?, value)?;
    Ok(())
}

impl Named {
    /// Nothing is named yet.
    pub fn new(alloc: Global) -> Named {
        Named {
            alloc,
            dumps: BTreeMap::new(alloc),
            texts: BTreeMap::new(alloc),
        }
    }

    pub fn alloc(&self) -> Global {
        self.alloc
    }

    /// The dump of parts.
    pub fn read_dump(&self, parts: &[&str]) -> LineResult<Vec<u8>> {
        dump_of(self.alloc, &self.dumps, parts, None)
    }

    /// The same, where a part `at:PLACE` puts a number there, in two bytes.
    pub fn read_numbered(&self, parts: &[&str], number: u16) -> LineResult<Vec<u8>> {
        dump_of(self.alloc, &self.dumps, parts, Some(number))
    }

    /// A text that is named, if it is.
    pub fn text(&self, name: &str) -> Option<&str> {
        Some(self.texts.get(name)?.as_str())
    }

    /// Adds a text that is named.
    fn push_text(&self, text: &mut String, name: &str) -> LineResult {
        match self.text(name) {
            Some(other) => Ok(text.push_str(other)?),
            None => Err(LineFault::NotUnderstood),
        }
    }

    /// A body, and the texts that are named after it.
    pub fn read_texts(&self, names: &[&str], body: &str) -> LineResult<String> {
        let mut text = String::from_str(self.alloc, body)?;
        for name in names {
            self.push_text(&mut text, name)?;
        }
        Ok(text)
    }

    /// The dump of parts, and what lines spell after them.
    fn read_dump_and(&self, parts: &[&str], lines: &str) -> LineResult<Vec<u8>> {
        let mut dump = self.read_dump(parts)?;
        push_hex_lines(&mut dump, lines)?;
        Ok(dump)
    }

    /// Names a dump, by a name, parts, and what a body spells after them.
    pub(crate) fn name_dump(&mut self, words: &[&str], body: &str) -> LineResult {
        let [name, parts @ ..] = words else {
            return Err(LineFault::NotUnderstood);
        };
        let dump = self.read_dump_and(parts, body)?;
        insert_named(self.alloc, &mut self.dumps, name, dump)
    }

    /// Names a text, by a name, and texts that are named, which come after a body.
    pub(crate) fn name_text(&mut self, words: &[&str], body: &str) -> LineResult {
        let [name, names @ ..] = words else {
            return Err(LineFault::NotUnderstood);
        };
        let text = self.read_texts(names, body)?;
        insert_named(self.alloc, &mut self.texts, name, text)
    }
}
