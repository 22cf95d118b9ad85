//! What a record's field has to begin with.

ghost use Rattle.std.specs.Prelude.{◌≡◌, IfOk, option_map};
ghost use Rattle.tariff_rules.specs.Prefix as spec;

use smf_text::encode;
use std::alloc::{AllocError, Global};

/// The bytes of the text in code page 037, if it is one or more of its characters, up to a limit.
pub(crate) fn prefix_of(
    alloc: Global,
    text: &str,
    most: usize,
) -> Result<Option<Vec<u8>>, AllocError>
    ensures { IfOk result
        (λ prefix. option_map (λ bytes. bytes.items) prefix ≡ spec.prefix_of most text.now) }
{
    if text.is_empty() || text.len() > most {
        return Ok(None);
    }
    let mut prefix = vec![in alloc; 0; text.len()]?;
    match encode(text, &mut prefix) {
        Ok(_) => Ok(Some(prefix)),
        Err(_) => Ok(None),
    }
}
