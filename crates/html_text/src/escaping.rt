//! Texts inside a page: the bytes that markup is made of are written as references to them.

ghost use Rattle.std.specs.Prelude.{◌≡◌, ◌++◌};
ghost use Rattle.smf_text.specs.CodePage.{show_text};
ghost use Rattle.html_text.specs.Escaping as spec;

use smf_text::show;
use text_drafts::Draft;

/// Appends a byte as a page shows it.
pub fn push_byte(out: &mut Draft, byte: u8)
    ensures { out.new ≡ out.old ++ spec.escape_byte byte }
{
    match byte {
        b'&' => out.push_str("&amp;"),
        b'<' => out.push_str("&lt;"),
        b'>' => out.push_str("&gt;"),
        b'"' => out.push_str("&quot;"),
        b'\'' => out.push_str("&#39;"),
        _ if byte < 128 => out.push(char::from(byte)),
        _ => out.push('?'),
    }
}

/// Appends a text as a page shows it.
#[tactic(auto, using(std::proofs::lemmas::List::flat_map_more), unfolding(crate::specs::Escaping::escaped))]
pub fn push_escaped(out: &mut Draft, text: &str)
    ensures { out.new ≡ out.old ++ spec.escaped text.now }
{
    for byte in text.as_bytes() {
        push_byte(out, *byte);
    }
}

/// Appends bytes of a dump as a page shows them.
pub fn push_shown(out: &mut Draft, bytes: &[u8])
    ensures { out.new ≡ out.old ++ spec.escaped (show_text bytes.now) }
{
    match show(out.alloc(), bytes) {
        Ok(text) => push_escaped(out, text.as_str()),
        Err(_) => out.leave_out(&bytes),
    }
}
