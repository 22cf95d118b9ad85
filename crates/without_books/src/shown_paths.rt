//! Paths and other bytes as a terminal shows them: none of them makes it do anything else.

ghost use Rattle.std.specs.Prelude.{◌≡◌, ◌++◌};
ghost use Rattle.std.specs.List.{list_any};
ghost use Rattle.without_books.specs.ShownPaths as spec;

use text_drafts::Draft;

/// A terminal does not show the byte, but obeys it.
fn is_control(byte: u8) -> bool
    ensures { result ≡ spec.is_control byte }
{
    byte < 32 || byte == 127
}

fn has_control(bytes: &[u8]) -> bool
    ensures { result ≡ list_any spec.is_control bytes.now }
{
    for byte in bytes {
        if is_control(*byte) {
            return true;
        }
    }
    false
}

/// Appends a byte of those that are shown in ASCII alone.
fn push_plain(out: &mut Draft, byte: u8)
    ensures { out.new ≡ out.old ++ spec.plain_byte byte }
{
    if is_control(byte) {
        out.push('?');
    } else if byte < 128 {
        out.push(char::from(byte));
    } else {
        out.push('?');
    }
}

/// Appends bytes that may be no text.
#[tactic(auto, using(std::proofs::lemmas::List::flat_map_more), unfolding(crate::specs::ShownPaths::plain_bytes))]
pub(crate) fn push_plain_bytes(out: &mut Draft, bytes: &[u8])
    ensures { out.new ≡ out.old ++ spec.plain_bytes bytes.now }
{
    for byte in bytes {
        push_plain(out, *byte);
    }
}

/// Appends a path as it is shown: as it is, unless a terminal would obey a byte of it.
pub(crate) fn push_path(out: &mut Draft, path: &str)
    ensures { out.new ≡ out.old ++ spec.shown_path path.now }
{
    let bytes = path.as_bytes();
    if has_control(bytes) {
        push_plain_bytes(out, bytes);
    } else {
        out.push_str(path);
    }
}
