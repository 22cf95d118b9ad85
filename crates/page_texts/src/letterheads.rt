//! What a page says of the office that bills, where a tariff says it: its name, and the currency of
//! the amounts.

ghost use Rattle.std.specs.Prelude.{◌≡◌, ◌++◌, option_map, string_bytes};
ghost use Rattle.page_texts.specs.Letterheads as spec;

use html_text::push_escaped;
use text_drafts::Draft;

/// Appends the office's name, or another word where there is none.
#[tactic(auto, unfolding(crate::specs::Letterheads::office_name))]
pub fn push_office_name(out: &mut Draft, other: &str, office: &Option<String>)
    ensures { out.new ≡ out.old
        ++ spec.office_name other.now (option_map (λ text. string_bytes text) office.now) }
{
    match office {
        None => out.push_str(other),
        Some(office) => push_escaped(out, office.as_str()),
    }
}

/// Appends the currency among figures, if there is one.
#[tactic(auto, unfolding(crate::specs::Letterheads::currency_figure))]
pub(crate) fn push_currency_figure(out: &mut Draft, currency: &Option<String>)
    ensures { out.new ≡ out.old
        ++ spec.currency_figure (option_map (λ text. string_bytes text) currency.now) }
{
    match currency {
        None => {}
        Some(currency) => {
            out.push_str("<div><dt>Currency</dt><dd>");
            push_escaped(out, currency.as_str());
            out.push_str("</dd></div>\n");
        }
    }
}
