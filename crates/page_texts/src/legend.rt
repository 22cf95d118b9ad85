//! Which colour is whose, under the pictures of the office.

ghost use Rattle.std.specs.Prelude.{◌≡◌, ◌++◌, take};
ghost use Rattle.page_texts.specs.Bars.{most_colours};
ghost use Rattle.page_texts.specs.OfficePage as spec;

use crate::bars::{COLOURS, colour_of};
use html_text::push_escaped;
use smf_text::Name;
use text_drafts::Draft;

/// Appends the line of the centre of an index.
fn push_item(out: &mut Draft, index: usize, centre: Name)
    ensures { out.new ≡ out.old ++ spec.legend_item index centre }
{
    out.push_str("<li class='c");
    out.push_number(colour_of(index) as u64);
    out.push_str("'>");
    push_escaped(out, centre.text());
    out.push_str("</li>\n");
}

/// Appends the lines of centres.
fn push_items(out: &mut Draft, centres: &[Name])
    ensures { out.new ≡ out.old ++ spec.legend_from 0 centres.now }
{
    for (index, centre) in centres.iter().enumerate() {
        push_item(out, index, *centre);
    }
}

/// Appends how many of so many share the last colour, where there are such: these it does not name.
#[tactic(auto, unfolding(crate::specs::OfficePage::legend_rest))]
fn push_rest(out: &mut Draft, count: usize)
    ensures { out.new ≡ out.old ++ spec.legend_rest count }
{
    if count <= COLOURS {
        return;
    }
    out.push_str("<li class='c8'>and ");
    out.push_number((count - COLOURS) as u64);
    out.push_str(" more</li>\n");
}

/// The first centres, as many as have a colour of their own.
fn named(centres: &[Name]) -> &[Name]
    ensures { result.now ≡ take most_colours centres.now }
{
    if centres.len() <= COLOURS {
        return centres;
    }
    &centres[..COLOURS]
}

/// Appends the legend of centres.
#[tactic(auto, unfolding(crate::specs::OfficePage::legend))]
pub(crate) fn push_legend(out: &mut Draft, centres: &[Name])
    ensures { out.new ≡ out.old ++ spec.legend centres.now }
{
    out.push_str("<ul>\n");
    push_items(out, named(centres));
    push_rest(out, centres.len());
    out.push_str("</ul>\n");
}
