//! The pages of bills, for a browser and for paper.

ghost use Rattle.std.specs.Prelude.{◌≡◌, ◌++◌, IfOk, string_bytes};
ghost use Rattle.std.specs.Option.{ForSome};
ghost use Rattle.book_model.specs.Words.{IsDay};
ghost use Rattle.bill_texts.specs.Sheets.{parts_shown, sheet_shown};
ghost use Rattle.bill_pages.specs.BillPages as spec;
ghost use Rattle.bill_pages.specs.ShownAlike.{SheetsAreShownAlike};

use crate::bill_head::{
    PageHead, push_bill_name, push_bill_path, push_box_of, push_head, push_held, push_page_start,
};
use crate::sheet_pages::{push_part_lines, push_parts, push_terms};
use bill_texts::{CentreParts, Sheet};
use std::alloc::{AllocError, Global};
use text_drafts::Draft;

/// How a row is worked out.
const CHECK_NOTE: &str = "\
    <p class='note'>To check a row: (count &#215; price of a record + CPU seconds \
    &#215; price of a CPU second + blocks &#247; 1,000 &#215; price of 1,000 \
    blocks) &#215; percent &#247; 100, by the prices in force on its day. Each \
    record is rounded to 0.0001, so a row of n records may be off by \
    n&#160;&#215;&#160;0.00005.</p>\n\
";

/// Appends what each page begins with.
#[tactic(auto, unfolding(crate::specs::BillPages::bill_top))]
fn push_top(out: &mut Draft, head: &PageHead<'_>, sheet: &Sheet)
    requires first { ForSome head.now.first IsDay }
    requires through { ForSome head.now.through IsDay }
    ensures { out.new
        ≡ out.old ++ spec.bill_top (spec.head_shown head.now) (sheet_shown sheet.now) }
{
    let mut name = Draft::new(out.alloc());
    push_bill_name(&mut name, head);
    push_page_start(out, &name, sheet.sums.layout);
    push_head(out, &name, head);
    push_box_of(out, &head.letterhead.currency, &sheet.sums);
    push_held(out, head.held);
}

/// Appends how a row is worked out.
#[tactic(auto, unfolding(crate::specs::BillPages::check_note))]
fn push_check_note(out: &mut Draft)
    ensures { out.new ≡ out.old ++ spec.check_note }
{
    out.push_str(CHECK_NOTE);
}

/// Appends that where there are prices.
fn push_check(out: &mut Draft, sheet: &Sheet)
    ensures { out.new ≡ out.old ++ spec.check_page (sheet_shown sheet.now) }
{
    if 0 < sheet.prices.rows.len() {
        push_check_note(out);
    }
}

/// Appends the links to the page of the office and of the period.
#[tactic(auto, unfolding(crate::specs::BillPages::links_start))]
fn push_links_start(out: &mut Draft, head: &PageHead<'_>)
    ensures { out.new ≡ out.old ++ spec.links_start (spec.head_shown head.now) }
{
    out.push_str("<nav aria-label='Texts'>\n<a href='/'>office</a>\n<a href='/period/");
    out.push_number(u64::from(head.period));
    out.push_str("'>period ");
    out.push_number(u64::from(head.period));
    out.push_str("</a>\n");
}

/// Appends those of the bill of a centre alone.
#[tactic(auto, unfolding(crate::specs::BillPages::centre_links))]
fn push_centre_links(out: &mut Draft, head: &PageHead<'_>)
    ensures { out.new ≡ out.old ++ spec.centre_links (spec.head_shown head.now) }
{
    out.push_str("<a href='/bill/");
    out.push_number(u64::from(head.period));
    out.push_str("'>all centres</a>\n<a href='/details/");
    push_bill_path(out, head);
    out.push_str("'>details</a>\n");
}

/// Appends the link to its table, and the end of the page.
#[tactic(auto, unfolding(crate::specs::BillPages::links_end))]
fn push_links_end(out: &mut Draft, head: &PageHead<'_>)
    ensures { out.new ≡ out.old ++ spec.links_end (spec.head_shown head.now) }
{
    out.push_str("<a href='/bill-csv/");
    push_bill_path(out, head);
    out.push_str("'>bill-csv</a>\n</nav>\n</main>\n</body>\n</html>\n");
}

/// The page of the office's bill.
pub fn office_bill_page(
    alloc: Global,
    head: &PageHead<'_>,
    sheet: &Sheet,
) -> Result<String, AllocError>
    requires first { ForSome head.now.first IsDay }
    requires through { ForSome head.now.through IsDay }
    ensures { IfOk result (λ page. string_bytes page
        ≡ spec.office_bill_page (spec.head_shown head.now) (sheet_shown sheet.now)) }
{
    let mut page = Draft::new(alloc);
    push_top(&mut page, head, sheet);
    push_part_lines(&mut page, head.period, &sheet.sums);
    push_terms(&mut page, head.period, sheet);
    push_links_start(&mut page, head);
    push_links_end(&mut page, head);
    page.finish()
}

/// The page of the bill of a centre. Each row of its sheet and its parts stands there and in the bill's text.
pub fn centre_bill_page(
    alloc: Global,
    head: &PageHead<'_>,
    sheet: &Sheet,
    parts: &CentreParts,
) -> Result<String, AllocError>
    requires first { ForSome head.now.first IsDay }
    requires through { ForSome head.now.through IsDay }
    ensures page { IfOk result (λ page. string_bytes page
        ≡ spec.centre_bill_page (spec.head_shown head.now) (sheet_shown sheet.now)
        (parts_shown parts.now)) }
    ensures alike { SheetsAreShownAlike }
{
    let mut page = Draft::new(alloc);
    push_top(&mut page, head, sheet);
    push_terms(&mut page, head.period, sheet);
    push_check(&mut page, sheet);
    push_parts(&mut page, head.period, parts);
    push_links_start(&mut page, head);
    push_centre_links(&mut page, head);
    push_links_end(&mut page, head);
    page.finish()
}
