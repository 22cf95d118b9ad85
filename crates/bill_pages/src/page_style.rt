//! The style of a bill's page.

ghost use Rattle.std.specs.Prelude.{◌≡◌, ◌++◌};
ghost use Rattle.bill_pages.specs.PageStyle as spec;

use bill_texts::Layout;
use text_drafts::Draft;

/// For a browser, for a telephone and for paper.
const STYLE: &str = "\
    :root{color-scheme:light dark;--ink:#1b1f27;--soft:#5a6270;--line:#d9dee6;\
    --page:#fff;--card:#f6f7f9;--mark:#8a3d00;--link:#2257a5}\n\
    @media(prefers-color-scheme:dark){:root{--ink:#e8eaee;--soft:#a3acba;--line:#363d49;\
    --page:#15181d;--card:#1c2027;--mark:#f0b27a;--link:#8ab4f0}}\n\
    *{box-sizing:border-box}\n\
    body{margin:0;background:var(--page);color:var(--ink);font:16px/1.5 system-ui,\
    -apple-system,'Segoe UI',Roboto,'Helvetica Neue',Arial,sans-serif;\
    font-variant-numeric:tabular-nums lining-nums}\n\
    main{max-width:60rem;margin:0 auto;padding:2.5rem 1.25rem 4rem}\n\
    header{display:flex;flex-wrap:wrap;justify-content:space-between;gap:.25rem 2rem;\
    padding-bottom:.75rem;border-bottom:2px solid var(--ink)}\n\
    header p{margin:0;font-weight:600}\n\
    h1{margin:1.75rem 0 0;font-size:2rem;line-height:1.2;font-weight:600;\
    letter-spacing:-.015em}\n\
    h1+p{margin:.25rem 0 1.5rem;color:var(--soft)}\n\
    b{color:var(--mark)}\n\
    dl{display:grid;grid-template-columns:repeat(6,1fr);margin:0 0 1rem;\
    border:1px solid var(--line);border-radius:.5rem;background:var(--card)}\n\
    dl div{grid-column:span 2;padding:.6rem 1.1rem;border-top:1px solid var(--line)}\n\
    dl .sum{grid-column:span 3;padding:1rem 1.1rem;border-top:0}\n\
    dt{color:var(--soft);font-size:.875rem}\n\
    dd{margin:0}\n\
    .sum dd{font-size:1.75rem;line-height:1.25;font-weight:600}\n\
    .sum small{font-size:1rem;font-weight:400}\n\
    .note{margin:.75rem 0;color:var(--soft);font-size:.875rem}\n\
    table{width:100%;margin:2rem 0 0;border-collapse:collapse}\n\
    th,td{padding:.35rem 0 .35rem 1rem;border-top:1px solid var(--line);\
    text-align:right;white-space:nowrap;vertical-align:baseline}\n\
    tr>:first-child{padding-left:0}\n\
    th{font-weight:500}\n\
    thead th{border-top:0;border-bottom:1px solid var(--ink);color:var(--soft);\
    font-size:.8125rem}\n\
    thead .title th{border:0;padding-bottom:.1rem;color:var(--ink);font-size:1.125rem;\
    font-weight:600;text-align:left}\n\
    tbody:first-of-type tr:first-child>*{border-top:0}\n\
    tfoot th,tfoot td{border-top:1px solid var(--ink);font-weight:600}\n\
    .work tr>:nth-child(-n+2),.prices tr>:nth-child(-n+2),.shifts tr>:nth-child(-n+2),\
    .records tr>:nth-child(-n+5),.centres tr>:first-child{text-align:left}\n\
    .records .name td{padding-top:0;border:0;text-align:left;color:var(--soft);\
    font:.75rem/1.4 ui-monospace,'Cascadia Mono',Consolas,'DejaVu Sans Mono',monospace;\
    white-space:normal;overflow-wrap:anywhere}\n\
    .records tr:first-child>*{padding-bottom:.1rem}\n\
    .both{display:grid;grid-template-columns:3fr 2fr;gap:0 2.5rem;align-items:start}\n\
    a{color:var(--link);text-decoration:none}a:hover,a:focus{text-decoration:underline}\n\
    nav{display:flex;flex-wrap:wrap;gap:.5rem 1.5rem;margin-top:2.5rem}\n\
    @media screen and (max-width:44rem){\n\
    body{font-size:15px}main{padding:1.25rem 1rem 3rem}h1{font-size:1.6rem}\n\
    dl{display:block}dl div{display:flex;justify-content:space-between;\
    padding:.4rem .7rem}dl .sum{display:block;padding:.7rem}.sum+.sum{\
    border-top:1px solid var(--line)!important}.sum dd{font-size:1.5rem;\
    overflow-wrap:anywhere}\n\
    .both,.rows,.rows thead,.rows tbody,.rows tfoot,.rows .title th{display:block}\n\
    th,td{padding-left:.5rem;font-size:.8125rem}.prices thead tr:not(.title) th{\
    white-space:normal}\n\
    .rows thead tr:not(.title){display:none}\n\
    .rows tr:not(.title){display:flex;flex-wrap:wrap;gap:0 .75rem;padding:.4rem 0;\
    border-top:1px solid var(--line)}\n\
    .rows tr:not(.title)::after{content:'';order:2;flex-basis:100%}\n\
    .rows tr>*{padding:0!important;border:0!important;font-size:.9375rem}\n\
    .rows tr>:last-child:not(:first-child){order:1;margin-left:auto;font-weight:600}\n\
    .rows tr>:empty{display:none}\n\
    .work tr>:nth-child(n+3):not(:last-child),\
    .records tr>:nth-child(n+3):not(:last-child),\
    .centres tr>:nth-child(n+2):not(:last-child){order:3;color:var(--soft);\
    font-size:.8125rem}\n\
    .work tr>:nth-child(3)::after{content:' %'}.work tr>:nth-child(4)::before{\
    content:'count '}.work tr>:nth-child(5)::before{content:'CPU '}\
    .work tr>:nth-child(6)::before{content:'blocks '}\n\
    .records tr>:nth-child(6)::before{content:'step '}.records tr>:nth-child(7)::before{\
    content:'of period '}\n\
    .rows .name{border:0!important;padding-top:0!important}\n\
    .centres tr>:nth-child(2)::before{content:'charged '}\
    .centres tr>:nth-child(3)::before{content:'late '}.centres tr>:nth-child(4)::before{\
    content:'reversed '}\n\
    .centres tr>:nth-child(5)::before{content:'owed '}\n\
    }\n\
    @page{margin:16mm 15mm 20mm;@bottom-right{\
    content:counter(page) ' / ' counter(pages);font:8pt system-ui,Arial,sans-serif;\
    color:#444}@bottom-left{font:8pt system-ui,Arial,sans-serif;color:#444}}\n\
    @media print{\n\
    :root{color-scheme:light;font-size:9pt;--ink:#000;--soft:#444;--line:#ccc;\
    --page:#fff;--card:#fff;--mark:#000;--link:#000}\n\
    body{font-size:1rem;line-height:1.35}main{max-width:none;padding:0}nav{display:none}\n\
    h1{margin-top:1.2rem;font-size:2.2rem}.sum dd{font-size:1.9rem}dd{font-size:1.1rem}\n\
    table{margin-top:1.6rem}th,td{padding:.17rem 0 .17rem 1rem}thead{\
    display:table-header-group}tfoot{display:table-row-group}\n\
    tr,dl,.note,.records tbody{break-inside:avoid}thead,.title,h1{break-after:avoid}\
    tfoot{break-before:avoid}\n\
    thead .title th{font-size:1.25rem}.records .name td{font-size:.85rem}\n\
    }\n\
";

/// Appends the style.
#[tactic(auto, unfolding(crate::specs::PageStyle::bill_style))]
pub(crate) fn push_bill_style(out: &mut Draft)
    ensures { out.new ≡ out.old ++ spec.bill_style }
{
    out.push_str(STYLE);
}

/// For a bill with credits: its sums have a column more, and a reason may have several lines.
const CREDIT_STYLE: &str = "\
    .credits tr>:first-child{text-align:left;white-space:normal;overflow-wrap:anywhere}\n\
    @media screen and (max-width:44rem){\n\
    .credited tr>:nth-child(5)::before{content:'credits '}\
    .credited tr>:nth-child(6)::before{content:'owed '}\n\
    }\n\
";

/// Appends the style of credits, where a bill has some.
#[tactic(auto, unfolding(crate::specs::PageStyle::credit_style))]
pub(crate) fn push_credit_style(out: &mut Draft, sums: Layout)
    ensures { out.new ≡ out.old ++ spec.credit_style sums }
{
    match sums {
        Layout::CreditedSums => out.push_str(CREDIT_STYLE),
        _ => {}
    }
}
