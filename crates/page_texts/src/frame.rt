//! What every page begins and ends with.

ghost use Rattle.std.specs.Prelude.{◌≡◌, ◌++◌};
ghost use Rattle.page_texts.specs.Frame as spec;

use text_drafts::Draft;

/// What stands above the title.
const HEAD_START: &str = "\
    <!DOCTYPE html>\n<html lang='en'>\n<head>\n<meta charset='us-ascii'>\n\
    <meta name='viewport' content='width=device-width, initial-scale=1'>\n\
    <meta http-equiv='Content-Security-Policy' \
    content=\"default-src 'none'; style-src 'unsafe-inline'\">\n<title>";

/// The style of every page.
const STYLE: &str = "\
    :root{color-scheme:light dark;--ink:#1d2129;--soft:#626a78;--line:#dfe3ea;--page:#fbfbfa;\
    --card:#fff;--link:#2257a5}\n\
    @media(prefers-color-scheme:dark){:root{--ink:#e8eaee;--soft:#9aa3b2;--line:#333a46;\
    --page:#15181d;--card:#1c2027;--link:#8ab4f0}}\n\
    .c0{--c:#4c78a8}.c1{--c:#e08a2e}.c2{--c:#54a24b}.c3{--c:#b279a2}.c4{--c:#d8544f}\
    .c5{--c:#5ea8a3}.c6{--c:#d9b53c}.c7{--c:#9d755d}.c8{--c:#8d95a3}\n\
    *{box-sizing:border-box}\n\
    body{margin:0;background:var(--page);color:var(--ink);\
    font:16px/1.5 system-ui,-apple-system,'Segoe UI',Roboto,sans-serif}\n\
    main{max-width:76rem;margin:0 auto;padding:2.5rem 1.25rem 4rem}\n\
    header{margin-bottom:2rem}header p{margin:0;color:var(--soft)}\n\
    h1{margin:.25rem 0;font-size:2.25rem;line-height:1.2;font-weight:600;\
    letter-spacing:-.02em}\n\
    a{color:var(--link);text-decoration:none}a:hover,a:focus{text-decoration:underline}\n\
    .scroll{overflow-x:auto;margin:1.5rem 0;padding:.25rem 1.25rem 1rem;\
    background:var(--card);border:1px solid var(--line);border-radius:.75rem}\n\
    table{width:100%;border-collapse:collapse;font-variant-numeric:tabular-nums}\n\
    caption{padding:.75rem 0 .5rem;text-align:left;font-size:1.125rem;font-weight:600}\n\
    th,td{padding:.4rem 1rem .4rem 0;border-top:1px solid var(--line);text-align:left;\
    white-space:nowrap}\n\
    thead th{border-top:0;color:var(--soft);font-size:.8125rem;font-weight:500}\n\
    tfoot td{border-top:2px solid var(--ink);font-weight:600}\n\
    tbody:empty::after{content:'None';color:var(--soft)}\n\
    tr>:last-child{padding-right:0}\n\
    .office tr>:nth-child(n+3),.statement tr>:nth-child(n+4),.adjustments tr>:nth-child(5),\
    .disputes tr>:nth-child(3),.bars tr>:nth-child(n+3){text-align:right}\n\
    .bars td:nth-child(2){width:100%}.disputes tbody th{padding-top:1rem;font-weight:500}\n\
    td a[href^='/record/']{display:inline-block;max-width:13ch;overflow:hidden;\
    text-overflow:ellipsis;vertical-align:bottom}\n\
    svg{display:block;width:100%;min-width:10rem;height:1rem;border-radius:.2rem;\
    background:var(--line)}\n\
    rect{fill:var(--c);shape-rendering:crispEdges}\n\
    ul{display:flex;flex-wrap:wrap;gap:.25rem 1.25rem;margin:-.5rem 0 2rem;padding:0;\
    list-style:none;color:var(--soft);font-size:.875rem}\n\
    li[class^=c]::before{content:'';display:inline-block;width:.75rem;height:.75rem;\
    margin-right:.4rem;border-radius:.2rem;background:var(--c)}\n\
    dl{display:flex;flex-wrap:wrap;gap:1rem 3rem;margin:0 0 1.5rem}\n\
    dt{color:var(--soft);font-size:.875rem}\n\
    dd{margin:0;font-size:1.5rem;font-variant-numeric:tabular-nums}\n\
    nav{display:flex;flex-wrap:wrap;gap:.5rem 1.5rem;margin-top:2rem}\n\
    @media print{:root{--ink:#000;--soft:#444;--line:#bbb;--page:#fff;--card:#fff;--link:#000}\
    body{font-size:10px}main{max-width:none;padding:0}nav{display:none}\
    .scroll{overflow:visible;padding:0;border:0}thead{display:table-header-group}\
    tr{break-inside:avoid}rect,li{print-color-adjust:exact}\
    td a[href^='/record/']{max-width:none}}\n\
";

/// Appends what stands above the title.
#[tactic(auto, unfolding(crate::specs::Frame::head_start))]
pub fn push_head_start(out: &mut Draft)
    ensures { out.new ≡ out.old ++ spec.head_start }
{
    out.push_str(HEAD_START);
}

/// Appends the style.
#[tactic(auto, unfolding(crate::specs::Frame::style))]
fn push_style(out: &mut Draft)
    ensures { out.new ≡ out.old ++ spec.style }
{
    out.push_str(STYLE);
}

/// Appends a page under a title, up to where its own text begins.
pub(crate) fn push_page_start(out: &mut Draft, title: &Draft)
    ensures { out.new ≡ out.old ++ spec.page_start title.now }
{
    push_head_start(out);
    out.push_draft(title);
    out.push_str("</title>\n<style>\n");
    push_style(out);
    out.push_str("</style>\n</head>\n<body>\n<main>\n");
}

/// Appends the end of a table without sums.
#[tactic(auto, unfolding(crate::specs::Frame::table_end))]
pub(crate) fn push_table_end(out: &mut Draft)
    ensures { out.new ≡ out.old ++ spec.table_end }
{
    out.push_str("</tbody>\n</table>\n</div>\n");
}
