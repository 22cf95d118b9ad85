//! The command that `clap` found in the words.

ghost use Rattle.std.specs.Prelude.{◌≡◌, ◌≢◌, [], ◌∷◌, ◌++◌, IfSome, IsSome, IsSomeAnd, codes};
ghost use Rattle.std.specs.Prelude.{false, is_some, true};
ghost use Rattle.std.specs.List.{list_all};
ghost use Rattle.std.specs.Option.{option_map_or};
ghost use Rattle.clap.specs.Simple.{subcommand_rows_of};
ghost use Rattle.clap.specs.Walk.{first_of};
ghost use Rattle.command_line.specs.Given.{HasWord, HasWords, HasWordsOf, NoneIs, bookless, changes};
ghost use Rattle.command_line.specs.Given.{services};
ghost use Rattle.command_line.specs.Known as known;
ghost use Rattle.command_line.specs.Requests.{IsAtOnce, IsLeftOut, IsOfBooks, IsOfCommand, IsRequest};
ghost use Rattle.command_line.specs.Requests.{IsDryRun, IsFlag, IsNear, IsPlainRequest, IsRuling};
ghost use Rattle.command_line.specs.Requests.{IsText, rows_in};
ghost use Rattle.command_line.specs.Requests as spec;

use crate::given_words::{
    dump_in, flag_in, kind_in, layout_in, note_in, number_in, rate_in, requests_in, text_in,
    wait_in,
};
use crate::report_words::{report_in, statement_in};
use crate::request::{BookRequest, Request, Ruling, Unclear};
use book_reports::StatementForm;
use clap::ArgMatches;
use report_rows::named_report;

/// The command with its words. None would be a word without its value, which the command line does
/// not let pass.
pub(crate) fn matched_request<'a>(matches: &ArgMatches<'a>) -> Option<Request<'a>>
    ensures request { IfSome result (λ request. IsSomeAnd (subcommand_rows_of matches.now)
        (λ met. IsRequest met.0 met.1 request)) }
    ensures some { IsSomeAnd (subcommand_rows_of matches.now) (λ met. HasWordsOf met.0 met.1)
        → IsSome result }
{
    let (name, found) = matches.subcommand()?;
    if has_plain_period(found) {
        plain_in(name, found)
    } else {
        Some(Request::Unclear(Unclear::Period))
    }
}

/// A number is written plainly: without a sign, and without a 0 before other digits.
fn is_plain(text: &str) -> bool
    ensures { result ≡ spec.is_plain text.now }
{
    text == "0" || matches!(text.as_bytes().first(), Some(b'1'..=b'9'))
}

/// So is the period, where one is named.
fn has_plain_period(found: &ArgMatches<'_>) -> bool
    ensures { result ≡ spec.has_plain_period (rows_in found.now) }
{
    match text_in(found, "period") {
        Some(text) => is_plain(text),
        None => true,
    }
}

/// The most characters of a person, and of a remark.
const MOST_PERSON: usize = 40;

const MOST_REMARK: usize = 200;

/// A character is one from blank to tilde.
fn is_printable(character: u8) -> bool
    ensures { result ≡ spec.is_printable character }
{
    b' ' <= character && character <= b'~'
}

/// Each character of a text is.
fn has_printable(text: &str) -> bool
    ensures { result ≡ list_all spec.is_printable text.now }
{
    text.bytes().all(is_printable)
}

/// The text of an argument, where it is given, is no longer than that and printable.
fn is_within(found: &ArgMatches<'_>, name: &str, most: usize) -> bool
    ensures { result ≡ option_map_or (spec.is_printable_within most)
        (first_of name.now (rows_in found.now)) true }
{
    match text_in(found, name) {
        Some(text) => text.len() <= most && has_printable(text),
        None => true,
    }
}

/// So are the person and the remark.
fn has_plain_note(found: &ArgMatches<'_>) -> bool
    ensures { result ≡ spec.has_plain_note (rows_in found.now) }
{
    is_within(found, "by", MOST_PERSON) && is_within(found, "note", MOST_REMARK)
}

/// The command with its words, whose period is written plainly.
fn plain_in<'a>(name: &str, found: &ArgMatches<'a>) -> Option<Request<'a>>
    ensures request { IfSome result (IsPlainRequest name.now (rows_in found.now)) }
    ensures some { HasWordsOf name.now (rows_in found.now) → IsSome result }
{
    if has_plain_note(found) {
        request_in(name, found)
    } else {
        Some(Request::Unclear(Unclear::Note))
    }
}

fn request_in<'a>(name: &str, found: &ArgMatches<'a>) -> Option<Request<'a>>
    ensures request { IfSome result (IsOfCommand name.now (rows_in found.now)) }
    ensures some { HasWordsOf name.now (rows_in found.now) → IsSome result }
{
    match name {
        "trial" => trial_in(found),
        "check" => check_in(found),
        "explain" => explain_in(found),
        _ => change_in(name, found),
    }
}

/// New books, an import or a ruling.
fn change_in<'a>(name: &str, found: &ArgMatches<'a>) -> Option<Request<'a>>
    ensures request { IfSome result (IsOfCommand name.now (rows_in found.now)) }
    ensures some { HasWordsOf name.now (rows_in found.now)
        → NoneIs bookless name.now → IsSome result }
{
    match name {
        "init" => at_once_in(found, Some(BookRequest::Init)),
        "tariff" => of_books_in(found, tariff_in(found)),
        "import" => of_books_in(found, import_in(found)),
        "close" => of_books_in(found, close_in(found)),
        "choose" => choice_in(found),
        "adopt" => of_books_in(found, ruling_in(found, false, Ruling::Adopt)),
        "credit" => of_books_in(found, credit_in(found)),
        _ => service_in(name, found),
    }
}

/// A statement, an upgrade, an audit, a backup or a service.
fn service_in<'a>(name: &str, found: &ArgMatches<'a>) -> Option<Request<'a>>
    ensures request { IfSome result (IsOfCommand name.now (rows_in found.now)) }
    ensures some { HasWordsOf name.now (rows_in found.now)
        → NoneIs (bookless ++ changes) name.now → IsSome result }
{
    match name {
        "statement" => of_books_in(found, statement_in(found)),
        "upgrade" => of_books_in(found, Some(BookRequest::Upgrade)),
        "audit" => of_books_in(found, audit_in(found)),
        "backup" => of_books_in(found, back_up_in(found)),
        "serve" => at_once_in(found, serve_in(found)),
        _ => named_in(name, found),
    }
}

/// The report is asked for as a table and as a page.
fn is_both(asked: BookRequest<'_>) -> bool
    ensures { result ≡ spec.is_both asked.entry }
{
    match asked {
        BookRequest::Report(report) => report.html && is_table(report.form),
        _ => false,
    }
}

fn is_table(form: StatementForm) -> bool
    ensures { result ≡ spec.is_table form }
{
    match form {
        StatementForm::Text => false,
        StatementForm::Table => true,
    }
}

/// Another report, by its word. As a table and as a page at once it is unclear.
fn named_in<'a>(name: &str, found: &ArgMatches<'a>) -> Option<Request<'a>>
    ensures request { name.now ≢ codes "statement"
        → IfSome result (IsOfCommand name.now (rows_in found.now)) }
    ensures some { HasWordsOf name.now (rows_in found.now)
        → NoneIs (bookless ++ changes ++ services) name.now → IsSome result }
{
    let report = named_report(name)?;
    let asked = report_in(report, found)?;
    if is_both(asked) {
        return Some(Request::Unclear(Unclear::Form));
    }
    of_books_in(found, Some(asked))
}

/// The request to books, where there is something asked of them, and how long it waits for them.
fn of_books_in<'a>(found: &ArgMatches<'a>, asked: Option<BookRequest<'a>>) -> Option<Request<'a>>
    ensures request { (name : _) → IfSome asked.entry (IsOfBooks name (rows_in found.now))
        → IfSome result (IsOfCommand name (rows_in found.now)) }
    ensures some { HasWord (rows_in found.now) known.book
        → HasWord (rows_in found.now) known.wait → IsSome asked.entry → IsSome result }
{
    let book = text_in(found, "book")?;
    let wait = wait_in(found)?;
    let note = note_in(found);
    let asked = asked?;
    Some(Request::OfBooks {
        book,
        wait,
        note,
        asked,
    })
}

/// The request of a command that waits for no books.
fn at_once_in<'a>(found: &ArgMatches<'a>, asked: Option<BookRequest<'a>>) -> Option<Request<'a>>
    ensures request { (name : _) → IsAtOnce name
        → IfSome asked.entry (IsOfBooks name (rows_in found.now))
        → IfSome result (IsOfCommand name (rows_in found.now)) }
    ensures some { HasWord (rows_in found.now) known.book → IsSome asked.entry → IsSome result }
{
    let book = text_in(found, "book")?;
    let note = note_in(found);
    let asked = asked?;
    Some(Request::OfBooks {
        book,
        wait: 0,
        note,
        asked,
    })
}

/// No rate is above 0.
fn are_none(cpu: u64, excp: u64, price: u64) -> bool
    ensures { result ≡ spec.are_none cpu excp price }
{
    cpu == 0 && excp == 0 && price == 0
}

/// A trial at rates, or under the tariff that is named. With both it is unclear.
fn trial_in<'a>(found: &ArgMatches<'a>) -> Option<Request<'a>>
    ensures request { IfSome result (IsOfCommand (codes "trial") (rows_in found.now)) }
    ensures some { HasWords (rows_in found.now) (known.layouts ∷ known.rate_of (codes "cpu")
        ∷ known.rate_of (codes "excp") ∷ known.rate_of (codes "record") ∷ known.prices
        ∷ known.whole ∷ known.explain ∷ [])
        → IsSome result }
{
    let layout = layout_in(found)?;
    let cpu = rate_in(found, "cpu")?;
    let excp = rate_in(found, "excp")?;
    let price = rate_in(found, "record")?;
    let whole = flag_in(found, "whole")?;
    match text_in(found, "tariff") {
        None => Some(Request::Trial {
            layout,
            cpu,
            excp,
            record: price,
            whole,
        }),
        Some(file) => {
            if are_none(cpu, excp, price) {
                Some(Request::TrialUnder {
                    layout,
                    file,
                    whole,
                })
            } else {
                Some(Request::Unclear(Unclear::Prices))
            }
        }
    }
}

fn check_in<'a>(found: &ArgMatches<'a>) -> Option<Request<'a>>
    ensures request { IfSome result (IsOfCommand (codes "check") (rows_in found.now)) }
    ensures some { HasWord (rows_in found.now) known.file
        → HasWord (rows_in found.now) known.layouts → HasWord (rows_in found.now) known.quiet
        → HasWord (rows_in found.now) known.whole → HasWord (rows_in found.now) known.with_names
        → IsSome result }
{
    let dump = dump_in(found)?;
    let names = flag_in(found, "names")?;
    Some(Request::Check { dump, names })
}

fn import_in<'a>(found: &ArgMatches<'a>) -> Option<BookRequest<'a>>
    ensures asked { IfSome result (IsOfBooks (codes "import") (rows_in found.now)) }
    ensures some { HasWord (rows_in found.now) known.file
        → HasWord (rows_in found.now) known.layouts → HasWord (rows_in found.now) known.quiet
        → HasWord (rows_in found.now) known.whole → IsSome result }
{
    Some(BookRequest::Import(dump_in(found)?))
}

fn tariff_in<'a>(found: &ArgMatches<'a>) -> Option<BookRequest<'a>>
    ensures asked { IfSome result (IsOfBooks (codes "tariff") (rows_in found.now)) }
    ensures some { HasWord (rows_in found.now) known.file
        → HasWord (rows_in found.now) known.dry_run → HasWord (rows_in found.now) known.near
        → HasWord (rows_in found.now) known.replace → IsSome result }
{
    let file = text_in(found, "file")?;
    let near = flag_in(found, "near")?;
    let replace = flag_in(found, "replace")?;
    ruling_in(found, near, submitted(replace, file))
}

/// A tariff, or one in the place of another.
fn submitted<'a>(replace: bool, file: &'a str) -> Ruling<'a>
    ensures ruling { (rows : _) → IsText rows (codes "file") file.entry
        → IsFlag rows (codes "replace") replace → IsRuling (codes "tariff") rows result }
    ensures near { (rows : _) (near : _) → IsFlag rows (codes "near") near
        → IsNear rows result near }
{
    if replace {
        return Ruling::Replace { file };
    }
    Ruling::Tariff { file }
}

fn close_in<'a>(found: &ArgMatches<'a>) -> Option<BookRequest<'a>>
    ensures asked { IfSome result (IsOfBooks (codes "close") (rows_in found.now)) }
    ensures some { HasWord (rows_in found.now) known.period
        → HasWord (rows_in found.now) known.date
        → HasWord (rows_in found.now) known.dry_run → HasWord (rows_in found.now) known.near
        → IsSome result }
{
    let period = number_in(found, "period")?;
    let date = text_in(found, "date")?;
    let near = flag_in(found, "near")?;
    ruling_in(found, near, Ruling::Close { period, date })
}

fn credit_in<'a>(found: &ArgMatches<'a>) -> Option<BookRequest<'a>>
    ensures asked { IfSome result (IsOfBooks (codes "credit") (rows_in found.now)) }
    ensures some { HasWord (rows_in found.now) known.period
        → HasWord (rows_in found.now) known.credited → HasWord (rows_in found.now) known.amount
        → HasWord (rows_in found.now) known.reason → HasWord (rows_in found.now) known.dry_run
        → IsSome result }
{
    let period = number_in(found, "period")?;
    let centre = text_in(found, "centre")?;
    let amount = text_in(found, "amount")?;
    let reason = text_in(found, "reason")?;
    ruling_in(
        found,
        false,
        Ruling::Credit {
            period,
            centre,
            amount,
            reason,
        },
    )
}

/// The ruling, or one that is made only where its day is not far.
fn ruled<'a>(near: bool, ruling: Ruling<'a>) -> BookRequest<'a>
    ensures { (name : _) (rows : _) → IsRuling name rows ruling.entry → IsDryRun rows false
        → IsNear rows ruling.entry near → IsOfBooks name rows result }
{
    if near {
        return BookRequest::RuleNear(ruling);
    }
    BookRequest::Rule(ruling)
}

/// The ruling, or a dry run of it: that says of a day that it is far, and refuses none for it.
fn ruling_in<'a>(found: &ArgMatches<'_>, near: bool, ruling: Ruling<'a>) -> Option<BookRequest<'a>>
    ensures asked { (name : _) → IsRuling name (rows_in found.now) ruling.entry
        → IsNear (rows_in found.now) ruling.entry near
        → IfSome result (IsOfBooks name (rows_in found.now)) }
    ensures some { HasWord (rows_in found.now) known.dry_run → IsSome result }
{
    let tried = flag_in(found, "dry-run")?;
    if tried {
        return Some(BookRequest::DryRun(ruling));
    }
    Some(ruled(near, ruling))
}

/// Choices, or that none of the works of a dump or of an import counts.
fn choice_in<'a>(found: &ArgMatches<'a>) -> Option<Request<'a>>
    ensures request { IfSome result (IsOfCommand (codes "choose") (rows_in found.now)) }
    ensures some { HasWord (rows_in found.now) known.book
        → HasWord (rows_in found.now) known.layouts → HasWord (rows_in found.now) known.dry_run
        → HasWord (rows_in found.now) known.none → HasWord (rows_in found.now) known.wait
        → IsSome result }
{
    match text_in(found, "dump") {
        Some(file) => dumped_in(found, file),
        None => undumped_in(found),
    }
}

/// Choices, or that none of the works that came by an import counts.
fn undumped_in<'a>(found: &ArgMatches<'a>) -> Option<Request<'a>>
    ensures request { IsLeftOut (rows_in found.now) (codes "dump")
        → IfSome result (IsOfCommand (codes "choose") (rows_in found.now)) }
    ensures some { HasWord (rows_in found.now) known.book
        → HasWord (rows_in found.now) known.dry_run → HasWord (rows_in found.now) known.none
        → HasWord (rows_in found.now) known.wait → IsSome result }
{
    match text_in(found, "import") {
        Some(number) => imported_in(found, number),
        None => chosen_in(found),
    }
}

/// An argument was given.
fn is_given(found: &ArgMatches<'_>, name: &str) -> bool
    ensures { result ≡ is_some (first_of name.now (rows_in found.now)) }
{
    text_in(found, name).is_some()
}

/// A record is named, or a list of names.
fn names_some(found: &ArgMatches<'_>) -> bool
    ensures { result ≡ spec.names_some (rows_in found.now) }
{
    is_given(found, "sha256") || is_given(found, "from")
}

/// A record is named, a list of names, or an import.
fn names_others(found: &ArgMatches<'_>) -> bool
    ensures { result ≡ spec.names_others (rows_in found.now) }
{
    names_some(found) || is_given(found, "import")
}

/// What is asked by a dump: that none of its works counts. Beside other choices, as a dry run or without
/// `--none` it is unclear.
fn dumped_in<'a>(found: &ArgMatches<'a>, file: &'a str) -> Option<Request<'a>>
    ensures request { IsText (rows_in found.now) (codes "dump") file.entry
        → IfSome result (IsOfCommand (codes "choose") (rows_in found.now)) }
    ensures some { HasWord (rows_in found.now) known.book
        → HasWord (rows_in found.now) known.layouts → HasWord (rows_in found.now) known.dry_run
        → HasWord (rows_in found.now) known.none → HasWord (rows_in found.now) known.wait
        → IsSome result }
{
    let layout = layout_in(found)?;
    let tried = flag_in(found, "dry-run")?;
    let none = flag_in(found, "none")?;
    if !none {
        return Some(Request::Unclear(Unclear::Dump));
    }
    if tried {
        return Some(Request::Unclear(Unclear::Dump));
    }
    if names_others(found) {
        return Some(Request::Unclear(Unclear::Dump));
    }
    of_books_in(found, Some(BookRequest::WithholdDump { file, layout }))
}

/// What is asked by an import: that none of the works that came by it counts. Beside other choices, as
/// a dry run or without `--none` it is unclear.
fn imported_in<'a>(found: &ArgMatches<'a>, number: &'a str) -> Option<Request<'a>>
    ensures request { IsLeftOut (rows_in found.now) (codes "dump")
        → IsText (rows_in found.now) (codes "import") number.entry
        → IfSome result (IsOfCommand (codes "choose") (rows_in found.now)) }
    ensures some { HasWord (rows_in found.now) known.book
        → HasWord (rows_in found.now) known.dry_run → HasWord (rows_in found.now) known.none
        → HasWord (rows_in found.now) known.wait → IsSome result }
{
    let tried = flag_in(found, "dry-run")?;
    let withheld = flag_in(found, "none")?;
    if !withheld {
        return Some(Request::Unclear(Unclear::Import));
    }
    if tried {
        return Some(Request::Unclear(Unclear::Import));
    }
    if names_some(found) {
        return Some(Request::Unclear(Unclear::Import));
    }
    of_books_in(found, Some(BookRequest::WithholdImport { number }))
}

/// One choice, or those of the list that is named. With both, or neither, it is unclear.
fn chosen_in<'a>(found: &ArgMatches<'a>) -> Option<Request<'a>>
    ensures request { IsLeftOut (rows_in found.now) (codes "dump")
        → IsLeftOut (rows_in found.now) (codes "import")
        → IfSome result (IsOfCommand (codes "choose") (rows_in found.now)) }
    ensures some { HasWord (rows_in found.now) known.book
        → HasWord (rows_in found.now) known.dry_run → HasWord (rows_in found.now) known.none
        → HasWord (rows_in found.now) known.wait → IsSome result }
{
    let unclear = Some(Request::Unclear(Unclear::Choice));
    let none = flag_in(found, "none")?;
    match text_in(found, "sha256") {
        Some(name) => match text_in(found, "from") {
            Some(_) => unclear,
            None => of_books_in(found, ruling_in(found, false, named_choice(none, name))),
        },
        None => match text_in(found, "from") {
            Some(file) => listed_in(found, none, file),
            None => unclear,
        },
    }
}

/// The choice of a record, or that of none of its work.
fn named_choice<'a>(none: bool, name: &'a str) -> Ruling<'a>
    ensures ruling { (rows : _) → IsText rows (codes "sha256") name.entry
        → IsLeftOut rows (codes "from") → IsLeftOut rows (codes "dump")
        → IsLeftOut rows (codes "import") → IsFlag rows (codes "none") none → IsRuling (codes "choose") rows result }
    ensures near { (rows : _) → IsNear rows result false }
{
    if none {
        return Ruling::Withhold { name };
    }
    Ruling::Choose { name }
}

/// The choices of a list, or a dry run of them.
fn listed<'a>(tried: bool, none: bool, file: &'a str) -> BookRequest<'a>
    ensures { (rows : _) → IsLeftOut rows (codes "sha256") → IsText rows (codes "from") file.entry
        → IsLeftOut rows (codes "dump") → IsLeftOut rows (codes "import")
        → IsFlag rows (codes "none") none → IsDryRun rows tried
        → IsOfBooks (codes "choose") rows result }
{
    if tried {
        return BookRequest::TryListed { none, file };
    }
    BookRequest::ChooseListed { none, file }
}

/// What is asked by a list.
fn listed_in<'a>(found: &ArgMatches<'a>, none: bool, file: &'a str) -> Option<Request<'a>>
    ensures request { IsLeftOut (rows_in found.now) (codes "sha256")
        → IsText (rows_in found.now) (codes "from") file.entry
        → IsLeftOut (rows_in found.now) (codes "dump")
        → IsLeftOut (rows_in found.now) (codes "import")
        → IsFlag (rows_in found.now) (codes "none") none
        → IfSome result (IsOfCommand (codes "choose") (rows_in found.now)) }
    ensures some { HasWord (rows_in found.now) known.book
        → HasWord (rows_in found.now) known.dry_run → HasWord (rows_in found.now) known.wait
        → IsSome result }
{
    let tried = flag_in(found, "dry-run")?;
    of_books_in(found, Some(listed(tried, none, file)))
}

fn audit_in<'a>(found: &ArgMatches<'_>) -> Option<BookRequest<'a>>
    ensures asked { IfSome result (IsOfBooks (codes "audit") (rows_in found.now)) }
    ensures some { HasWord (rows_in found.now) known.quiet → IsSome result }
{
    let quiet = flag_in(found, "quiet")?;
    Some(BookRequest::Audit { quiet })
}

fn back_up_in<'a>(found: &ArgMatches<'a>) -> Option<BookRequest<'a>>
    ensures asked { IfSome result (IsOfBooks (codes "backup") (rows_in found.now)) }
    ensures some { HasWord (rows_in found.now) known.file → HasWord (rows_in found.now) known.quiet
        → IsSome result }
{
    let copy = text_in(found, "file")?;
    let quiet = flag_in(found, "quiet")?;
    Some(BookRequest::BackUp { copy, quiet })
}

fn serve_in<'a>(found: &ArgMatches<'_>) -> Option<BookRequest<'a>>
    ensures asked { IfSome result (IsOfBooks (codes "serve") (rows_in found.now)) }
    ensures some { HasWord (rows_in found.now) known.port
        → HasWord (rows_in found.now) known.requests → IsSome result }
{
    let port = number_in(found, "port")?;
    let requests = requests_in(found)?;
    Some(BookRequest::Serve { port, requests })
}

fn explain_in<'a>(found: &ArgMatches<'_>) -> Option<Request<'a>>
    ensures request { IfSome result (IsOfCommand (codes "explain") (rows_in found.now)) }
    ensures some { HasWord (rows_in found.now) known.number_kind
        → HasWord (rows_in found.now) known.kind_number → IsSome result }
{
    let kind = kind_in(found)?;
    let number = number_in(found, "number")?;
    Some(Request::Explain { kind, number })
}
