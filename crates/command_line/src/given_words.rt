//! The values of single words, and of a few that go together.

ghost use Rattle.std.specs.Prelude.{◌≡◌, None, IfSome, IsSome, codes, pos};
ghost use Rattle.clap.specs.Walk.{first_of};
ghost use Rattle.command_line.specs.Given.{HasNumber, HasRate, HasWord};
ghost use Rattle.command_line.specs.Known as known;
ghost use Rattle.command_line.specs.Requests.{IsDump, IsFlag, IsKind, IsLayout, IsLeftOut, IsNoted};
ghost use Rattle.command_line.specs.Requests.{IsNumber, IsText, NamesPeriod, rows_in};

use crate::request::{DumpFile, NoteWords, NumberKind, PeriodWords};
use clap::ArgMatches;
use smf_frames::Layout;

pub(crate) fn text_in<'a>(found: &ArgMatches<'a>, name: &str) -> Option<&'a str>
    ensures text { IfSome result (IsText (rows_in found.now) name.now) }
    ensures some { IsSome (first_of name.now (rows_in found.now)) → IsSome result }
    ensures left_out { result ≡ None → IsLeftOut (rows_in found.now) name.now }
{
    found.get_str(name)
}

pub(crate) fn number_in(found: &ArgMatches<'_>, name: &str) -> Option<u16>
    ensures number { IfSome result (IsNumber (rows_in found.now) name.now) }
    ensures some { HasNumber (rows_in found.now) name.now (pos 65535) → IsSome result }
{
    found.get_one(name)
}

pub(crate) fn rate_in(found: &ArgMatches<'_>, name: &str) -> Option<u64>
    ensures rate { IfSome result (IsNumber (rows_in found.now) name.now) }
    ensures some { HasRate (rows_in found.now) name.now → IsSome result }
{
    found.get_one(name)
}

pub(crate) fn flag_in(found: &ArgMatches<'_>, name: &str) -> Option<bool>
    ensures flag { IfSome result (IsFlag (rows_in found.now) name.now) }
    ensures some { HasWord (rows_in found.now) (known.flag name.now) → IsSome result }
{
    found.get_one(name)
}

pub(crate) fn wait_in(found: &ArgMatches<'_>) -> Option<u16>
    ensures number { IfSome result (IsNumber (rows_in found.now) (codes "wait")) }
    ensures some { HasWord (rows_in found.now) known.wait → IsSome result }
{
    found.get_one("wait")
}

pub(crate) fn requests_in(found: &ArgMatches<'_>) -> Option<u32>
    ensures number { IfSome result (IsNumber (rows_in found.now) (codes "requests")) }
    ensures some { HasWord (rows_in found.now) known.requests → IsSome result }
{
    found.get_one("requests")
}

pub(crate) fn layout_in(found: &ArgMatches<'_>) -> Option<Layout>
    ensures layout { IfSome result (IsLayout (rows_in found.now)) }
    ensures some { HasWord (rows_in found.now) known.layouts → IsSome result }
{
    match text_in(found, "layout")? {
        "rdw" => Some(Layout::Rdw),
        "bdw" => Some(Layout::Bdw),
        _ => None,
    }
}

pub(crate) fn kind_in(found: &ArgMatches<'_>) -> Option<NumberKind>
    ensures kind { IfSome result (IsKind (rows_in found.now)) }
    ensures some { HasWord (rows_in found.now) known.number_kind → IsSome result }
{
    match text_in(found, "kind")? {
        "frame" => Some(NumberKind::Frame),
        "ledger" => Some(NumberKind::Ledger),
        "tariff" => Some(NumberKind::Tariff),
        "damaged" => Some(NumberKind::Damaged),
        "io" => Some(NumberKind::Io),
        "busy" => Some(NumberKind::Busy),
        "exists" => Some(NumberKind::Exists),
        "word" => Some(NumberKind::Word),
        "unsound" => Some(NumberKind::Unsound),
        "log" => Some(NumberKind::Log),
        "layout" => Some(NumberKind::Layout),
        "far" => Some(NumberKind::Far),
        "torn" => Some(NumberKind::Torn),
        _ => None,
    }
}

/// The period that is named, of the centre that is named or else of the whole office.
pub(crate) fn period_in<'a>(found: &ArgMatches<'a>) -> Option<PeriodWords<'a>>
    ensures period { IfSome result (NamesPeriod (rows_in found.now)) }
    ensures some { HasWord (rows_in found.now) known.period → IsSome result }
{
    let number = number_in(found, "period")?;
    let centre = text_in(found, "centre");
    Some(PeriodWords { number, centre })
}

/// Who asks, and why, where the words say it.
pub(crate) fn note_in<'a>(found: &ArgMatches<'a>) -> NoteWords<'a>
    ensures { IsNoted (rows_in found.now) result }
{
    let by = text_in(found, "by");
    let remark = text_in(found, "note");
    NoteWords { by, remark }
}

pub(crate) fn dump_in<'a>(found: &ArgMatches<'a>) -> Option<DumpFile<'a>>
    ensures dump { IfSome result (IsDump (rows_in found.now)) }
    ensures some { HasWord (rows_in found.now) known.file
        → HasWord (rows_in found.now) known.layouts → HasWord (rows_in found.now) known.quiet
        → HasWord (rows_in found.now) known.whole → IsSome result }
{
    Some(DumpFile {
        file: text_in(found, "file")?,
        layout: layout_in(found)?,
        quiet: flag_in(found, "quiet")?,
        whole: flag_in(found, "whole")?,
    })
}
