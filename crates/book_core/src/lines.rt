//! Adjustment lines: what each says of its record, and their order.

ghost use Rattle.std.specs.Prelude.{◌≡◌, length, map};
ghost use Rattle.std.specs.List.{IsDistinct};
ghost use Rattle.book_model.specs.Lines as spec;
ghost use Rattle.book_model.specs.Words.{by_line, same_bytes, members, set_of};

use crate::details::copied;
use book_model::Line;
use smf_type30::Type30;
use tariff_rules::Priced;

/// The line of a record, a plus or a minus, by the record's name and by what it costs.
pub fn line_with(plus: bool, name: &[u8; 32], usage: &Type30<'_>, priced: Priced) -> Line
    ensures { result ≡ spec.line_with plus name.now usage.now priced }
{
    Line {
        plus,
        name: *name,
        job: copied(usage.job()),
        program: copied(usage.program()),
        job_id: copied(usage.job_id()),
        step: usage.ended_step(),
        priced,
    }
}

/// Puts lines of different names in the order in which they are read: by day, then name.
pub fn sort_lines(lines: &mut [Line])
    requires { IsDistinct same_bytes (map (λ line. line.name) lines.old) }
    ensures sorted { lines.new ≡ members (set_of by_line lines.old) }
    ensures len { length lines.new ≡ length lines.old }
{
    lines.sort_unstable_by_key(|line| (line.priced.day, line.name));
}
