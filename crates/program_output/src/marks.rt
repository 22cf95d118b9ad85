//! What marks the begin and the end of a dump: its headers and its trailers.

ghost use Rattle.std.specs.Prelude.{◌≡◌};
ghost use Rattle.program_output.specs.Marks as spec;
ghost use Rattle.program_output.specs.Marks.{is_torn, marks_with, no_marks};

use book_import::Receipt;
use smf_type30::Class;

/// How many headers and trailers a dump has so far.
#[derive(Clone, Copy)]
pub struct Marks {
    headers: u64,
    trailers: u64,
}

impl Marks {
    /// Neither of them.
    pub(crate) fn none() -> Marks
        ensures { result ≡ no_marks }
    {
        Marks {
            headers: 0,
            trailers: 0,
        }
    }

    /// The same with one more record, of this class.
    pub(crate) fn after(self, class: Class) -> Marks
        ensures { result ≡ marks_with class self }
    {
        match class {
            Class::DumpHeader => Marks {
                headers: self.headers.saturating_add(1),
                trailers: self.trailers,
            },
            Class::DumpTrailer => Marks {
                headers: self.headers,
                trailers: self.trailers.saturating_add(1),
            },
            _ => self,
        }
    }

    /// A dump of so many records that has these is torn.
    pub(crate) fn are_torn(self, records: u64) -> bool
        ensures { result ≡ is_torn records self }
    {
        records == 0 || self.trailers < self.headers
    }
}

/// A receipt counts no record.
fn counts_none(receipt: &Receipt) -> bool
    ensures { result ≡ spec.counts_none receipt.now }
{
    receipt.kept == 0
        && receipt.known == 0
        && receipt.unpriced == 0
        && receipt.other == 0
        && receipt.headers == 0
        && receipt.trailers == 0
        && receipt.lost == 0
        && receipt.continued == 0
        && receipt.damaged == 0
}

/// A dump that was imported up to its end is torn, by what its receipt counts.
pub fn is_receipt_torn(receipt: &Receipt) -> bool
    ensures { result ≡ spec.is_receipt_torn receipt.now }
{
    counts_none(receipt) || receipt.trailers < receipt.headers
}
