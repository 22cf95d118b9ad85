//! What a report is about.

use smf_text::Name;

/// What a report is about, by its shape.
#[derive(Clone, Copy)]
pub enum About {
    /// A period: of one centre, or where none is named of the whole office.
    OfCentre {
        /// The number of the period.
        period: u16,
        /// The centre, `None` for the whole office.
        centre: Option<Name>,
    },
    /// A period, by its number.
    OfPeriod(u16),
    /// The books.
    OfOffice,
    /// The tariff that begins on a day, counted from 1970-01-01.
    OfDay(i32),
    /// A tariff that another took the place of.
    OfReplaced {
        /// The day on which the tariff begins, counted from 1970-01-01.
        day: i32,
        /// The SHA-256 of its text.
        digest: [u8; 32],
    },
    /// The record of a name.
    OfRecord([u8; 32]),
}
