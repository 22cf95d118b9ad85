use smf_text::Name;

/// A ruling of the office, as its books are asked for it.
#[derive(Clone, Copy)]
pub enum Ruling<'a> {
    /// The tariff of a file, by the text of that.
    Tariff(&'a str),
    /// A close of the open period, by its number, through a day, which is counted from 1970-01-01.
    Close {
        period: u16,
        through: i32,
    },
    /// A choice, by the name of the record.
    Choose([u8; 32]),
    /// An adoption of a rule of identity, 1 or 2.
    Adopt(u8),
    /// The tariff of a file, by the text of that, in the place of the one that begins on its day.
    Replace(&'a str),
    /// A choice of none, by the name of a record of the work.
    Withhold([u8; 32]),
    /// A credit of the open period, by its number: the centre, the amount in ten-thousandths of the
    /// money unit, which is taken from what the centre owes, and the reason.
    Credit {
        period: u16,
        centre: Name,
        amount: i64,
        reason: &'a str,
    },
}
