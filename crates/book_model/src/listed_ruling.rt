use smf_text::Name;

/// A ruling of the office, as the list of rulings shows it. Its days are counted from 1970-01-01.
#[derive(Drop)]
pub enum ListedRuling {
    /// A tariff that came as a text: its first day, and the text of its file.
    Tariff {
        day: i32,
        text: String,
    },
    /// A close: the number of the period, and the day through which it was closed.
    Close {
        period: u16,
        through: i32,
    },
    /// A choice: its number, from 1, the period that was open then, and the name of the record.
    Choice {
        number: u32,
        period: u16,
        name: [u8; 32],
    },
    /// A choice of none: its number among the choices, the period that was open then, and the name
    /// of a record of the work.
    Withheld {
        number: u32,
        period: u16,
        name: [u8; 32],
    },
    /// The second rule of identity was adopted while this period was open.
    Adoption {
        period: u16,
    },
    /// A tariff that another text took the place of: its first day, the period that was open then,
    /// and the text of its file.
    Replaced {
        day: i32,
        period: u16,
        text: String,
    },
    /// A credit: its number, from 1, its period, the centre, the amount in ten-thousandths of the
    /// money unit, and the reason.
    Credit {
        number: u32,
        period: u16,
        centre: Name,
        amount: i64,
        reason: String,
    },
}
