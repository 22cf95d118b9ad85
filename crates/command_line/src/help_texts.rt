//! What help says of words and options. It stands apart from the table of the commands: that is
//! proved to be the table of `Known.antt`, byte for byte, and no clause speaks of help. To lend a
//! table takes longer to prove with each text in it.

/// A word or an option whose help it is.
#[derive(Clone, Copy)]
pub(crate) enum Help {
    Book,
    Dump,
    Tariff,
    Copy,
    Period,
    Credited,
    Amount,
    Reason,
    Date,
    FirstDay,
    Replaced,
    Sha256,
    RecordName,
    Names,
    Dumped,
    Imported,
    Layout,
    Quiet,
    Whole,
    WithNames,
    Explain,
    DryRun,
    Near,
    Replace,
    NoneOf,
    By,
    Served,
    Note,
    Csv,
    DisputeCsv,
    EntryCsv,
    Html,
    Wait,
    Centre,
    Cpu,
    Excp,
    Record,
    Prices,
    OtherPrices,
    Port,
    Requests,
    NumberKind,
    Number,
}

impl Help {
    pub(crate) fn text(self) -> &'static str {
        match self {
            Help::Book => "The file of the books",
            Help::Dump => "The file of the dump of SMF records",
            Help::Tariff => "The file of the tariff",
            Help::Copy => "The file of the copy, which is not there yet",
            Help::Period => "The number of the period, from 1",
            Help::Credited => "The centre that is credited",
            Help::Amount => {
                "What it owes less, such as 12.5000; what it owes more stands behind --, as -3.0000"
            }
            Help::Reason => "Why, in 1 to 200 printable characters: it stands on the bill",
            Help::Date => "The last day of the period, such as 2024-01-31",
            Help::FirstDay => "The tariff's first day, such as 2024-01-01",
            Help::Replaced => "The file that another took the place of, as the rulings show it",
            Help::Sha256 => "The record's name, as the list of disputes shows it",
            Help::RecordName => {
                "The record's name, as details and the lists of disputes and adjustments show it"
            }
            Help::Names => "A file of records' names in place of SHA256, one a line",
            Help::Dumped => "With --none, a dump in place of SHA256: the works of its records",
            Help::Imported => {
                "With --none, an entry of the journal: the works of the records that came by it"
            }
            Help::Layout => {
                "How the dump is laid out: segments one after another (rdw), or in blocks (bdw)"
            }
            Help::Quiet => "Shows no progress on a terminal",
            Help::Whole => {
                "The dump has to be whole: it has a record, and as many trailers as headers"
            }
            Help::WithNames => "Adds the name of each record that could be kept",
            Help::Explain => {
                "Says why it failed and what to do though standard error is no terminal"
            }
            Help::DryRun => "Prints what would change, and changes nothing",
            Help::Near => "Refuses a day that is far after the newest record, or after today",
            Help::Replace => "Puts it in the place of the tariff that begins on its first day",
            Help::NoneOf => "Charges no record of that work, until one of them is chosen",
            Help::By => {
                "Who does it, in up to 40 printable characters: it stands in the journal for good"
            }
            Help::Served => "Who is named in the journal for what is asked over HTTP",
            Help::Note => "A remark in up to 200 printable characters, for the journal",
            Help::Csv => "As comma-separated values, without the total",
            Help::DisputeCsv => "As comma-separated values, a line for each record",
            Help::EntryCsv => "As comma-separated values, a line for each entry",
            Help::Html => "As a page for a browser and for paper",
            Help::Wait => {
                "For how many seconds to wait while another program uses the books, up to 3600"
            }
            Help::Centre => "Only what is charged to this centre",
            Help::Cpu => "Ten-thousandths of the money unit for a CPU second, up to 100000000",
            Help::Excp => "Ten-thousandths of the money unit for 1,000 blocks, up to 100000000",
            Help::Record => "Ten-thousandths of the money unit for a record, up to 100000000",
            Help::Prices => "A tariff file in place of rates, in force on every day",
            Help::OtherPrices => {
                "The same records as they would be charged by this tariff file; nothing is written"
            }
            Help::Port => "The port on 127.0.0.1, 1 to 65535",
            Help::Requests => "After how many connections to end, up to 1000000",
            Help::NumberKind => "What kind of number it is, or a word that has none",
            Help::Number => "The number on standard error or in a list; a word has none",
        }
    }
    /// What help calls the value of a word or an option that has one.
    pub(crate) fn shown(self) -> &'static str {
        match self {
            Help::Book => "BOOK",
            Help::Dump | Help::Tariff | Help::Copy => "FILE",
            Help::Names | Help::Dumped | Help::Prices | Help::OtherPrices => "FILE",
            Help::Period => "PERIOD",
            Help::Date | Help::FirstDay => "DATE",
            Help::Sha256 | Help::RecordName | Help::Replaced => "SHA256",
            Help::Layout => "LAYOUT",
            Help::Wait => "SECONDS",
            Help::Centre | Help::Credited => "CENTRE",
            Help::Amount => "AMOUNT",
            Help::Reason => "REASON",
            Help::Cpu | Help::Excp | Help::Record => "RATE",
            Help::Port => "PORT",
            Help::Requests | Help::Number | Help::Imported => "NUMBER",
            Help::By | Help::Served => "NAME",
            Help::Note => "TEXT",
            Help::NumberKind => "KIND",
            Help::Quiet | Help::Whole | Help::WithNames => "",
            Help::Explain | Help::DryRun | Help::Near => "",
            Help::Replace | Help::NoneOf => "",
            Help::Csv | Help::DisputeCsv | Help::EntryCsv | Help::Html => "",
        }
    }
}
