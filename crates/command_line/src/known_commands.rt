//! The commands that the program knows, with their words and options.

use crate::help_texts::Help;

/// A command of the program.
#[derive(Clone, Copy)]
pub(crate) struct KnownCommand {
    pub(crate) name: &'static str,
    pub(crate) about: &'static str,
    /// Its words in their order, and its options in the order of its help.
    pub(crate) words: &'static [Argument],
}

/// A word or an option of a command: its name, its help, and what its value may be.
#[derive(Clone, Copy)]
pub(crate) enum Argument {
    /// An option without a value.
    Flag(&'static str, Help),
    /// A value in its place.
    InPlace(&'static str, Help, ValueKind),
    /// A value in its place, the last one, and what it is where it is left out.
    InPlaceOr(&'static str, Help, ValueKind, &'static str),
    /// A value in its place, the last one, if it is given.
    InPlaceIfGiven(&'static str, Help, ValueKind),
    /// A value after its name, which may not be left out.
    Named(&'static str, Help, ValueKind),
    /// A value after its name, and what it is where it is left out.
    NamedOr(&'static str, Help, ValueKind, &'static str),
    /// A value after its name, if it is given.
    NamedIfGiven(&'static str, Help, ValueKind),
}

/// What a value may be.
#[derive(Clone, Copy)]
pub(crate) enum ValueKind {
    Text,
    OneOf(&'static [&'static str]),
    /// A number up to this one.
    AtMost(i64),
    /// A number from 1 to this one.
    UpTo(i64),
    /// A number that is not above the highest rate.
    Rate,
}

/// The highest number of a period, or of what `explain` explains.
const MOST_NUMBER: i64 = 65_535;

/// How long a command may be asked to wait for books, in seconds.
const MOST_WAIT: i64 = 3_600;

/// How many connections one `serve` may be asked to answer.
const MOST_REQUESTS: i64 = 1_000_000;

const BOOK: Argument = Argument::InPlace("book", Help::Book, ValueKind::Text);

const DUMP: Argument = Argument::InPlace("file", Help::Dump, ValueKind::Text);

const TARIFF: Argument = Argument::InPlace("file", Help::Tariff, ValueKind::Text);

const COPY: Argument = Argument::InPlace("file", Help::Copy, ValueKind::Text);

const PERIOD: Argument = Argument::InPlace("period", Help::Period, ValueKind::AtMost(MOST_NUMBER));

const CREDITED: Argument = Argument::InPlace("centre", Help::Credited, ValueKind::Text);

const AMOUNT: Argument = Argument::InPlace("amount", Help::Amount, ValueKind::Text);

const REASON: Argument = Argument::InPlace("reason", Help::Reason, ValueKind::Text);

const DATE: Argument = Argument::InPlace("date", Help::Date, ValueKind::Text);

const FIRST_DAY: Argument = Argument::InPlace("date", Help::FirstDay, ValueKind::Text);

const REPLACED: Argument = Argument::NamedIfGiven("replaced", Help::Replaced, ValueKind::Text);

const SHA256: Argument = Argument::InPlaceIfGiven("sha256", Help::Sha256, ValueKind::Text);

const RECORD_NAME: Argument = Argument::InPlace("sha256", Help::RecordName, ValueKind::Text);

const NAMES: Argument = Argument::NamedIfGiven("from", Help::Names, ValueKind::Text);

const DUMPED: Argument = Argument::NamedIfGiven("dump", Help::Dumped, ValueKind::Text);

const IMPORTED: Argument = Argument::NamedIfGiven("import", Help::Imported, ValueKind::Text);

const LAYOUT: Argument = Argument::NamedOr(
    "layout",
    Help::Layout,
    ValueKind::OneOf(&["rdw", "bdw"]),
    "rdw",
);

const QUIET: Argument = Argument::Flag("quiet", Help::Quiet);

const WHOLE: Argument = Argument::Flag("whole", Help::Whole);

const WITH_NAMES: Argument = Argument::Flag("names", Help::WithNames);

const EXPLAIN: Argument = Argument::Flag("explain", Help::Explain);

const DRY_RUN: Argument = Argument::Flag("dry-run", Help::DryRun);

const NEAR: Argument = Argument::Flag("near", Help::Near);

const REPLACE: Argument = Argument::Flag("replace", Help::Replace);

const NONE: Argument = Argument::Flag("none", Help::NoneOf);

const BY: Argument = Argument::NamedIfGiven("by", Help::By, ValueKind::Text);

const SERVED_BY: Argument = Argument::NamedIfGiven("by", Help::Served, ValueKind::Text);

const NOTE: Argument = Argument::NamedIfGiven("note", Help::Note, ValueKind::Text);

const CSV: Argument = Argument::Flag("csv", Help::Csv);

const DISPUTE_CSV: Argument = Argument::Flag("csv", Help::DisputeCsv);

const ENTRY_CSV: Argument = Argument::Flag("csv", Help::EntryCsv);

const HTML: Argument = Argument::Flag("html", Help::Html);

const WAIT: Argument = Argument::NamedOr("wait", Help::Wait, ValueKind::AtMost(MOST_WAIT), "10");

const CENTRE: Argument = Argument::NamedIfGiven("centre", Help::Centre, ValueKind::Text);

const CPU: Argument = Argument::NamedOr("cpu", Help::Cpu, ValueKind::Rate, "0");

const EXCP: Argument = Argument::NamedOr("excp", Help::Excp, ValueKind::Rate, "0");

const RECORD: Argument = Argument::NamedOr("record", Help::Record, ValueKind::Rate, "0");

const PRICES: Argument = Argument::NamedIfGiven("tariff", Help::Prices, ValueKind::Text);

const OTHER_PRICES: Argument = Argument::NamedIfGiven("tariff", Help::OtherPrices, ValueKind::Text);

const PORT: Argument = Argument::Named("port", Help::Port, ValueKind::UpTo(65_535));

const REQUESTS: Argument = Argument::Named(
    "requests",
    Help::Requests,
    ValueKind::UpTo(MOST_REQUESTS),
);

const NUMBER_KIND: Argument = Argument::InPlace(
    "kind",
    Help::NumberKind,
    ValueKind::OneOf(&[
        "frame", "ledger", "tariff", "damaged", "io", "busy", "exists", "word", "unsound", "log",
        "layout", "far", "torn",
    ]),
);

const NUMBER: Argument = Argument::InPlaceOr(
    "number",
    Help::Number,
    ValueKind::AtMost(MOST_NUMBER),
    "0",
);

/// The commands in the order of the program's help. The commands of reports have the words that the
/// rows of `report_rows` give them.
pub(crate) static KNOWN_COMMANDS: [KnownCommand; 27] = [
    KnownCommand {
        name: "trial",
        about: "Prices a dump from standard input in new books, and prints their statement",
        words: &[LAYOUT, CPU, EXCP, RECORD, PRICES, WHOLE, EXPLAIN],
    },
    KnownCommand {
        name: "check",
        about: "Says what each record of a dump is, and why reading stopped",
        words: &[LAYOUT, QUIET, WHOLE, WITH_NAMES, DUMP, EXPLAIN],
    },
    KnownCommand {
        name: "init",
        about: "Makes new books in a file",
        words: &[BOOK, EXPLAIN],
    },
    KnownCommand {
        name: "tariff",
        about: "Puts a tariff in force from its first day on",
        words: &[
            BOOK, TARIFF, DRY_RUN, NEAR, REPLACE, BY, NOTE, WAIT, EXPLAIN,
        ],
    },
    KnownCommand {
        name: "import",
        about: "Reads a dump into the books, each record once",
        words: &[BOOK, DUMP, LAYOUT, QUIET, WHOLE, BY, NOTE, WAIT, EXPLAIN],
    },
    KnownCommand {
        name: "close",
        about: "Closes the open period through a day",
        words: &[BOOK, PERIOD, DATE, DRY_RUN, NEAR, BY, NOTE, WAIT, EXPLAIN],
    },
    KnownCommand {
        name: "choose",
        about: "Charges one of several records in dispute with each other, and none of the others",
        words: &[
            BOOK, SHA256, NAMES, DUMPED, LAYOUT, IMPORTED, DRY_RUN, NONE, BY, NOTE, WAIT, EXPLAIN,
        ],
    },
    KnownCommand {
        name: "adopt",
        about: "Takes steps that began at different times for different work, for good",
        words: &[BOOK, DRY_RUN, BY, NOTE, WAIT, EXPLAIN],
    },
    KnownCommand {
        name: "credit",
        about: "Takes an amount off what a centre owes for the open period, for a reason",
        words: &[
            BOOK, PERIOD, CREDITED, AMOUNT, REASON, DRY_RUN, BY, NOTE, WAIT, EXPLAIN,
        ],
    },
    KnownCommand {
        name: "statement",
        about: "Prints what a period charges",
        words: &[BOOK, PERIOD, CSV, CENTRE, OTHER_PRICES, WAIT, EXPLAIN],
    },
    KnownCommand {
        name: "adjustments",
        about: "Prints what a period adds to closed periods and reverses in them",
        words: &[BOOK, PERIOD, CSV, CENTRE, WAIT, EXPLAIN],
    },
    KnownCommand {
        name: "details",
        about: "Prints each record that a period counts, and what it costs",
        words: &[BOOK, PERIOD, CSV, CENTRE, WAIT, EXPLAIN],
    },
    KnownCommand {
        name: "bill",
        about: "Prints the bill of a centre for a period, or what each centre owes",
        words: &[BOOK, PERIOD, CSV, HTML, CENTRE, WAIT, EXPLAIN],
    },
    KnownCommand {
        name: "focus",
        about: "Prints what a period charges as a table of cost and usage by FOCUS 1.0",
        words: &[BOOK, PERIOD, WAIT, EXPLAIN],
    },
    KnownCommand {
        name: "coverage",
        about: "Prints how many records a period counts of each day and system",
        words: &[BOOK, PERIOD, CSV, WAIT, EXPLAIN],
    },
    KnownCommand {
        name: "page",
        about: "Prints a period as a page for a browser",
        words: &[BOOK, PERIOD, WAIT, EXPLAIN],
    },
    KnownCommand {
        name: "disputes",
        about: "Prints the records in dispute",
        words: &[BOOK, DISPUTE_CSV, WAIT, EXPLAIN],
    },
    KnownCommand {
        name: "record",
        about: "Prints a record, how it was priced, and what became of it",
        words: &[BOOK, RECORD_NAME, WAIT, EXPLAIN],
    },
    KnownCommand {
        name: "periods",
        about: "Prints the periods",
        words: &[BOOK, WAIT, EXPLAIN],
    },
    KnownCommand {
        name: "rulings",
        about: "Prints all rulings: the tariffs, the closes, the choices and the others",
        words: &[BOOK, WAIT, EXPLAIN],
    },
    KnownCommand {
        name: "journal",
        about: "Prints who made each ruling and import, when, and from which file",
        words: &[BOOK, ENTRY_CSV, WAIT, EXPLAIN],
    },
    KnownCommand {
        name: "tariff-text",
        about: "Prints the tariff file that begins on a day, byte for byte",
        words: &[BOOK, FIRST_DAY, REPLACED, WAIT, EXPLAIN],
    },
    KnownCommand {
        name: "upgrade",
        about: "Brings books of an older form over to the present one",
        words: &[BOOK, WAIT, EXPLAIN],
    },
    KnownCommand {
        name: "audit",
        about: "Audits the whole file of books",
        words: &[BOOK, QUIET, WAIT, EXPLAIN],
    },
    KnownCommand {
        name: "backup",
        about: "Copies the books to another file, and audits the copy",
        words: &[BOOK, COPY, QUIET, WAIT, EXPLAIN],
    },
    KnownCommand {
        name: "serve",
        about: "Serves the books over HTTP, to this machine only",
        words: &[BOOK, PORT, REQUESTS, SERVED_BY, EXPLAIN],
    },
    KnownCommand {
        name: "explain",
        about: "Says what a number or a word on standard error means, and what to do",
        words: &[NUMBER_KIND, NUMBER, EXPLAIN],
    },
];
