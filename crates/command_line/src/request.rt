use book_reports::StatementForm;
use report_rows::ReportName;
use smf_frames::Layout;

/// What kind of thing a number stands for, or a word on standard error that has none: 0 stands for
/// none.
#[derive(Clone, Copy)]
pub enum NumberKind {
    /// A fault of a dump's framing.
    Frame,
    /// A refusal of the books.
    Ledger,
    /// A fault of a tariff file.
    Tariff,
    /// What is wrong with a damaged record.
    Damaged,
    /// The word `io`.
    Io,
    /// The word `busy`.
    Busy,
    /// The word `exists`.
    Exists,
    /// The word `word`.
    Word,
    /// The word `unsound`.
    Unsound,
    /// The word `log`.
    Log,
    /// The word `layout`.
    Layout,
    /// The word `far`.
    Far,
    /// The word `torn`.
    Torn,
}

/// A dump in a file.
#[derive(Clone, Copy)]
pub struct DumpFile<'a> {
    /// The file's path.
    pub file: &'a str,
    /// How its segments are laid out.
    pub layout: Layout,
    /// No progress is shown.
    pub quiet: bool,
    /// It has to be whole.
    pub whole: bool,
}

/// Words that do not say what is asked, alone or together.
#[derive(Clone, Copy)]
pub enum Unclear {
    /// Which records are chosen: a name and a list of names are given, or neither.
    Choice,
    /// Of which works of a dump none counts: `--none` is not given, or a name, a list of names, an
    /// import or a dry run beside the dump.
    Dump,
    /// Of which works that came by an import none counts: `--none` is not given, or a name, a list of
    /// names or a dry run beside the import.
    Import,
    /// What a trial prices by: a tariff and a rate are given.
    Prices,
    /// Which period: its number has a sign, or a 0 before other digits.
    Period,
    /// What a bill is to be: a table and a page.
    Form,
    /// Who asks, or why: the text is too long, or has a character that is not from blank to tilde.
    Note,
}

/// Who asks, and why, as the words say it.
#[derive(Clone, Copy)]
pub struct NoteWords<'a> {
    /// The person; None stands for whom the environment names.
    pub by: Option<&'a str>,
    pub remark: Option<&'a str>,
}

/// A ruling on the books.
#[derive(Clone, Copy)]
pub enum Ruling<'a> {
    /// A tariff file submitted.
    Tariff {
        /// The path of the tariff.
        file: &'a str,
    },
    /// The open period closed.
    Close {
        /// The number of the period.
        period: u16,
        /// Its last day, as `YYYY-MM-DD`.
        date: &'a str,
    },
    /// A record chosen among those of its identity.
    Choose {
        /// Its name, as 64 hexadecimal digits.
        name: &'a str,
    },
    /// Identity rule 2 adopted for good.
    Adopt,
    /// A tariff file submitted in the place of the tariff that begins on its first day.
    Replace {
        /// The path of the tariff.
        file: &'a str,
    },
    /// None chosen of the work of a record.
    Withhold {
        /// Its name, as 64 hexadecimal digits.
        name: &'a str,
    },
    /// A centre credited with an amount. Its texts may turn out to be none of these.
    Credit {
        /// The number of the period, which is to be open.
        period: u16,
        /// The name of the centre.
        centre: &'a str,
        /// The amount in money units, with four decimals.
        amount: &'a str,
        reason: &'a str,
    },
}

/// The words that name a period, of the whole office or of one centre.
#[derive(Clone, Copy)]
pub struct PeriodWords<'a> {
    /// The number of the period.
    pub number: u16,
    /// The name of the one centre; None stands for the whole office.
    pub centre: Option<&'a str>,
}

/// The words that say what a report is about. A text may turn out to be no name and no day.
#[derive(Clone, Copy)]
pub enum Words<'a> {
    /// A period, of the whole office or of one centre.
    OfCentre(PeriodWords<'a>),
    /// The number of a period.
    OfPeriod(u16),
    /// The books.
    OfOffice,
    /// The first day of a tariff, as `YYYY-MM-DD`.
    OfDay(&'a str),
    /// That of a tariff which another took the place of.
    OfReplaced {
        date: &'a str,
        /// The SHA-256 of its text, as 64 hexadecimal digits.
        digest: &'a str,
    },
    /// The name of a record, as 64 hexadecimal digits.
    OfRecord(&'a str),
}

/// What is asked by the words of a report.
#[derive(Clone, Copy)]
pub struct ReportAsked<'a> {
    pub name: ReportName,
    /// As a text or as a table.
    pub form: StatementForm,
    /// As a page.
    pub html: bool,
    pub words: Words<'a>,
}

/// What is asked of books in a file.
#[derive(Clone, Copy)]
pub enum BookRequest<'a> {
    /// New books in a file that is not there yet.
    Init,
    /// A ruling made.
    Rule(Ruling<'a>),
    /// A ruling made where its day is not far.
    RuleNear(Ruling<'a>),
    /// A dump read into the books.
    Import(DumpFile<'a>),
    /// The records of a list chosen, or their works withheld, one after the other.
    ChooseListed {
        /// Their works are withheld.
        none: bool,
        /// The path of the list, which has a name a line.
        file: &'a str,
    },
    /// What the choices of a list would be answered printed, and nothing changed.
    TryListed {
        /// Their works are withheld.
        none: bool,
        /// The path of the list.
        file: &'a str,
    },
    /// The works of the records of a dump withheld, one after the other.
    WithholdDump {
        /// The path of the dump.
        file: &'a str,
        /// How its segments are laid out.
        layout: Layout,
    },
    /// The works of the records that came by an import withheld, one after the other.
    WithholdImport {
        /// The number of its entry in the journal. The text may turn out to be none.
        number: &'a str,
    },
    /// What a ruling would change printed, and nothing changed.
    DryRun(Ruling<'a>),
    /// A report printed.
    Report(ReportAsked<'a>),
    /// A report printed while it is read.
    List(ReportAsked<'a>),
    /// A period's statement printed as it would be by other prices.
    WhatIf {
        form: StatementForm,
        period: PeriodWords<'a>,
        /// The path of the tariff.
        file: &'a str,
    },
    /// The books brought over to the form in which books are written now.
    Upgrade,
    /// The whole file audited.
    Audit {
        /// No progress is shown.
        quiet: bool,
    },
    /// The books copied to another file, and the copy audited.
    BackUp {
        /// The path of the copy.
        copy: &'a str,
        /// No progress is shown.
        quiet: bool,
    },
    /// The books served over HTTP, to this machine only.
    Serve {
        port: u16,
        /// The number of connections after which to end.
        requests: u32,
    },
}

/// What the program is asked to do.
#[derive(Clone, Copy)]
pub enum Request<'a> {
    /// Standard input into new books, under one price for all records.
    Trial {
        /// How the input's segments are laid out.
        layout: Layout,
        /// Ten-thousandths of the money unit for a CPU second.
        cpu: u64,
        /// Ten-thousandths of the money unit for 1,000 blocks.
        excp: u64,
        /// Ten-thousandths of the money unit for a record.
        record: u64,
        /// The input has to be whole.
        whole: bool,
    },
    /// The same under the tariff of a file.
    TrialUnder {
        /// How the input's segments are laid out.
        layout: Layout,
        /// The path of the tariff.
        file: &'a str,
        /// The input has to be whole.
        whole: bool,
    },
    /// What every record of a file is.
    Check {
        dump: DumpFile<'a>,
        /// With the names of those that could be kept.
        names: bool,
    },
    /// What a number on standard error or in a list means, or a word that has none.
    Explain {
        kind: NumberKind,
        number: u16,
    },
    /// A request to books in a file.
    OfBooks {
        /// The path of the books.
        book: &'a str,
        /// For how many seconds they are asked for again while another program uses them.
        wait: u16,
        note: NoteWords<'a>,
        asked: BookRequest<'a>,
    },
    /// Nothing that is clear.
    Unclear(Unclear),
}
