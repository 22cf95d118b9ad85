use tariff_rules::Priced;

/// A line of a period's adjustments: a record that was charged late, or is charged no more.
#[derive(Clone, Copy)]
pub struct Line {
    /// The period charges the record; else it takes the charge back.
    pub plus: bool,
    /// The name of the record's data.
    pub name: [u8; 32],
    /// In code page 037, as it is in the record.
    pub job: [u8; 8],
    /// In code page 037, as it is in the record.
    pub program: [u8; 8],
    /// In code page 037, as it is in the record.
    pub job_id: [u8; 8],
    /// The number of the step that ended, none where a job ended.
    pub step: Option<u16>,
    /// What the record costs.
    pub priced: Priced,
}
