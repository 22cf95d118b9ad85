//! The keys of a tariff file.

ghost use Rattle.std.specs.Prelude.{◌≡◌};
ghost use Rattle.tariff_rules.specs.Faults.{key_text};

use std::fmt;

/// A key of a tariff file, in the order in which the file's keys are read.
#[derive(Clone, Copy, Debug, PartialEq, Eq)]
pub enum Key {
    /// The tariff's first day.
    Effective,
    /// The table of the six rates.
    Rates,
    /// What a CPU second of a step costs.
    StepCpu,
    /// What 1,000 blocks of a step cost.
    StepExcp,
    /// What a step's record costs.
    StepRecord,
    /// What a CPU second of a job costs.
    JobCpu,
    /// What 1,000 blocks of a job cost.
    JobExcp,
    /// What a job's record costs.
    JobRecord,
    /// The array of shifts.
    Shift,
    /// The name of a shift or a centre.
    Name,
    /// A shift's weekdays.
    Days,
    /// A shift's first minute.
    From,
    /// The first minute after a shift.
    To,
    /// A shift's percent.
    Percent,
    /// The array of centre rules.
    Centre,
    /// The number of an accounting field.
    Account,
    /// What that accounting field begins with.
    Prefix,
    /// What the job's name begins with.
    Job,
}

impl Key {
    /// The key as a tariff file has it.
    pub fn text(self) -> &'static str
        ensures { result.now ≡ key_text self }
    {
        match self {
            Key::Effective => "effective",
            Key::Rates => "rates",
            Key::StepCpu => "step_cpu",
            Key::StepExcp => "step_excp",
            Key::StepRecord => "step_record",
            Key::JobCpu => "job_cpu",
            Key::JobExcp => "job_excp",
            Key::JobRecord => "job_record",
            Key::Shift => "shift",
            Key::Name => "name",
            Key::Days => "days",
            Key::From => "from",
            Key::To => "to",
            Key::Percent => "percent",
            Key::Centre => "centre",
            Key::Account => "account",
            Key::Prefix => "prefix",
            Key::Job => "job",
        }
    }
}

impl fmt::Display for Key {
    ghost use Rattle.std.specs.Prelude.{Some};
    ghost use Rattle.tariff_rules.specs.Faults.{key_text};

    ghost output = { λ key. Some (key_text key) };

    fn fmt<W: fmt::Write>(&self, f: &mut fmt::Formatter<W>) -> fmt::Result {
        f.write_str(self.text())
    }
}
