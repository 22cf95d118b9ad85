//! Files that are read, by their names, the clock, and the name of the user.

use crate::causes::is_file;
use crate::notes::person_shown;
use std::alloc::{AllocError, Global};
use std::fs::File;
use std::io::Read;
use std::time::{SystemTime, UNIX_EPOCH};
use std::{env, fs, io};

/// The seconds of a day.
const DAY: u64 = 86_400;

/// The variables of the environment that name the user; the first that is set counts.
const USER: &str = "USER";

const LOGIN: &str = "LOGNAME";

/// Where files are read by their names, and which day it is.
pub trait Inputs {
    ghost use Rattle.std.specs.Prelude.{◌≡◌, IfOk};
    ghost use Rattle.without_books.specs.Inputs.{Files};

    /// What reads a file.
    type Input: Read + Drop;

    /// What the file of a name holds, where that is known, and which day it is by the clock.
    ghost held: { Self → Files };

    /// Opens the file of a name, which is read from its begin.
    fn open(&self, name: &str) -> io::Result<Self::Input>
        ensures { IfOk result (λ input. Self.Input.remaining input
            ≡ (held self.now).holds name.now) };

    /// The day by the clock, counted from 1970-01-01. None where there is no clock.
    fn today(&self) -> Option<i32>
        ensures { result ≡ (held self.now).today };

    /// The seconds since 1970 by the clock; 0 where there is none. They are only noted.
    fn time(&self) -> u64 {
        0
    }

    /// The name of the person for whom this runs, where that is known. It is only noted.
    fn person(&self, alloc: Global) -> Result<String, AllocError> {
        Ok(String::new(alloc))
    }

    /// The file of a name is kept, so that it can be read again.
    fn is_kept(&self, _name: &str) -> bool {
        false
    }

    /// How many bytes a file has, where it has a fixed size. It is only shown.
    fn size_of(&self, _input: &Self::Input) -> Option<u64> {
        None
    }
}

/// The files that this machine has.
#[derive(Clone, Copy)]
pub struct HostInputs<'a> {
    rt: &'a HostRuntime,
    /// The day on which this was made.
    today: Option<i32>,
}

impl<'a> HostInputs<'a> {
    /// Those that this program may read.
    pub fn of(rt: &'a HostRuntime) -> HostInputs<'a> {
        HostInputs {
            rt,
            today: today_by(rt),
        }
    }
}

impl Inputs for HostInputs<'_> {
    ghost use Rattle.without_books.specs.Inputs.{unread_on};

    type Input = File;

    ghost held = { λ inputs. unread_on inputs.today };

    fn open(&self, name: &str) -> io::Result<File> {
        fs::open(self.rt, name)
    }

    fn today(&self) -> Option<i32> {
        self.today
    }

    fn time(&self) -> u64 {
        seconds_now(self.rt).unwrap_or(0)
    }

    fn person(&self, alloc: Global) -> Result<String, AllocError> {
        match env::var(self.rt, USER) {
            Ok(name) => person_shown(alloc, name.as_str()),
            Err(_) => login_name(self.rt, alloc),
        }
    }

    fn is_kept(&self, name: &str) -> bool {
        is_file(self.rt, name)
    }

    fn size_of(&self, input: &File) -> Option<u64> {
        let metadata = input.metadata().ok()?;
        if metadata.is_file() {
            Some(metadata.len())
        } else {
            None
        }
    }
}

/// The name by the second variable of the environment that may have one.
fn login_name(rt: &HostRuntime, alloc: Global) -> Result<String, AllocError> {
    match env::var(rt, LOGIN) {
        Ok(name) => person_shown(alloc, name.as_str()),
        Err(_) => Ok(String::new(alloc)),
    }
}

/// The seconds since 1970 by the clock of this machine, where there is one.
pub(crate) fn seconds_now(rt: &HostRuntime) -> Option<u64> {
    let now = SystemTime::now(rt).ok()?;
    let since = now.duration_since(UNIX_EPOCH).ok()?;
    Some(since.as_secs())
}

/// The day by the clock of this machine, in UTC.
fn today_by(rt: &HostRuntime) -> Option<i32> {
    let seconds = seconds_now(rt)?;
    i32::try_from(seconds / DAY).ok()
}
