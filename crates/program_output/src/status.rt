ghost use Rattle.std.specs.Prelude.{◌≡◌};
ghost use Rattle.program_output.specs.Statuses.{code_of};

/// How the program ended, for scripts.
#[derive(Clone, Copy, PartialEq, Eq)]
pub enum Status {
    /// It did what it was asked.
    Done,
    /// A file, a socket or the output failed, or the reads that were allowed did not reach the
    /// input's end.
    Io,
    /// The words ask for nothing that the program does.
    Usage,
    /// The input was refused.
    Refused,
    /// The store of the books failed or is in use, they are of another form, an audit found them
    /// unsound, a change of them is in two files, or a dump that had to be whole is not.
    Store,
    /// There was no memory.
    Memory,
}

impl Status {
    /// The exit status.
    pub fn code(self) -> u8
        ensures { result ≡ code_of self }
    {
        match self {
            Status::Done => 0,
            Status::Io => 1,
            Status::Usage => 2,
            Status::Refused => 3,
            Status::Store => 4,
            Status::Memory => 5,
        }
    }
}
