//! Why a file, the port or the output failed, in words for people.

ghost use Rattle.std.specs.Prelude.{◌≡◌};
ghost use Rattle.program_output.specs.Causes as spec;

/// Why a file, the port or the output failed.
#[derive(Clone, Copy)]
pub enum Cause {
    /// There is no such file.
    Missing,
    /// A permission is missing.
    Denied,
    /// A folder has that path.
    Folder,
    /// The file has another name too, a second hard link.
    Linked,
    /// Another program has the port, or the books.
    Taken,
    /// None of these is known to be the cause.
    Failed,
}

/// The cause, as a line for people says it.
pub fn cause_text(cause: Cause) -> &'static str
    ensures { result.now ≡ spec.cause_text cause }
{
    match cause {
        Cause::Missing => "not there",
        Cause::Denied => "no permission",
        Cause::Folder => "a folder",
        Cause::Linked => "another name leads to the same file",
        Cause::Taken => "in use",
        Cause::Failed => "failed",
    }
}
