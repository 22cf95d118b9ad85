//! Names that books must not have.

ghost use Rattle.std.specs.List.{ends_with};
ghost use Rattle.std.specs.Prelude.{◌≡◌, eqb};
ghost use Rattle.book_files.specs.Names.{is_log_name};

/// Whether a name ends so.
fn ends_as(path: &str, end: &str) -> bool
    ensures { result ≡ ends_with eqb path.now end.now }
{
    path.ends_with(end)
}

/// Whether a name is one that SQLite gives to the log, the journal or the shared memory of some
/// file: whether it ends in `-wal`, `-journal` or `-shm`. A command on that file would take books
/// of this name for its own log.
pub fn is_log_name(path: &str) -> bool
    ensures { result ≡ is_log_name path.now }
{
    ends_as(path, "-wal") || ends_as(path, "-journal") || ends_as(path, "-shm")
}
