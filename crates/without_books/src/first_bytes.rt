//! The first bytes of a dump. They are read ahead and looked at, since they tell whether the dump
//! looks like one in the other layout. Then they are given with the rest.

ghost use Rattle.std.specs.Prelude.{◌≡◌, ◌≤◌, Some, IfOk, OnErr, length, take};
ghost use Rattle.std.specs.Io.KnownBytes.{Consumes, IsAtEnd, Keeps};
ghost use Rattle.std.specs.Fmt.{option_append};
ghost use Rattle.without_books.specs.FirstBytes as spec;
ghost use Rattle.without_books.specs.FirstBytes.{IsFilled, IsLookedAt, most_first, rest_remaining};
ghost use Rattle.without_books.specs.FirstBytes.{whole_remaining};

use program_output::is_misread;
use smf_frames::Layout;
use std::alloc::{AllocError, Global};
use std::io;
use std::io::{Chain, Cursor, Read};

/// How many bytes are looked at: as many as the longest segment has.
const MOST_FIRST: usize = 65_535;

/// How the reading of the first bytes ended.
#[derive(Drop)]
pub(crate) enum FirstEnd {
    /// All of them came.
    Full,
    /// The reader came to its end.
    AtEnd,
    /// The reader failed.
    Failed(io::Error),
}

/// The first bytes of a reader.
#[derive(Drop)]
struct FirstBytes {
    bytes: Vec<u8>,
    end: FirstEnd,
}

/// A reader after its first bytes.
#[derive(Drop)]
pub struct Rest<R: Read + Drop> {
    /// None: it has come to its end, and is not asked again.
    inner: Option<R>,
    /// Why its last read failed, until that is told.
    failure: Option<io::Error>,
}

impl<R: Read + Drop> Read for Rest<R> {
    ghost use Rattle.without_books.specs.FirstBytes.{rest_remaining};

    ghost remaining = { rest_remaining R.remaining };

    fn read(&mut self, buffer: &mut [u8]) -> io::Result<usize> {
        if let Some(error) = self.failure.take() {
            return Err(error);
        }
        match &mut self.inner {
            Some(inner) => inner.read(buffer),
            None => Ok(0),
        }
    }
}

/// A dump whose first bytes were looked at.
#[derive(Drop)]
pub struct LookedAt<R: Read + Drop> {
    /// All of its bytes, the first ones included.
    pub reader: Chain<Cursor<Vec<u8>>, Rest<R>>,
    /// It looks like one in the other layout.
    pub is_misread: bool,
}

/// Reads the first bytes of a dump, and looks at them. Where that fails, the dump is read as it is:
/// to look at it is no more than advice.
pub fn look_at<R: Read + Drop>(alloc: Global, layout: Layout, mut reader: R) -> LookedAt<R>
    ensures bytes { Keeps (R.remaining reader) (whole_remaining R.remaining result.reader) }
    ensures looked { IsLookedAt layout (R.remaining reader) result.is_misread }
{
    match read_first(alloc, &mut reader) {
        Ok(first) => {
            let is_misread = looks_misread(alloc, layout, &first).unwrap_or(false);
            LookedAt {
                reader: joined(first.bytes, rest_of(first.end, reader)),
                is_misread,
            }
        }
        Err(_) => LookedAt {
            reader: joined(
                Vec::new(alloc),
                Rest {
                    inner: Some(reader),
                    failure: None,
                },
            ),
            is_misread: false,
        },
    }
}

/// Reads the first bytes of a reader. Without memory nothing is read.
fn read_first<R: Read>(alloc: Global, reader: &mut R) -> Result<FirstBytes, AllocError>
    ensures few { IfOk result (λ first. length first.bytes.items ≤ most_first) }
    ensures taken { IfOk result (λ first. Consumes (R.remaining reader.old) (R.remaining reader.new)
        first.bytes.items) }
    ensures filled { IfOk result (λ first. IsFilled first.end (length first.bytes.items) most_first
        (R.remaining reader.new)) }
    ensures unread { OnErr result (reader.new ≡ reader.old) }
{
    let mut bytes = vec![in alloc; 0u8; MOST_FIRST]?;
    let (count, end) = fill(reader, bytes.as_mut_slice());
    bytes.truncate(count);
    Ok(FirstBytes { bytes, end })
}

/// Fills a room with the next bytes of a reader. Gives how many came, and how that ended.
fn fill<R: Read>(reader: &mut R, room: &mut [u8]) -> (usize, FirstEnd)
    ensures few { result.0 ≤ length room.new }
    ensures taken { Consumes (R.remaining reader.old) (R.remaining reader.new)
        (take result.0 room.new) }
    ensures filled { IsFilled result.1 result.0 (length room.new) (R.remaining reader.new) }
{
    let mut count = 0;
    'room: while count < room.len() {
        let came = match reader.read(&mut room[count..]) {
            Ok(came) => came,
            Err(error) => return (count, FirstEnd::Failed(error)),
        };
        if came == 0 {
            return (count, FirstEnd::AtEnd);
        }
        count += came;
    }
    (count, FirstEnd::Full)
}

/// Whether a dump with these first bytes looks misread. Where they are not all, it does not.
fn looks_misread(alloc: Global, layout: Layout, first: &FirstBytes) -> Result<bool, AllocError>
    ensures { IfOk result (λ looks.
        looks ≡ spec.looks_misread layout first.now.end first.now.bytes.items) }
{
    if !is_whole(&first.end) {
        return Ok(false);
    }
    is_misread(alloc, layout, &first.bytes)
}

/// No more of the first bytes is to come.
fn is_whole(end: &FirstEnd) -> bool
    ensures { result ≡ spec.is_whole end.now }
{
    match end {
        FirstEnd::Full => true,
        FirstEnd::AtEnd => true,
        FirstEnd::Failed(_) => false,
    }
}

/// What a reader gives after its first bytes.
fn rest_of<R: Read + Drop>(end: FirstEnd, reader: R) -> Rest<R>
    requires { end ≡ FirstEnd.AtEnd → IsAtEnd (R.remaining reader) }
    ensures { Keeps (R.remaining reader) (rest_remaining R.remaining result) }
{
    match end {
        FirstEnd::Full => Rest {
            inner: Some(reader),
            failure: None,
        },
        FirstEnd::AtEnd => Rest {
            inner: None,
            failure: None,
        },
        FirstEnd::Failed(error) => Rest {
            inner: Some(reader),
            failure: Some(error),
        },
    }
}

/// The first bytes, and then the rest.
fn joined<R: Read + Drop>(first: Vec<u8>, rest: Rest<R>) -> Chain<Cursor<Vec<u8>>, Rest<R>>
    ensures { whole_remaining R.remaining result
        ≡ option_append (Some first.items) (rest_remaining R.remaining rest) }
{
    Cursor::new(first).chain(rest)
}
