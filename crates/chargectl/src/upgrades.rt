//! Books of an older form are brought over to the present one.

ghost use Rattle.std.specs.Prelude.{◌≡◌, Ok};
ghost use Rattle.streams.specs.Failures.{HasFailed};
ghost use Rattle.chargectl.specs.Upgrades.{EndsUpgrade, UpgradesBy, upgrade_text};

use arrayvec::ArrayString;
use itoa::Buffer;
use named_books::{Opened, Repository, RepositoryFault, Upgraded};
use streams::Writer;
use without_books::{CommandFault, Ended, print_text};

/// Room for the line of books that were brought over.
type Line = ArrayString<32>;

/// Brings the books of a name over, and says whether they had the present form before.
pub(crate) fn upgrade<S: Repository, O: Writer + Drop>(
    repository: &mut S,
    book: &str,
    output: &mut O,
) -> Result<Ended, CommandFault>
    ensures { UpgradesBy book.now (S.shelf repository.old) (S.shelf repository.new)
        (O.contents output.old) (O.contents output.new) (∥ HasFailed O.may_answer output.new ∥₁)
        result }
{
    repository.expect(book)?;
    let Opened { answer, has_log } = repository.upgrade(book);
    Ok(Ended {
        came: show_upgraded(answer, output),
        has_log,
        is_change: true,
        notice: None,
    })
}

/// Says what came of it.
fn show_upgraded<O: Writer + Drop>(
    upgraded: Result<Upgraded, RepositoryFault>,
    output: &mut O,
) -> Result<(), CommandFault>
    ensures { EndsUpgrade upgraded (O.contents output.old) (O.contents output.new)
        (∥ HasFailed O.may_answer output.new ∥₁) result }
{
    match upgraded {
        Ok(upgraded) => tell_upgraded(upgraded, output),
        Err(fault) => Err(CommandFault::from(fault)),
    }
}

fn tell_upgraded<O: Writer>(upgraded: Upgraded, output: &mut O) -> Result<(), CommandFault>
    ensures { EndsUpgrade (Ok upgraded) (O.contents output.old) (O.contents output.new)
        (∥ HasFailed O.may_answer output.new ∥₁) result }
{
    match upgraded {
        Upgraded::To(form) => {
            let line = form_line(form);
            print_text(line.as_str(), output)
        }
        Upgraded::Already => print_text("ALREADY\n", output),
    }
}

/// The line of books that have this form now.
fn form_line(form: u32) -> Line
    ensures { result.bytes ≡ upgrade_text (Upgraded.To form) }
{
    let mut digits = Buffer::new();
    let mut line = Line::new();
    line.push_str("UPGRADED ");
    line.push_str(digits.format(form));
    line.push_str("\n");
    line
}
