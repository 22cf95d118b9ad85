//! The words of the command line, as `clap` reads them.

ghost use Rattle.std.specs.Prelude.{◌≡◌, IfOk};
ghost use Rattle.clap.specs.Values.{kind_of};
ghost use Rattle.clap.specs.Walk.{rule_of};
ghost use Rattle.clap.specs.Simple.{app_of, shape_of};
ghost use Rattle.command_line.specs.Known.{AreReadAs, IsFaultOf, IsTable, as_texts};
ghost use Rattle.command_line.specs.Shapes as spec;
ghost use Rattle.command_line.specs.Shapes.{AreFor, AreCommandsOf, HasNoGlobals, IsOwn};

use crate::fault::ArgumentFault;
use crate::help_texts::Help;
use crate::known_commands::{Argument, KNOWN_COMMANDS, KnownCommand, ValueKind};
use crate::matched_request::matched_request;
use crate::request::Request;
use clap::builder::ValueParser;
use clap::error::ErrorKind;
use clap::{Arg, ArgAction, Command, Error};
use std::alloc::{AllocError, Global};

/// The program's version.
const VERSION: &str = "0.2.0";

/// What a value has to be, where no rate is above the highest.
fn parser_of<'a>(kind: ValueKind, highest: u32) -> ValueParser<'a>
    ensures { result ≡ spec.parser_of highest kind }
{
    match kind {
        ValueKind::Text => ValueParser::String,
        ValueKind::OneOf(texts) => ValueParser::Names(texts),
        ValueKind::AtMost(most) => ValueParser::Signed(0, most),
        ValueKind::UpTo(most) => ValueParser::Signed(1, most),
        ValueKind::Rate => ValueParser::Unsigned(0, u64::from(highest)),
    }
}

fn value_arg<'a>(
    alloc: Global,
    name: &'static str,
    help: Help,
    kind: ValueKind,
    highest: u32,
) -> Arg<'a>
    ensures rule { rule_of result ≡ spec.value_rule highest name.now kind }
    ensures own { IsOwn result }
{
    Arg::new(alloc, name)
        .value_name(help.shown())
        .help(help.text())
        .action(ArgAction::Set)
        .value_parser(parser_of(kind, highest))
}

fn clap_arg<'a>(alloc: Global, word: Argument, highest: u32) -> Arg<'a>
    ensures rule { rule_of result ≡ spec.rule_for highest word }
    ensures own { IsOwn result }
{
    match word {
        Argument::Flag(name, help) => Arg::new(alloc, name)
            .long(name)
            .help(help.text())
            .action(ArgAction::SetTrue),
        Argument::InPlace(name, help, kind) => {
            value_arg(alloc, name, help, kind, highest).required(true)
        }
        Argument::InPlaceOr(name, help, kind, text) => value_arg(
            alloc, name, help, kind, highest,
        ).default_value(text),
        Argument::Named(name, help, kind) => value_arg(alloc, name, help, kind, highest)
            .long(name)
            .required(true),
        Argument::NamedOr(name, help, kind, text) => value_arg(alloc, name, help, kind, highest)
            .long(name)
            .default_value(text),
        Argument::NamedIfGiven(name, help, kind) => {
            value_arg(alloc, name, help, kind, highest).long(name)
        }
        Argument::InPlaceIfGiven(name, help, kind) => value_arg(alloc, name, help, kind, highest),
    }
}

fn clap_args<'a>(
    alloc: Global,
    words: &[Argument],
    highest: u32,
) -> Result<Vec<Arg<'a>>, AllocError>
    ensures { IfOk result (λ args. AreFor highest words.now args.items) }
{
    let mut args = Vec::new(alloc);
    for word in words {
        args.push(clap_arg(alloc, *word, highest))?;
    }
    Ok(args)
}

fn known_command<'a>(
    alloc: Global,
    known: &KnownCommand,
    highest: u32,
) -> Result<Command<'a>, AllocError>
    ensures shape { IfOk result (λ command. shape_of command ≡ spec.shape_for highest known.now) }
    ensures own { IfOk result HasNoGlobals }
{
    let args = clap_args(alloc, known.words, highest)?;
    Command::new(alloc, known.name)
        .about(known.about)
        .args(args)
}

fn commands_of<'a>(
    alloc: Global,
    table: &[KnownCommand],
    highest: u32,
) -> Result<Vec<Command<'a>>, AllocError>
    ensures { IfOk result (λ commands. AreCommandsOf highest table.now commands.items) }
{
    let mut commands = Vec::new(alloc);
    for known in table {
        commands.push(known_command(alloc, known, highest)?)?;
    }
    Ok(commands)
}

fn command_line<'a>(
    alloc: Global,
    program: &'a str,
    table: &[KnownCommand],
    highest: u32,
) -> Result<Command<'a>, AllocError>
    ensures { IfOk result (λ line. app_of line ≡ spec.app_for program.entry.now highest table.now) }
{
    let commands = commands_of(alloc, table, highest)?;
    Command::new(alloc, program)
        .about("The books of a chargeback office, read from SMF type 30 records")
        .version(VERSION)
        .subcommand_required(true)
        .subcommands(commands)
}

/// The table of the commands. It is read whole here, so that callers need not.
fn all_commands() -> &'static [KnownCommand]
    ensures { IsTable result.now }
{
    KNOWN_COMMANDS.as_slice()
}

/// What `clap` says about words that it refuses.
fn fault_in(alloc: Global, error: &Error) -> ArgumentFault
    ensures said { IsFaultOf (kind_of error.now) result }
    ensures memory { kind_of error.now ≡ ErrorKind.OutOfMemory → result ≡ ArgumentFault.Memory }
{
    if error.kind() == ErrorKind::OutOfMemory {
        return ArgumentFault::Memory;
    }
    match format!(in alloc; "{error}") {
        Err(_) => ArgumentFault::Memory,
        Ok(text) if error.use_stderr() => ArgumentFault::Wrong(text),
        Ok(text) => ArgumentFault::Help(text),
    }
}

/// The command that the words ask for, the first of which is the program's name, where no rate is
/// above `highest`; help and faults call the program by the name that is given. Words are never
/// refused without a text, but for lack of memory.
pub fn requested_by<'a>(
    alloc: Global,
    program: &'a str,
    words: &'a [String],
    highest: u32,
) -> Result<Request<'a>, ArgumentFault>
    ensures { AreReadAs program.entry.now highest (as_texts words.entry.now) result }
{
    let Ok(line) = command_line(alloc, program, all_commands(), highest) else {
        return Err(ArgumentFault::Memory);
    };
    match line.try_get_matches_from(words) {
        Ok(matches) => matched_request(&matches).ok_or(ArgumentFault::Wrong(String::new(alloc))),
        Err(error) => Err(fault_in(alloc, &error)),
    }
}
