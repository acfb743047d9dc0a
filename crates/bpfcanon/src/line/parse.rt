//! Parses the arguments of a command line into a job.

ghost use Rattle.std.specs.Prelude.{◌≡◌, ◌<◌, length, map, string_bytes, IfOk, IfSome, IsErrOf};
ghost use Rattle.clap.specs.Words.{subcommand_rows_of, rows_of, found_of};
ghost use Rattle.bpfcanon.specs.declared.line.parse.LineError.TheVariants.{Memory};
ghost use Rattle.bpfcanon.specs.Verbs.{IsVerbName};
ghost use Rattle.bpfcanon.specs.line.Parse as spec;

use crate::job::Job;
use crate::line::options::{OrderNames, program_command};
use crate::verb::{Setting, Verb};
use bpf_words::Order;
use clap::ArgMatches;
use clap::error::ErrorKind;
use std::alloc::{AllocError, Global};
use thiserror::Error;

/// Why a command line can't be parsed into a job.
#[derive(Clone, Copy, Debug, PartialEq, Eq, Error)]
pub enum LineError {
    /// The arguments aren't a command with valid options, or they ask for help.
    #[error("Usage")]
    Usage,
    /// Out of memory.
    #[error("Memory")]
    Memory,
}

impl From<AllocError> for LineError {
    ghost from_gives = { λ _ made. made ≡ Memory };

    fn from(_error: AllocError) -> LineError {
        LineError::Memory
    }
}

/// The byte order that an option value names. clap has accepted it, so it is `little` or `big`.
fn order_named(name: &str) -> Order
    ensures { result ≡ spec.order_named name.now }
{
    name.parse().unwrap_or(Order::Little)
}

/// The byte order that an option names, or `Little` if the command doesn't accept the option.
fn order_at(verb: Verb, setting: Setting, matches: &ArgMatches<'_>) -> Order
    ensures { result ≡ spec.order_at verb setting (rows_of (found_of matches.now)) }
{
    if !verb.takes(setting) {
        return Order::Little;
    }
    match matches.get_str(setting.name()) {
        Some(name) => order_named(name),
        None => Order::Little,
    }
}

/// The length of the first file in bytes, or 0 if the command reads only one file.
fn split_at(verb: Verb, matches: &ArgMatches<'_>) -> u64
    ensures { result ≡ spec.split_at verb (rows_of (found_of matches.now)) }
{
    if !verb.takes(Setting::Split) {
        return 0;
    }
    matches.get_one::<u64>("split").unwrap_or(0)
}

/// The job of a command whose options `clap` has matched.
fn job_at(verb: Verb, matches: &ArgMatches<'_>) -> Job
    ensures { result ≡ spec.job_at verb (rows_of (found_of matches.now)) }
{
    Job {
        verb,
        order: order_at(verb, Setting::Order, matches),
        to: order_at(verb, Setting::To, matches),
        other: order_at(verb, Setting::Other, matches),
        split: split_at(verb, matches),
    }
}

/// The job of a command line that clap has accepted. The default command is `insn-canon`.
fn job_of(matches: &ArgMatches<'_>) -> Job
    requires { IfSome (subcommand_rows_of matches.now) (λ p. IsVerbName p.0) }
    ensures { spec.IsJobOf (subcommand_rows_of matches.now) result }
{
    match matches.subcommand() {
        None => Job {
            verb: Verb::InsnCanon,
            order: Order::Little,
            to: Order::Little,
            other: Order::Little,
            split: 0,
        },
        Some((name, inner)) => match Verb::named(name) {
            Some(verb) => job_at(verb, inner),
            None => unreachable!(),
        },
    }
}

/// `Memory` if clap ran out of memory. Every other error concerns the arguments.
fn line_error(kind: ErrorKind) -> LineError
    ensures memory { result ≡ LineError.Memory → kind ≡ ErrorKind.OutOfMemory }
    ensures usage { result ≡ LineError.Usage → kind ≡ ErrorKind.OutOfMemory → ⊥ }
{
    match kind {
        ErrorKind::OutOfMemory => LineError::Memory,
        _ => LineError::Usage,
    }
}

/// The job that a command line describes. The first argument is the program's name and is
/// required. Without further arguments the job is `insn-canon` with little-endian input and output.
///
/// # Errors
///
/// `Usage` if clap rejects the arguments, and `Memory` if memory ran out.
#[inline(never)]
pub fn parse_line(alloc: Global, words: &[String]) -> Result<Job, LineError>
    requires { 0 < length words.now }
    ensures asks { IfOk result (spec.Asks (map string_bytes words.now)) }
    ensures refused { IsErrOf result LineError.Usage → spec.IsRefused (map string_bytes words.now) }
{
    let orders = [Order::Little.name(), Order::Big.name()];
    let command = program_command(alloc, OrderNames::new(&orders))?;
    match command.try_get_matches_from(words) {
        Ok(matches) => Ok(job_of(&matches)),
        Err(error) => Err(line_error(error.kind())),
    }
}
