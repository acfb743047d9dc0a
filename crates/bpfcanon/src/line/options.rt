//! The program's command line, built with clap.

ghost use Rattle.std.specs.Prelude.{◌≡◌, IfOk, false};
ghost use Rattle.clap.specs.{Words.app_of, Words.rule_of, Simple.shape_of};
ghost use Rattle.clap.specs.declared.builder.command.Command.TheViews.{out-Command};
ghost use Rattle.bpfcanon.specs.line.Options as spec;

use crate::verb::{Setting, Verb};
use bpf_words::Order;
use clap::{Arg, Command, value_parser};
use std::alloc::{AllocError, Global};

/// The values of an option for a byte order. clap keeps a reference to them, so whoever parses the
/// arguments owns them.
#[derive(Clone, Copy)]
pub struct OrderNames<'a> {
    words: &'a [&'a str],
}

impl<'a> OrderNames<'a> {
    /// The names of the byte orders, which are `words`.
    pub fn new(words: &'a [&'a str]) -> OrderNames<'a>
        requires { spec.AreOrderNames words.now }
        ensures { spec.IsOrderNames result.words }
    {
        OrderNames { words }
    }
}

/// The definition of an option for clap. A byte order is `little` by default. `--split` is required,
/// and at most the length of the longest input.
fn setting_arg<'a>(alloc: Global, setting: Setting, orders: OrderNames<'a>) -> Arg<'a>
    ensures rule { rule_of result ≡ spec.option_of orders.entry.words setting }
    ensures local { result.global ≡ false }
{
    let arg = Arg::new(alloc, setting.name()).long(setting.name());
    match setting {
        Setting::Split => arg
            .value_parser(value_parser!(u64).range(0..=Verb::InsnSame.limit() as i64))
            .required(true),
        _ => arg
            .value_parser(orders.words)
            .default_value(Order::Little.name()),
    }
}

/// The clap command of a verb, with its options.
fn verb_command<'a>(
    alloc: Global,
    verb: Verb,
    orders: OrderNames<'a>,
) -> Result<Command<'a>, AllocError>
    ensures shape { IfOk result (λ c. shape_of c ≡ spec.shape_for orders.entry.words verb) }
    ensures local { IfOk result (λ c. (out-Command c).has_globals ≡ false) }
{
    let mut command = Command::new(alloc, verb.name());
    for setting in Setting::ALL {
        if verb.takes(setting) {
            command = command.arg(setting_arg(alloc, setting, orders))?;
        }
    }
    Ok(command)
}

/// The program with all its commands. It has no help: `--help` and `help` are rejected like any
/// other unknown argument.
pub fn program_command<'a>(alloc: Global, orders: OrderNames<'a>) -> Result<Command<'a>, AllocError>
    ensures { IfOk result (λ c. app_of c ≡ spec.program orders.entry.words) }
{
    let mut program = Command::new(alloc, "bpfcanon")
        .disable_help_flag(true)
        .disable_help_subcommand(true);
    for verb in Verb::ALL {
        program = program.subcommand(verb_command(alloc, verb, orders)?)?;
    }
    Ok(program)
}
