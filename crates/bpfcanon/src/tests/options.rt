//! Each command with each choice of its options, in both orders.

use super::lines::check_line;
use crate::job::Job;
use crate::verb::{Setting, Verb};
use bpf_words::Order;
use std::alloc::{AllocError, Global};
use std::process::Abort;
use std::test::Fail;

/// The choices of a command: each an option as it is given, or nothing if it isn't, with its value.
#[derive(Clone, Copy)]
struct Choices {
    order: (&'static str, Order),
    to: (&'static str, Order),
    other: (&'static str, Order),
    split: (&'static str, u64),
}

#[rattlefmt::skip]
static ORDERS: [(&str, Order); 5] = [
    ("", Order::Little),
    ("--order little", Order::Little),
    ("--order=little", Order::Little),
    ("--order big", Order::Big),
    ("--order=big", Order::Big),
];

#[rattlefmt::skip]
static OUTPUT_ORDERS: [(&str, Order); 5] = [
    ("", Order::Little),
    ("--to little", Order::Little),
    ("--to=little", Order::Little),
    ("--to big", Order::Big),
    ("--to=big", Order::Big),
];

#[rattlefmt::skip]
static SECOND_ORDERS: [(&str, Order); 5] = [
    ("", Order::Little),
    ("--other little", Order::Little),
    ("--other=little", Order::Little),
    ("--other big", Order::Big),
    ("--other=big", Order::Big),
];

/// The last two are the greatest length.
#[rattlefmt::skip]
static SPLITS: [(&str, u64); 5] = [
    ("", 0),
    ("--split 0", 0),
    ("--split=16", 16),
    ("--split 134217728", 134_217_728),
    ("--split=134217728", 134_217_728),
];

/// Whether a command accepts the option, or it isn't given.
fn is_taken(verb: Verb, setting: Setting, words: &str) -> bool {
    verb.takes(setting) || words.is_empty()
}

/// Checks that a command with these options, in both orders, has the job of these values.
fn check_both_orders(
    rt: &impl Abort,
    alloc: Global,
    verb: Verb,
    choices: Choices,
) -> Result<(), AllocError> {
    let Choices {
        order: (first, order),
        to: (second, to),
        other: (third, other),
        split: (fourth, split),
    } = choices;
    let job = Job {
        verb,
        order,
        to,
        other,
        split,
    };
    let name = verb.name();
    let line = format!(in alloc; "{name} {first} {second} {third} {fourth}")?;
    check_line(rt, alloc, &line, Ok(job))?;
    let line = format!(in alloc; "{name} {fourth} {third} {second} {first}")?;
    check_line(rt, alloc, &line, Ok(job))
}

/// Each choice of the two options that only comparisons accept. The length is given if it is accepted.
fn check_second_files(
    rt: &impl Abort,
    alloc: Global,
    verb: Verb,
    (order, to): ((&'static str, Order), (&'static str, Order)),
) -> Result<(), AllocError> {
    for other in SECOND_ORDERS {
        for split in SPLITS {
            let choices = Choices {
                order,
                to,
                other,
                split,
            };
            if is_taken(verb, Setting::Other, other.0)
                && verb.takes(Setting::Split) != split.0.is_empty()
            {
                check_both_orders(rt, alloc, verb, choices)?;
            }
        }
    }
    Ok(())
}

/// Each choice of the options of a command.
fn check_options(rt: &impl Abort, alloc: Global, verb: Verb) -> Result<(), AllocError> {
    for order in ORDERS {
        for to in OUTPUT_ORDERS {
            if is_taken(verb, Setting::Order, order.0) && is_taken(verb, Setting::To, to.0) {
                check_second_files(rt, alloc, verb, (order, to))?;
            }
        }
    }
    Ok(())
}

#[test]
fn each_choice_of_options_asks_for_its_job(rt: HostRuntime) -> Result<(), Fail> {
    for verb in Verb::ALL {
        check_options(&rt, rt.alloc(), verb)?;
    }
    Ok(())
}
