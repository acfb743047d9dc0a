//! Groups of functions with their groups of lines, by the names of their sections.

ghost use Rattle.std.specs.Prelude.{◌≡◌, ◌+◌, ◌<◌, ◌≤◌, ◌^◌, is_some, not, false, [], ◌∷◌, IfOk, MatchResult, OnOk};
ghost use Rattle.bpf_elf.specs.Rules.{rule, AllHold};
ghost use Rattle.bpf_object.specs.declared.fault.ObjectCause.TheVariants.{ExtensionLines, ExtensionGroupTwice};
ghost use Rattle.bpf_object.specs.declared.extension.Part.TheVariants.{Functions};
ghost use Rattle.bpf_object.specs.Extension.{groups};
ghost use Rattle.bpf_object.specs.Faults.{Checks, FailsRules};
ghost use Rattle.bpf_object.specs.FunctionLines.{pairs_of};
ghost use Rattle.bpf_object.specs.Lines.{name_of, is_pair, pairs_rules};
ghost use Rattle.bpf_object.specs.private.Pairs as spec;
ghost use Rattle.bpf_object.specs.Sources.{section, HasGroup, HasGroups};

use crate::cursors::{first_group, next_in};
use crate::extension::Part;
use crate::fault::{ObjectCause, ObjectError, ObjectFault, require};
use crate::line_checks::check_pair;
use crate::source::{Source, word};
use bpf_elf::string_at;
use std::alloc::{AllocError, Allocator};
use std::collections::BTreeMap;

/// Where the groups of functions and of lines of a section are in .BTF.ext.
#[derive(Clone, Copy)]
pub(crate) struct Pair {
    pub(crate) functions: u32,
    pub(crate) lines: u32,
}

/// The name of the section of a group.
fn name_of<'a>(x: Source<'a>, part: Part, group: usize) -> &'a [u8]
    requires { HasGroup x part group }
    ensures { result.now ≡ name_of (section x.entry) group }
{
    string_at(x.strings, word(x, group))
}

/// Stores a pair by the name of its section, and returns whether there was one.
fn store_pair<'a, A: Allocator + Copy>(
    by_name: &mut BTreeMap<(usize, &'a [u8]), Pair, A>,
    name: &'a [u8],
    pair: Pair,
) -> Result<bool, AllocError>
    ensures stored { OnOk result (spec.StoresPair by_name.old by_name.new name.now pair) }
    ensures before { IfOk result
        (λ is_stored. is_stored ≡ is_some (spec.pair_for by_name.old name.now)) }
{
    let before = by_name.insert((name.len(), name), pair)?;
    Ok(before.is_some())
}

/// Checks that no earlier group of functions has the name of a group.
fn check_name(x: Source<'_>, functions: usize, is_stored: bool) -> Result<(), ObjectFault>
    requires { HasGroup x Functions functions }
    ensures { Checks (rule ExtensionGroupTwice (x.entry.start + functions)
        (not is_stored) ∷ []) result }
{
    let pos = u64::from(x.start) + functions as u64;
    require(!is_stored, pos, ObjectCause::ExtensionGroupTwice)
}

/// Checks a group of functions and the group of lines, of a part, at the same index, and stores them
/// by the name of their section, which no earlier group may have.
fn add_pair<'a, A: Allocator + Copy>(
    by_name: &mut BTreeMap<(usize, &'a [u8]), Pair, A>,
    x: Source<'a>,
    functions: usize,
    part: Part,
    lines: usize,
) -> Result<(), ObjectError>
    requires functions { HasGroup x Functions functions }
    requires lines { HasGroup x part lines }
    ensures { let s = section x.entry in let name = name_of s functions in
        let rules = rule ExtensionLines (s.start + functions) (is_pair s part functions lines)
        ∷ rule ExtensionGroupTwice (s.start + functions)
        (not (is_some (spec.pair_for by_name.old name))) ∷ [] in
        MatchResult result (λ _. AllHold rules × spec.StoresPair by_name.old by_name.new name
        (record { functions = functions; lines = lines })) (FailsRules rules) }
{
    check_pair(x, functions, part, lines)?;
    let name = name_of(x, Part::Functions, functions);
    let pair = Pair {
        functions: functions as u32,
        lines: lines as u32,
    };
    let is_stored = store_pair(by_name, name, pair)?;
    check_name(x, functions, is_stored)?;
    Ok(())
}

/// The fault of a group that has no other one at the same index.
fn single_fault(x: Source<'_>, part: Part, group: usize) -> ObjectError
    requires { HasGroup x part group }
    ensures { FailsRules (rule ExtensionLines (x.entry.start + group) false ∷ []) result }
{
    ObjectError::Fault(ObjectFault {
        pos: u64::from(x.start) + group as u64,
        cause: ObjectCause::ExtensionLines,
    })
}

/// Checks that functions and lines, the groups of a part, are of the same sections in the same
/// sequence, each section once, and returns the groups by the names of their sections.
pub(crate) fn check_pairs<'a, A: Allocator + Copy>(
    alloc: A,
    x: Source<'a>,
    part: Part,
) -> Result<BTreeMap<(usize, &'a [u8]), Pair, A>, ObjectError>
    requires functions { HasGroups x Functions }
    requires lines { HasGroups x part }
    ensures { let s = section x.entry in let fs = groups s Functions in let ls = groups s part in
        let rules = pairs_rules s part [] fs ls in
        MatchResult result
        (λ by_name. AllHold rules × spec.HasPairs x.entry part (pairs_of fs ls) by_name)
        (FailsRules rules) }
{
    let mut by_name = BTreeMap::new(alloc);
    let mut functions = first_group(x, Part::Functions);
    let mut lines = first_group(x, part);
    loop {
        match (functions, lines) {
            (Some(function_group), Some(line_group)) => {
                add_pair(&mut by_name, x, function_group, part, line_group)?;
                functions = next_in(x, Part::Functions, function_group);
                lines = next_in(x, part, line_group);
            }
            (Some(group), None) => return Err(single_fault(x, Part::Functions, group)),
            (None, Some(group)) => return Err(single_fault(x, part, group)),
            (None, None) => return Ok(by_name),
        }
    }
}
