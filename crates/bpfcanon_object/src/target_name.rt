//! The names of targets on the command line.

ghost use Rattle.std.specs.Prelude.{◌≡◌, filter, IfOk, IfSome, string_bytes};
ghost use Rattle.std.specs.List.{list_all};
ghost use Rattle.bpf_insn.specs.GroupSets.{IsSetOf};
ghost use Rattle.bpfcanon_object.specs.Linux.{cpu_name};
ghost use Rattle.bpfcanon_object.specs.Target as spec;
ghost use Rattle.bpfcanon_object.specs.Target.{IsNamed};

use crate::linux::{Cpu, Linux};
use crate::target::Target;
use bpf_insn::{Group, GroupSet};
use std::alloc::{AllocError, Allocator};

/// What targets there are.
pub const TARGETS: &str = "\
a target is linux-3.18 to linux-6.18, v1, v2, v3 or v4, or conformance groups: base32, base64, atomic32, \
atomic64, divmul32, divmul64, packet";

/// Whether a group is named.
fn is_named(names: &[&str], group: Group) -> bool
    ensures { result ≡ spec.is_named names.now group }
{
    names.iter().any(|name| *name == group.name())
}

/// Those of some groups that are named.
fn named_among<A: Allocator>(
    alloc: A,
    groups: &[Group],
    names: &[&str],
) -> Result<Vec<Group, A>, AllocError>
    ensures { IfOk result (λ named. named.items ≡ filter (spec.is_named names.now) groups.now) }
{
    groups
        .iter()
        .copied()
        .filter(|group| is_named(names, *group))
        .collect(alloc)
}

/// Whether a name is that of a group.
pub fn is_group(name: &str) -> bool
    ensures { result ≡ spec.is_group name.now }
{
    Group::ALL.iter().any(|group| name == group.name())
}

/// The version of LLVM's instruction set with a name.
fn version_named(name: &str) -> Option<Cpu>
    ensures { IfSome result (λ v. name.now ≡ cpu_name v) }
{
    match name {
        "v1" => Some(Cpu::V1),
        "v2" => Some(Cpu::V2),
        "v3" => Some(Cpu::V3),
        "v4" => Some(Cpu::V4),
        _ => None,
    }
}

/// The name of a release.
fn name_of<A: Allocator + Copy>(alloc: A, linux: Linux) -> Result<String<A>, AllocError>
    ensures { IfOk result (λ name. string_bytes name ≡ spec.linux_name linux) }
{
    let text = linux.text(alloc)?;
    format!(in alloc; "linux-{text}")
}

/// Whether a release is one of those up to the latest that the table of additions speaks of.
fn is_known(linux: Linux) -> bool
    ensures { result ≡ spec.is_known linux }
{
    match linux.major {
        3 => 18 <= linux.minor && linux.minor <= 19,
        4 => linux.minor <= 20,
        5 => linux.minor <= 19,
        6 => linux.minor <= 18,
        _ => false,
    }
}

/// The two numbers in the name of a release, which may be written otherwise than in its name.
fn numbers_in(name: &str) -> Option<Linux> {
    let (major, minor) = name.strip_prefix("linux-")?.split_once('.')?;
    let major = major.parse().ok()?;
    let minor = minor.parse().ok()?;
    Some(Linux { major, minor })
}

/// The release with a name, if it is known.
fn release_named<A: Allocator + Copy>(alloc: A, name: &str) -> Result<Option<Linux>, AllocError>
    ensures { IfOk result (λ found. IfSome found (spec.IsRelease name.now)) }
{
    let Some(linux) = numbers_in(name) else {
        return Ok(None);
    };
    if !is_known(linux) {
        return Ok(None);
    }
    let written = name_of(alloc, linux)?;
    if written.as_str() == name {
        Ok(Some(linux))
    } else {
        Ok(None)
    }
}

/// The target with one name that isn't that of a group.
fn single<A: Allocator + Copy>(alloc: A, name: &str) -> Result<Option<Target>, AllocError>
    ensures { IfOk result (λ found. IfSome found (spec.IsSingle name.now)) }
{
    if let Some(cpu) = version_named(name) {
        return Ok(Some(Target::Version(cpu)));
    }
    match release_named(alloc, name)? {
        Some(linux) => Ok(Some(Target::Release(linux))),
        None => Ok(None),
    }
}

/// The groups with these names, and those that they include. Other names have none.
fn groups_of<A: Allocator>(alloc: A, names: &[&str]) -> Result<GroupSet, AllocError>
    ensures { IfOk result (IsSetOf (spec.groups_named names.now)) }
{
    let groups = named_among(alloc, &Group::ALL, names)?;
    Ok(GroupSet::from(groups.as_slice()))
}

/// Whether all names are those of groups.
fn are_groups(names: &[&str]) -> bool
    ensures { result ≡ list_all (λ name. spec.is_group name.now) names.now }
{
    names.iter().all(|name| is_group(name))
}

/// The target with these names: a release or a version by itself, or groups and those that they
/// include. `None` if there is no such target.
pub fn target_of<A: Allocator + Copy>(
    alloc: A,
    names: &[&str],
) -> Result<Option<Target>, AllocError>
    ensures { IfOk result (λ target. IfSome target (IsNamed names.now)) }
{
    if are_groups(names) {
        let groups = groups_of(alloc, names)?;
        return Ok(Some(Target::Groups(groups)));
    }
    if names.len() != 1 {
        return Ok(None);
    }
    single(alloc, names[0])
}
