//! The names of a type table that exposes no sections, with their offsets in its string table.
//! Names share suffixes there: each name is a suffix of its host.
//!
//! If the distinct names are sorted by their reversed bytes, a name that is a suffix of any other
//! name is a suffix of the next one, and both have the same host (law `next_tells_host`). Therefore
//! each name is compared only with the next one.
//!
//! Such a table, which a user implements, has only strings. So they are hashed, in a set that keeps
//! the order of first use. Copying them into a section, for which `strings.rt` finds hosts without
//! hashing, isn't possible: they may share their bytes in memory, and their copies could need 10^13
//! bytes. The seed of the hash is fixed, so whoever chooses the names of such a table can make them
//! collide and look-ups slow. The names of `BtfView` and `Btf` are never hashed.

ghost use Rattle.std.specs.Prelude.{◌≡◌, ◌<◌, ◌≤◌, ◌^◌, ◌++◌, IfOk, OnOk, length};
ghost use Rattle.btf_types.specs.Names.{kept, names, record_names, table_of};
ghost use Rattle.btf_types.specs.strings.SharedNames.{hosts_of, shared_among};
ghost use Rattle.btf_types.specs.{Valid.IsValid, tables.TableWords.record_at};
ghost use Rattle.bpf_canon.specs.btf.names.Interned as spec;

use crate::btf::suffixes::compare_from_end;
use btf_types::TypeTable;
use indexmap::IndexSet;
use std::alloc::{AllocError, Allocator};
use std::hash::{BuildHasherDefault, FoldHasher};
use std::marker::Model;

/// Distinct names, in the order of first use.
pub(crate) type NameSet<'a, A> = IndexSet<&'a str, BuildHasherDefault<FoldHasher>, A>;

/// Adds a name, unless it is empty or already present.
fn add_name<'a, A: Allocator + Copy>(
    names: &mut NameSet<'a, A>,
    name: &'a str,
) -> Result<(), AllocError>
    ensures { OnOk result (spec.AddsName (spec.borrowed_texts names.old.keys)
        (spec.borrowed_texts names.new.keys) name.now) }
{
    if !name.is_empty() {
        names.insert(name)?;
    }
    Ok(())
}

/// Adds the names of one record: its own, then the names of its items.
#[tactic(auto, using(crate::proofs::BtfLemmas::Names::Gathering::item_names_more))]
fn add_record_names<'t, T: TypeTable, A: Allocator + Copy>(
    names: &mut NameSet<'t, A>,
    table: &'t T,
    id: u32,
) -> Result<(), AllocError>
    requires first { 0 < id }
    requires last { id ≤ length (T.meaning table.now) }
    ensures { OnOk result (spec.AddsNames (spec.borrowed_texts names.old.keys)
        (spec.borrowed_texts names.new.keys) (record_names (record_at (T.meaning table.now) id))) }
{
    add_name(names, table.head(id).name())?;
    for k in 0..table.item_count(id) {
        add_name(names, table.item(id, k).name())?;
    }
    Ok(())
}

/// The distinct non-empty names of a type table.
#[tactic(auto, using(crate::proofs::BtfLemmas::Names::Gathering::record_names_more))]
pub(crate) fn kept_names<'t, T: TypeTable, A: Allocator + Copy>(
    alloc: A,
    table: &'t T,
) -> Result<NameSet<'t, A>, AllocError>
    ensures names { IfOk result (λ found.
        spec.borrowed_texts found.keys ≡ kept (names (T.meaning table.now))) }
    ensures valid { IfOk result (λ _. IsValid (T.meaning table.now)) }
{
    let mut found = IndexSet::new(alloc);
    for index in 0..table.count() {
        add_record_names(&mut found, table, index + 1)?;
    }
    Ok(found)
}

/// The names with their indices, sorted by their reversed bytes.
fn sorted_from_end<'a, A: Allocator>(
    alloc: A,
    names: &[&'a str],
) -> Result<Vec<(&'a str, usize), A>, AllocError>
    ensures { IfOk result (λ sorted. spec.AreIndexed (spec.borrowed_texts names.now) sorted.items) }
{
    let mut sorted = Vec::with_capacity(alloc, names.len())?;
    for index in 0..names.len() {
        sorted.push((names[index], index))?;
    }
    sorted.sort_by(|a, b| compare_from_end(a.0.as_bytes(), b.0.as_bytes()))?;
    Ok(sorted)
}

/// The index of each name's host.
fn found_hosts<'a, A: Allocator + Copy>(
    alloc: A,
    names: &[&'a str],
) -> Result<Vec<usize, A>, AllocError>
    requires { kept (spec.borrowed_texts names.now) ≡ spec.borrowed_texts names.now }
    ensures { IfOk result (λ found. spec.HaveHosts (spec.borrowed_texts names.now) found.items) }
{
    let sorted = sorted_from_end(alloc, names)?;
    let mut host_indices = vec![in alloc; 0; names.len()]?;
    let mut host = 0;
    for rank in (0..sorted.len()).rev() {
        let (name, index) = sorted[rank];
        if rank + 1 == sorted.len() || !sorted[rank + 1].0.as_bytes().ends_with(name.as_bytes()) {
            host = index;
        }
        host_indices[index] = host;
    }
    Ok(host_indices)
}

/// The offset of each host in the string table, by index, and the length of the table in bytes.
fn placed_hosts<A: Allocator>(
    alloc: A,
    names: &[&str],
    host_indices: &[usize],
) -> Result<(Vec<u32, A>, u32), AllocError>
    requires own { kept (spec.borrowed_texts names.now) ≡ spec.borrowed_texts names.now }
    requires host_indices { spec.HaveHosts (spec.borrowed_texts names.now) host_indices.now }
    requires capacity { length (table_of (hosts_of (spec.borrowed_texts names.now))) < 2 ^ 32 }
    ensures { IfOk result (λ (offsets, len).
        spec.ArePlacedHosts (spec.borrowed_texts names.now) host_indices.now offsets.items len) }
{
    let mut text_offsets = vec![in alloc; 0; names.len()]?;
    let mut len = 1;
    for index in 0..names.len() {
        if host_indices[index] == index {
            text_offsets[index] = len;
            len += names[index].len() as u32 + 1;
        }
    }
    Ok((text_offsets, len))
}

/// Distinct names that share suffixes.
#[derive(Drop)]
pub(crate) struct SharedNames<'a, A: Allocator> {
    names: NameSet<'a, A>,
    /// The index of each name's host.
    host_indices: Vec<usize, A>,
    /// The offset of each host in the string table.
    text_offsets: Vec<u32, A>,
    table_len: u32,
}

impl<'a, A: Allocator> Model for SharedNames<'a, A> {
    ghost use Rattle.std.specs.Prelude.{ℕ, List};
    ghost use Rattle.bpf_canon.specs.btf.names.Interned.{borrowed_texts, AreShared};

    ghost Value = { List (List ℕ) };

    ghost view = { λ n. borrowed_texts n.names.keys };

    ghost invariant = { λ n. AreShared (borrowed_texts n.names.keys)
        n.host_indices.items n.text_offsets.items n.table_len };
}

impl<'a, A: Allocator + Copy> SharedNames<'a, A> {
    /// Computes the offsets of the names.
    pub(crate) fn new(alloc: A, names: NameSet<'a, A>) -> Result<Self, AllocError>
        requires own { kept (spec.borrowed_texts names.keys) ≡ spec.borrowed_texts names.keys }
        requires capacity { length (table_of (hosts_of (spec.borrowed_texts names.keys))) < 2 ^ 32 }
        ensures { IfOk result (λ n. n ≡ spec.borrowed_texts names.entry.keys) }
    {
        let host_indices = found_hosts(alloc, names.as_slice())?;
        let (text_offsets, table_len) = placed_hosts(alloc, names.as_slice(), &host_indices)?;
        Ok(SharedNames {
            names,
            host_indices,
            text_offsets,
            table_len,
        })
    }

    /// The offset of a name in the string table, within its host. The empty name has offset 0.
    pub(crate) fn new_offset(&self, name: &str) -> u32
        requires { spec.IsInTable self.now name.now }
        ensures { result ≡ shared_among self.now name.now }
    {
        if name.is_empty() {
            return 0;
        }
        let index = self.names.get_index_of(name).unwrap();
        let host = self.host_indices[index];
        self.text_offsets[host] + (self.names.as_slice()[host].len() - name.len()) as u32
    }

    /// Appends the string table: NUL, then each host with its NUL.
    pub(crate) fn push_table<B: Allocator>(&self, out: &mut Vec<u8, B>) -> Result<(), AllocError>
        ensures { OnOk result (out.new.items ≡ out.old.items ++ table_of (hosts_of self.now)) }
    {
        let names = self.names.as_slice();
        out.push(0)?;
        for index in 0..names.len() {
            if self.host_indices[index] == index {
                out.extend_from_slice(names[index].as_bytes())?;
                out.push(0)?;
            }
        }
        Ok(())
    }

    /// The length of the string table in bytes.
    pub(crate) fn table_len(&self) -> u32
        ensures { result ≡ length (table_of (hosts_of self.now)) }
    {
        self.table_len
    }
}
