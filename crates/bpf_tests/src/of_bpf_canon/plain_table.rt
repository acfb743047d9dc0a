//! The string table in which names share suffixes, computed plainly: each name is tested against all others.

use std::alloc::Global;
use std::cmp::Ordering;
use std::process::Abort;

/// The text from an offset of a string section to the next NUL.
pub(crate) fn text_at(strings: &[u8], off: usize) -> &[u8] {
    let rest = strings.get(off..).unwrap_or(&[]);
    rest.split(|byte| *byte == 0).next().unwrap_or(&[])
}

/// The string table of names, and the offset of each in it.
#[derive(Drop)]
pub(crate) struct PlainTable<'a> {
    hosts: Vec<&'a [u8], Global>,
}

impl<'a> PlainTable<'a> {
    /// Finds the hosts: the names that end no other, each once, in the order of first use.
    pub(crate) fn of(rt: &impl Abort, alloc: Global, names: &[&'a [u8]]) -> PlainTable<'a> {
        let mut hosts = Vec::new(alloc);
        for (index, name) in names.iter().enumerate() {
            let before = names.get(..index).unwrap_or(&[]);
            let is_new = !name.is_empty() && !before.contains(name);
            if is_new && !ends_another(name, names) {
                hosts.push(*name).expect(rt, "ample memory");
            }
        }
        PlainTable { hosts }
    }

    /// Where a name begins: at the end of the host that comes first by its bytes from the end.
    pub(crate) fn new_offset(&self, name: &[u8]) -> u32 {
        let mut least: Option<(u32, &[u8])> = None;
        let mut begin: u32 = 1;
        for host in &self.hosts {
            if !name.is_empty() && host.ends_with(name) && is_less(host, least) {
                least = Some((begin, *host));
            }
            begin = begin.wrapping_add(length_of(host.len())).wrapping_add(1);
        }
        match least {
            Some((begin, host)) => {
                let before = length_of(host.len().saturating_sub(name.len()));
                begin.wrapping_add(before)
            }
            None => 0,
        }
    }

    /// The table's bytes: a NUL, then each host with its NUL.
    pub(crate) fn bytes(&self, rt: &impl Abort, alloc: Global) -> Vec<u8, Global> {
        let mut bytes = Vec::from_slice(alloc, b"\0").expect(rt, "ample memory");
        for host in &self.hosts {
            bytes.extend_from_slice(host).expect(rt, "ample memory");
            bytes.push(0).expect(rt, "ample memory");
        }
        bytes
    }
}

/// Whether a name is a suffix of a longer one.
fn ends_another(name: &[u8], names: &[&[u8]]) -> bool {
    for other in names {
        if other.len() > name.len() && other.ends_with(name) {
            return true;
        }
    }
    false
}

/// A length of a small list as a word.
pub(crate) fn length_of(len: usize) -> u32 {
    u32::try_from(len).unwrap_or(u32::MAX)
}

/// Whether a name sorts before another by its bytes from the end, or is the only one.
fn is_less(text: &[u8], other: Option<(u32, &[u8])>) -> bool {
    match other {
        Some((_, other)) => text.iter().rev().cmp(other.iter().rev()) == Ordering::Less,
        None => true,
    }
}
