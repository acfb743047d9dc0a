//! Files of TYPEDEFs whose names all end in one string, which are their own canonical bytes.

use super::btf::check_file;
use super::expect::equal;
use super::nested_names::file;
use bpf_words::Order;
use std::alloc::Global;
use std::process::Abort;

/// The words of `count` TYPEDEFs of type 0, named at 1, 2 and so on.
fn words(rt: &impl Abort, alloc: Global, count: u32) -> Vec<u32> {
    let mut words = Vec::new(alloc);
    for index in 0..count {
        let record = [index.wrapping_add(1), 0x0800_0000, 0];
        words.extend_from_slice(&record).expect(rt, "ample memory");
    }
    words
}

/// A string of `letters` times `a`.
fn strings(rt: &impl Abort, alloc: Global, letters: u32) -> Vec<u8> {
    let mut strings = Vec::from_slice(alloc, b"\0").expect(rt, "ample memory");
    let end = letters.wrapping_add(1) as usize;
    strings.resize(end, b'a').expect(rt, "ample memory");
    strings.push(0).expect(rt, "ample memory");
    strings
}

/// How many TYPEDEFs, how many letters, and the length of the file.
struct Chain {
    count: u32,
    letters: u32,
    len: usize,
}

#[rattlefmt::skip]
static CHAINS: [Chain; 4] = [
    Chain { count: 5791, letters: 5791, len: 75_309 },
    Chain { count: 5792, letters: 5792, len: 75_322 },
    // the longest possible name, by itself and with its longest suffix
    Chain { count: 1, letters: 16_777_214, len: 16_777_252 },
    Chain { count: 2, letters: 16_777_214, len: 16_777_264 },
];

#[test]
fn names_in_one_string_stay_there(rt: HostRuntime) {
    for row in &CHAINS {
        let words = words(&rt, rt.alloc(), row.count);
        let strings = strings(&rt, rt.alloc(), row.letters);
        let file = file(&rt, rt.alloc(), Order::Little, &words, &strings);
        equal(&rt, &file.len(), &row.len, &row.count);
        check_file(&rt, rt.alloc(), &file, &file);
    }
}
