//! Canonical files, comparisons and keys of a small object, and each of their allocations refused
//! in turn.

use bpf_object::{
    AcceptedObject, ObjectCause as Cause, ObjectError, ObjectFault, SameError, canon_object,
    object_key, same_objects,
};
use btf_raw::BtfCause;
use bumpalo::Bump;
use std::alloc::{AllocError, Global};
use std::process::Abort;

/// A canonical file, written by hand from docs/OBJECTS.md: `pass` in the section `xdp` calls `add`,
/// and has a type, a function, a line and a CO-RE relocation. After the ELF header, each section
/// begins a line, and each section header takes two.
#[rattlefmt::skip]
const CANONICAL: &[u8; 840] = b"\
    \x7fELF\x02\x01\x01\0\0\0\0\0\0\0\0\0\
    \x01\0\xf7\0\x01\0\0\0\0\0\0\0\0\0\0\0\0\0\0\0\0\0\0\0\x88\x01\0\0\0\0\0\0\0\0\0\0@\0\0\0\0\0@\0\x07\0\x06\0\
    \x85\x10\0\0\xff\xff\xff\xff\x95\0\0\0\0\0\0\0\
    \0\0\0\0\0\0\0\0\x0a\0\0\0\x02\0\0\0\
    \x9f\xeb\x01\0\x18\0\0\0\0\0\0\0\x10\0\0\0\x10\0\0\0\x0d\0\0\0\
    \x01\0\0\0\0\0\0\x01\x04\0\0\0 \0\0\x01\
    \0int\0xdp\00:1\0\0\0\0\
    \x9f\xeb\x01\0 \0\0\0\0\0\0\0\x14\0\0\0\x14\0\0\0\x1c\0\0\00\0\0\0\x1c\0\0\0\
    \x08\0\0\0\x05\0\0\0\x01\0\0\0\0\0\0\0\x01\0\0\0\
    \x10\0\0\0\x05\0\0\0\x01\0\0\0\0\0\0\0\0\0\0\0\0\0\0\0\0\0\0\0\
    \x10\0\0\0\x05\0\0\0\x01\0\0\0\0\0\0\0\x01\0\0\0\x09\0\0\0\0\0\0\0\
    \0\0\0\0\
    \0\0\0\0\0\0\0\0\0\0\0\0\0\0\0\0\0\0\0\0\0\0\0\0\
    +\0\0\0\x12\0\x01\0\0\0\0\0\0\0\0\0\x10\0\0\0\0\0\0\0\
    0\0\0\0\x10\0\0\0\0\0\0\0\0\0\0\0\0\0\0\0\0\0\0\0\
    \0xdp\0.relxdp\0.BTF\0.BTF.ext\0.symtab\0.strtab\0pass\0add\0\0\0\0\0\
    \0\0\0\0\0\0\0\0\0\0\0\0\0\0\0\0\0\0\0\0\0\0\0\0\0\0\0\0\0\0\0\0\
    \0\0\0\0\0\0\0\0\0\0\0\0\0\0\0\0\0\0\0\0\0\0\0\0\0\0\0\0\0\0\0\0\
    \x01\0\0\0\x01\0\0\0\x06\0\0\0\0\0\0\0\0\0\0\0\0\0\0\0@\0\0\0\0\0\0\0\
    \x10\0\0\0\0\0\0\0\0\0\0\0\0\0\0\0\x08\0\0\0\0\0\0\0\0\0\0\0\0\0\0\0\
    \x05\0\0\0\x09\0\0\0@\0\0\0\0\0\0\0\0\0\0\0\0\0\0\0P\0\0\0\0\0\0\0\
    \x10\0\0\0\0\0\0\0\x05\0\0\0\x01\0\0\0\x08\0\0\0\0\0\0\0\x10\0\0\0\0\0\0\0\
    \x0d\0\0\0\x01\0\0\0\0\0\0\0\0\0\0\0\0\0\0\0\0\0\0\0`\0\0\0\0\0\0\0\
    5\0\0\0\0\0\0\0\0\0\0\0\0\0\0\0\x04\0\0\0\0\0\0\0\0\0\0\0\0\0\0\0\
    \x12\0\0\0\x01\0\0\0\0\0\0\0\0\0\0\0\0\0\0\0\0\0\0\0\x98\0\0\0\0\0\0\0\
    l\0\0\0\0\0\0\0\0\0\0\0\0\0\0\0\x04\0\0\0\0\0\0\0\0\0\0\0\0\0\0\0\
    \x1b\0\0\0\x02\0\0\0\0\0\0\0\0\0\0\0\0\0\0\0\0\0\0\0\x08\x01\0\0\0\0\0\0\
    H\0\0\0\0\0\0\0\x06\0\0\0\x01\0\0\0\x08\0\0\0\0\0\0\0\x18\0\0\0\0\0\0\0\
    #\0\0\0\x03\0\0\0\0\0\0\0\0\0\0\0\0\0\0\0\0\0\0\0P\x01\0\0\0\0\0\0\
    4\0\0\0\0\0\0\0\0\0\0\0\0\0\0\0\x01\0\0\0\0\0\0\0\0\0\0\0\0\0\0\0\
";

/// What sha256sum prints of it.
#[rattlefmt::skip]
const KEY: [u8; 32] = *b"\x8e\xaf\x20\x9a\x3c\x38\x8a\xb2\xa6\x37\x14\x25\xf5\xdb\x76\x54\x9e\xc1\x0d\x92\x6e\xc3\x7c\x0c\x77\x1b\xcb\xf8\xfa\xe8\x06\x03";

/// A byte that is changed in the canonical file, and whether the object is still the same.
struct Changed(&'static str, usize, u8, bool);

#[rattlefmt::skip]
const CHANGED: &[Changed] = &[
    Changed("EI_OSABI", 7, 3, true),
    Changed("sh_link of xdp", 496, 5, true),
    Changed("line_col of a line", 228, 3, true),
    Changed("e_flags", 48, 1, false),
    Changed("the offset of a call", 67, 1, false),
    Changed("the bits of a type", 132, 0x1f, false),
    Changed("access_str_off of a CO-RE relocation", 252, 10, false),
    Changed("st_other of add", 317, 1, false),
];

#[test]
fn only_what_an_object_holds_changes_its_canonical_file(rt: HostRuntime) -> Result<(), AllocError> {
    let original = canon_object(rt.alloc(), CANONICAL.as_slice()).expect(&rt, "an object");
    assert_eq!(rt; original.as_slice(), CANONICAL.as_slice());
    assert_eq!(rt; object_key(rt.alloc(), CANONICAL.as_slice()), Ok(KEY));
    for Changed(name, pos, byte, same) in CHANGED {
        let mut bytes = Vec::from_slice(rt.alloc(), CANONICAL.as_slice())?;
        if let Some(old) = bytes.get_mut(*pos) {
            *old = *byte;
        }
        let canon = canon_object(rt.alloc(), &bytes).expect(&rt, "an object");
        assert_eq!(rt; canon.as_slice() == CANONICAL.as_slice(), *same, "{name}");
        let found = same_objects(rt.alloc(), CANONICAL.as_slice(), &bytes);
        assert_eq!(rt; found, Ok(*same), "{name}");
        let key = object_key(rt.alloc(), &bytes).map(|key| key == KEY);
        assert_eq!(rt; key, Ok(*same), "{name}");
    }
    Ok(())
}

/// A byte that is changed in .BTF, its offset in the file, and the cause of the fault there.
struct RefusedTypes(&'static str, usize, u8, Cause);

#[rattlefmt::skip]
const REFUSED_TYPES: &[RefusedTypes] = &[
    RefusedTypes("version 2", 98, 2, Cause::Types(BtfCause::Version)),
    RefusedTypes("a name_off of the last NUL", 120, 12, Cause::TypesName),
];

#[test]
fn types_are_checked_by_themselves_and_as_those_of_a_file(
    rt: HostRuntime,
) -> Result<(), AllocError> {
    for RefusedTypes(name, pos, byte, cause) in REFUSED_TYPES {
        let mut bytes = Vec::from_slice(rt.alloc(), CANONICAL.as_slice())?;
        if let Some(old) = bytes.get_mut(*pos) {
            *old = *byte;
        }
        let found = canon_object(rt.alloc(), &bytes).map(|_canon| ());
        let wanted = Err(ObjectError::Fault(ObjectFault {
            pos: *pos as u64,
            cause: *cause,
        }));
        assert_eq!(rt; found, wanted, "{name}");
    }
    Ok(())
}

/// How many bytes an arena has at least, before any are given away. It suffices for each call.
const CAPACITY: usize = 65_536;

/// An arena of one chunk with `capacity` free bytes: the others are allocated first.
fn arena(rt: &impl Abort, alloc: Global, capacity: usize) -> Bump<Global> {
    let bump = Bump::try_with_capacity(alloc, CAPACITY).expect(rt, "ample memory");
    let taken = bump.chunk_capacity().saturating_sub(capacity);
    bump.try_alloc_slice_fill_clone(taken, 0u8)
        .expect(rt, "ample memory");
    bump.set_allocation_limit(Some(bump.allocated_bytes()));
    bump
}

/// A call, and whether it returned what it returns with ample memory, if it had enough.
#[derive(Clone, Copy, Debug)]
enum Call {
    Canon,
    Same,
    Key,
    Read,
}

impl Call {
    fn is_right(self, bump: &Bump<Global>) -> Option<bool> {
        match self {
            Call::Canon => match canon_object(bump, CANONICAL.as_slice()) {
                Ok(canon) => Some(canon.as_slice() == CANONICAL.as_slice()),
                Err(error) => refused(error == ObjectError::Memory),
            },
            Call::Same => match same_objects(bump, CANONICAL.as_slice(), CANONICAL.as_slice()) {
                Ok(same) => Some(same),
                Err(error) => refused(error == SameError::Memory),
            },
            Call::Key => match object_key(bump, CANONICAL.as_slice()) {
                Ok(key) => Some(key == KEY),
                Err(error) => refused(error == ObjectError::Memory),
            },
            Call::Read => match AcceptedObject::read(bump, CANONICAL.as_slice()) {
                Ok(object) => Some(object.elf().bytes() == CANONICAL.as_slice()),
                Err(error) => refused(error == ObjectError::Memory),
            },
        }
    }
}

/// The outcome of a call that returned an error: it may only be that of memory.
fn refused(for_memory: bool) -> Option<bool> {
    if for_memory { None } else { Some(false) }
}

/// The least capacity in which a call doesn't run out of memory, and whether its answer is right there.
fn first_answer(rt: &impl Abort, alloc: Global, call: Call) -> Option<(usize, bool)> {
    for capacity in 0..CAPACITY {
        if let Some(right) = call.is_right(&arena(rt, alloc, capacity)) {
            return Some((capacity, right));
        }
    }
    None
}

#[test]
fn each_call_reports_that_memory_is_refused(rt: HostRuntime) {
    for call in [Call::Canon, Call::Same, Call::Key, Call::Read] {
        let answer = first_answer(&rt, rt.alloc(), call);
        let is_right = matches!(answer, Some((capacity, true)) if capacity > CANONICAL.len());
        assert!(rt; is_right, "{call:?}: {answer:?}");
    }
}
