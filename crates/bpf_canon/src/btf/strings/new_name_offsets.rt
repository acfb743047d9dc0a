//! The interface of both string tables of a file: the one in which names share suffixes, and the
//! one in which they share no bytes. Records are written with the offsets of either.

ghost use Rattle.std.specs.Prelude.{◌≡◌, ℕ, List};
ghost use Rattle.std.specs.List.{Contains};
ghost use Rattle.btf_types.specs.Reading.{text_from};
ghost use Rattle.bpf_canon.specs.btf.strings.NamesByOffset.{NamesByOffset};

/// The new offsets of the names at the used offsets of a string section.
pub(crate) trait NewOffsets {
    ghost names: { Self → NamesByOffset };

    // The new offset of a name.
    ghost offset_of: { Self → List ℕ → ℕ };

    /// The new offset of the name at a used offset, which is 0 for the empty name.
    fn new_offset(&self, off: u32) -> u32
        requires { Contains (names self.now).offsets off }
        ensures { result ≡ offset_of self.now (text_from (names self.now).strings off) };
}
