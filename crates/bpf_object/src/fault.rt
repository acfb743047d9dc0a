//! What is wrong with an object file.

ghost use Rattle.std.specs.Prelude.{◌≡◌, [], ◌∷◌};
ghost use Rattle.bpf_elf.specs.Rules.{rule};
ghost use Rattle.bpf_object.specs.declared.fault.ObjectCause.TheVariants as cause;
ghost use Rattle.bpf_object.specs.declared.fault.ObjectError.TheVariants.{Fault, Memory};
ghost use Rattle.bpf_object.specs.Faults.{Checks};

use bpf_elf::{ElfCause, ElfFault};
use btf_raw::BtfCause;
use std::alloc::AllocError;
use thiserror::Error;

/// A rule that an object file breaks. Offsets are in bytes from the start of the file.
#[derive(Clone, Copy, Debug, PartialEq, Eq, Error)]
pub enum ObjectCause {
    /// A rule on the ELF file. Reported as [`ElfFault`](bpf_elf::ElfFault) says.
    #[error("{0}")]
    Elf(ElfCause),
    /// Reported at sh_size of .BTF.
    #[error(".BTF has more than 15,728,640 bytes")]
    TypesTooLarge,
    /// .BTF isn't valid BTF, with this cause. Reported where the fault is.
    #[error("Types({0})")]
    Types(BtfCause),
    /// Reported at .BTF.
    #[error("the byte order of .BTF isn't that of the file")]
    TypesOrder,
    /// Reported at type_off.
    #[error("type_off of .BTF isn't 0")]
    TypesLayout,
    /// Reported at name_off.
    #[error("a name_off of .BTF that isn't 0 leads to an empty string, or to a name that is too long")]
    TypesName,
    /// Reported at name_off.
    #[error("a DATASEC has a reserved name")]
    TypesSection,
    /// Reported at info.
    #[error("the kind_flag of a struct or union without bit-fields isn't 0")]
    TypesFlag,
    /// Reported at sh_name of .BTF.ext.
    #[error("there is a .BTF.ext, and no .BTF")]
    ExtensionWithoutTypes,
    /// Reported at the section.
    #[error(".BTF.ext has fewer than 32 bytes")]
    ExtensionCut,
    /// Reported at the section.
    #[error(".BTF.ext doesn't begin with its magic number in the byte order of the file")]
    ExtensionMagic,
    /// Reported at the version.
    #[error("the version of .BTF.ext isn't 1")]
    ExtensionVersion,
    /// Reported at the flags.
    #[error("the flags of .BTF.ext aren't 0")]
    ExtensionFlags,
    /// Reported at hdr_len.
    #[error("hdr_len of .BTF.ext is under 32, or not less than the section")]
    ExtensionHeaderSize,
    /// Reported at the offset of the part in the header.
    #[error("a part of .BTF.ext isn't inside the section, or not aligned to 4 bytes")]
    ExtensionPart,
    /// Reported at the part.
    #[error("the record size of a part of .BTF.ext isn't 8 (functions) or 16 (lines, CO-RE relocations)")]
    ExtensionRecordSize,
    /// Reported at the group.
    #[error("a group of records extends past the end of its part, or is empty")]
    ExtensionGroup,
    /// Reported at the group, or at access_str_off.
    #[error("a string of .BTF.ext isn't inside the strings of .BTF, or is too long for the name of a section")]
    ExtensionString,
    /// Reported at the group.
    #[error("functions and source lines of .BTF.ext don't match")]
    ExtensionLines,
    /// Reported at 0.
    #[error("the canonical file has more than 64 MiB, or more than four times the file and 64 KiB, or its .BTF more than 15 MiB")]
    ResultTooLarge,
    /// Reported at the group of functions.
    #[error("a second group of functions has the same section")]
    ExtensionGroupTwice,
    /// Reported at st_value.
    #[error("there are source lines of a function that .BTF.ext doesn't have")]
    FunctionLines,
    /// Reported at name_off.
    #[error("a VAR has the name of a FUNC, or a VAR, FWD or TYPE_TAG has the name of a section")]
    TypesNameTaken,
}

/// The first rule that a file breaks, and where.
#[derive(Clone, Copy, Debug, PartialEq, Eq, Error)]
#[error("{pos}: {cause}")]
pub struct ObjectFault {
    /// The offset in bytes from the start of the file.
    pub pos: u64,
    /// The rule that is broken there.
    pub cause: ObjectCause,
}

/// Why the check of an object file failed.
#[derive(Clone, Debug, Drop, PartialEq, Eq, Error)]
pub enum ObjectError {
    /// The file breaks a rule. This is the first one that it breaks.
    #[error("{0}")]
    Fault(ObjectFault),
    /// Memory could not be allocated.
    #[error("Memory")]
    Memory,
}

impl From<AllocError> for ObjectError {
    ghost from_gives = { λ _ e. e ≡ Memory };

    fn from(_e: AllocError) -> ObjectError {
        ObjectError::Memory
    }
}

impl From<ObjectFault> for ObjectError {
    ghost from_gives = { λ f e. e ≡ Fault f };

    fn from(fault: ObjectFault) -> ObjectError {
        ObjectError::Fault(fault)
    }
}

impl From<ElfFault> for ObjectError {
    ghost from_gives = { λ f e. e ≡ Fault (record { pos = f.pos; cause = cause.Elf f.cause }) };

    fn from(fault: ElfFault) -> ObjectError {
        ObjectError::Fault(ObjectFault {
            pos: fault.pos,
            cause: ObjectCause::Elf(fault.cause),
        })
    }
}

/// Reports a rule that doesn't hold.
pub(crate) fn require(holds: bool, pos: u64, cause: ObjectCause) -> Result<(), ObjectFault>
    ensures { Checks (rule cause pos holds ∷ []) result }
{
    if holds {
        return Ok(());
    }
    Err(ObjectFault { pos, cause })
}
