//! Releases of Linux, and the instructions that they added ("Instructions by kernel version" in
//! docs/FORMATS.md).

ghost use Rattle.std.specs.Prelude.{◌≡◌, IfOk, string_bytes};
ghost use Rattle.bpfcanon_object.specs.Linux as spec;

use bpf_insn::{AluOp, AtomicOp, BranchOp, Insn, SwapKind, WideOf, Width};
use std::alloc::{AllocError, Allocator};

/// A release of Linux.
#[derive(Clone, Copy, Debug, PartialEq, Eq)]
pub struct Linux {
    /// The first number.
    pub major: u8,
    /// The second number.
    pub minor: u8,
}

impl Linux {
    /// Whether a release is this one or a later one.
    pub fn is_until(self, other: Linux) -> bool
        ensures { result ≡ spec.is_until self other }
    {
        self.major < other.major || self.major == other.major && self.minor <= other.minor
    }

    /// The two numbers, as in `5.4`.
    pub fn text<A: Allocator>(self, alloc: A) -> Result<String<A>, AllocError>
        ensures { IfOk result (λ text. string_bytes text ≡ spec.linux_text self) }
    {
        let Linux { major, minor } = self;
        format!(in alloc; "{major}.{minor}")
    }
}

/// A version of the instruction set of LLVM: clang's `-mcpu`.
#[derive(Clone, Copy, Debug, PartialEq, Eq)]
pub enum Cpu {
    /// The instructions of the first release.
    V1,
    /// With `jlt` and its like.
    V2,
    /// With operations on 32 bits, and atomic ones.
    V3,
    /// All instructions of RFC 9669.
    V4,
}

impl Cpu {
    /// The number of the version.
    pub fn number(self) -> u8
        ensures { result ≡ spec.cpu_number self }
    {
        match self {
            Cpu::V1 => 1,
            Cpu::V2 => 2,
            Cpu::V3 => 3,
            Cpu::V4 => 4,
        }
    }

    /// The name for `-mcpu`.
    pub fn name(self) -> &'static str
        ensures { result.now ≡ spec.cpu_name self }
    {
        match self {
            Cpu::V1 => "v1",
            Cpu::V2 => "v2",
            Cpu::V3 => "v3",
            Cpu::V4 => "v4",
        }
    }
}

/// Instructions that one release of Linux added, in the order of the releases.
#[derive(Clone, Copy, Debug, PartialEq, Eq)]
pub enum Addition {
    /// Those of the first release.
    Base,
    /// Loads from packet data.
    Packet,
    /// Branches by less than.
    Jlt,
    /// Calls of functions of the same program.
    CallLocal,
    /// Arithmetic shifts on 32 bits.
    Arsh32,
    /// Branches on 32 bits.
    Jump32,
    /// Addresses in the values of maps.
    LddwMapValue,
    /// Addresses of variables of the kernel.
    LddwVar,
    /// Atomic operations other than addition.
    Atomic,
    /// Calls by BTF ID.
    CallBtf,
    /// Addresses of functions.
    LddwCode,
    /// Maps by index.
    LddwIdx,
    /// Sign-extending loads.
    Ldxs,
    /// Sign-extending moves.
    Movsx,
    /// Unconditional byte swaps.
    Swap,
    /// Signed division and remainder.
    Sdiv,
    /// Jumps by 32 bits.
    Ja32,
    /// Jumps that the kernel takes when a loop has run too long. Not in RFC 9669.
    MayGoto,
    /// Casts between address spaces. Not in RFC 9669.
    AddrSpaceCast,
    /// Atomic loads with acquire semantics. Not in RFC 9669.
    LoadAcquire,
    /// Atomic stores with release semantics. Not in RFC 9669.
    StoreRelease,
}

impl Addition {
    /// The name in FORMATS.
    pub fn name(self) -> &'static str
        ensures { result.now ≡ spec.addition_name self }
    {
        match self {
            Addition::Base => "base",
            Addition::Packet => "packet",
            Addition::Jlt => "jlt",
            Addition::CallLocal => "call_local",
            Addition::Arsh32 => "arsh32",
            Addition::Jump32 => "jump32",
            Addition::LddwMapValue => "lddw_map_value",
            Addition::LddwVar => "lddw_var",
            Addition::Atomic => "atomic",
            Addition::CallBtf => "call_btf",
            Addition::LddwCode => "lddw_code",
            Addition::LddwIdx => "lddw_idx",
            Addition::Ldxs => "ldxs",
            Addition::Movsx => "movsx",
            Addition::Swap => "swap",
            Addition::Sdiv => "sdiv",
            Addition::Ja32 => "ja32",
            Addition::MayGoto => "may_goto",
            Addition::AddrSpaceCast => "addr_space_cast",
            Addition::LoadAcquire => "load_acquire",
            Addition::StoreRelease => "store_release",
        }
    }

    /// The release.
    pub fn linux(self) -> Linux
        ensures { result ≡ spec.linux_of self }
    {
        let (major, minor) = match self {
            Addition::Base => (3, 18),
            Addition::Packet => (3, 19),
            Addition::Jlt => (4, 14),
            Addition::CallLocal => (4, 16),
            Addition::Arsh32 => (5, 0),
            Addition::Jump32 => (5, 1),
            Addition::LddwMapValue => (5, 2),
            Addition::LddwVar => (5, 10),
            Addition::Atomic => (5, 12),
            Addition::CallBtf => (5, 13),
            Addition::LddwCode => (5, 13),
            Addition::LddwIdx => (5, 14),
            Addition::Ldxs => (6, 6),
            Addition::Movsx => (6, 6),
            Addition::Swap => (6, 6),
            Addition::Sdiv => (6, 6),
            Addition::Ja32 => (6, 6),
            Addition::MayGoto => (6, 9),
            Addition::AddrSpaceCast => (6, 9),
            Addition::LoadAcquire => (6, 15),
            Addition::StoreRelease => (6, 15),
        };
        Linux { major, minor }
    }

    /// The first version for which clang writes these instructions.
    pub fn cpu(self) -> Cpu
        ensures { result ≡ spec.cpu_of self }
    {
        match self {
            Addition::Base => Cpu::V1,
            Addition::Packet => Cpu::V1,
            Addition::Jlt => Cpu::V2,
            Addition::CallLocal => Cpu::V1,
            Addition::Arsh32 => Cpu::V3,
            Addition::Jump32 => Cpu::V3,
            Addition::LddwMapValue => Cpu::V1,
            Addition::LddwVar => Cpu::V1,
            Addition::Atomic => Cpu::V3,
            Addition::CallBtf => Cpu::V1,
            Addition::LddwCode => Cpu::V1,
            Addition::LddwIdx => Cpu::V1,
            Addition::Ldxs => Cpu::V4,
            Addition::Movsx => Cpu::V4,
            Addition::Swap => Cpu::V4,
            Addition::Sdiv => Cpu::V4,
            Addition::Ja32 => Cpu::V4,
            Addition::MayGoto => Cpu::V1,
            Addition::AddrSpaceCast => Cpu::V1,
            Addition::LoadAcquire => Cpu::V4,
            Addition::StoreRelease => Cpu::V4,
        }
    }

    /// Of two additions that of the later release, this one if both have the same.
    pub fn later(self, other: Addition) -> Addition
        ensures { result ≡ spec.later self other }
    {
        if other.linux().is_until(self.linux()) {
            self
        } else {
            other
        }
    }
}

/// The addition that an arithmetic operation is in.
fn alu_addition(width: Width, op: AluOp) -> Addition
    ensures { result ≡ spec.alu_addition width op }
{
    match op {
        AluOp::Sdiv | AluOp::Smod => Addition::Sdiv,
        AluOp::Arsh if width == Width::W32 => Addition::Arsh32,
        _ => Addition::Base,
    }
}

/// The addition that a branch is in.
fn branch_addition(width: Width, op: BranchOp) -> Addition
    ensures { result ≡ spec.branch_addition width op }
{
    match (width, op) {
        (Width::W32, _) => Addition::Jump32,
        (Width::W64, BranchOp::Lt | BranchOp::Le | BranchOp::Slt | BranchOp::Sle) => Addition::Jlt,
        _ => Addition::Base,
    }
}

/// The addition that a wide load is in.
fn wide_addition(what: WideOf) -> Addition
    ensures { result ≡ spec.wide_addition what }
{
    match what {
        WideOf::Number(_) | WideOf::MapFd(_) => Addition::Base,
        WideOf::MapValueFd(_, _) => Addition::LddwMapValue,
        WideOf::VarAddr(_, _) => Addition::LddwVar,
        WideOf::CodeAddr(_) => Addition::LddwCode,
        WideOf::MapIdx(_) | WideOf::MapValueIdx(_, _) => Addition::LddwIdx,
    }
}

/// The addition that an instruction is in.
#[rattlefmt::skip]
pub fn addition_of(insn: Insn) -> Addition
    ensures { result ≡ spec.addition_of insn }
{
    match insn {
        Insn::Alu { width, op, .. } => alu_addition(width, op),
        Insn::Branch { width, op, .. } => branch_addition(width, op),
        Insn::Wide { what, .. } => wide_addition(what),
        Insn::Atomic { op, .. } if op != AtomicOp::Add => Addition::Atomic,
        Insn::Swap { kind: SwapKind::Swap, .. } => Addition::Swap,
        Insn::Movsx { .. } => Addition::Movsx,
        Insn::LoadSigned { .. } => Addition::Ldxs,
        Insn::JumpLong { .. } => Addition::Ja32,
        Insn::CallLocal { .. } => Addition::CallLocal,
        Insn::CallBtf { .. } => Addition::CallBtf,
        Insn::PacketAbs { .. } | Insn::PacketInd { .. } => Addition::Packet,
        _ => Addition::Base,
    }
}
