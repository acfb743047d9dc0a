//! Mnemonics as values, and their strings.

ghost use Rattle.std.specs.Prelude.{◌≡◌, ◌≢◌, ◌↔◌, IsTrue, IfSome, IfNone};
ghost use Rattle.bpf_text.specs.declared.insn.mnemonic.Mnemonic.{Mnemonic};
ghost use Rattle.bpf_text.specs.insn.Mnemonics.{text_of_mnemonic, mnemonic_of};

use crate::insn::mnemonic_hash::index_of;
use bpf_insn::{
    AluOp, AtomicOp, BranchOp, Insn, MovsxForm, Size, SmallSize, SwapBits, SwapKind, WideOf, Width,
};

/// What a wide load loads.
#[derive(Clone, Copy)]
pub(crate) enum WideKind {
    Number,
    MapFd,
    MapValueFd,
    VarAddr,
    CodeAddr,
    MapIdx,
    MapValueIdx,
}

/// A mnemonic: what an instruction is without its operands.
#[derive(Clone, Copy)]
pub(crate) enum Mnemonic {
    Alu(Width, AluOp),
    Movsx(MovsxForm),
    Neg(Width),
    Swap(SwapKind, SwapBits),
    Jump,
    JumpLong,
    Branch(Width, BranchOp),
    CallHelper,
    CallLocal,
    CallBtf,
    Exit,
    Load(Size),
    LoadSigned(SmallSize),
    StoreImm(Size),
    StoreReg(Size),
    Atomic(Width, AtomicOp),
    Wide(WideKind),
    PacketAbs(SmallSize),
    PacketInd(SmallSize),
}

/// The table of mnemonics: for each family, what its mnemonics have in common, and the rest of each
/// with its string. It is passed to the macro `$make`, after the value if that macro takes one.
macro_rules! mnemonics {
    ($make:ident $(, $value:expr)?) => {
        $make! {
            $($value)?;
            Alu(Width::W32, AluOp) {
                Add "add32", Sub "sub32", Mul "mul32", Div "div32", Sdiv "sdiv32", Or "or32",
                And "and32", Lsh "lsh32", Rsh "rsh32", Mod "mod32", Smod "smod32", Xor "xor32",
                Mov "mov32", Arsh "arsh32"
            }
            Alu(Width::W64, AluOp) {
                Add "add", Sub "sub", Mul "mul", Div "div", Sdiv "sdiv", Or "or", And "and",
                Lsh "lsh", Rsh "rsh", Mod "mod", Smod "smod", Xor "xor", Mov "mov", Arsh "arsh"
            }
            Branch(Width::W32, BranchOp) {
                Eq "jeq32", Gt "jgt32", Ge "jge32", Set "jset32", Ne "jne32", Sgt "jsgt32",
                Sge "jsge32", Lt "jlt32", Le "jle32", Slt "jslt32", Sle "jsle32"
            }
            Branch(Width::W64, BranchOp) {
                Eq "jeq", Gt "jgt", Ge "jge", Set "jset", Ne "jne", Sgt "jsgt", Sge "jsge",
                Lt "jlt", Le "jle", Slt "jslt", Sle "jsle"
            }
            Atomic(Width::W32, AtomicOp) {
                Add "atomic_add32", Or "atomic_or32", And "atomic_and32", Xor "atomic_xor32",
                FetchAdd "fetch_add32", FetchOr "fetch_or32", FetchAnd "fetch_and32",
                FetchXor "fetch_xor32", Xchg "xchg32", Cmpxchg "cmpxchg32"
            }
            Atomic(Width::W64, AtomicOp) {
                Add "atomic_add", Or "atomic_or", And "atomic_and", Xor "atomic_xor",
                FetchAdd "fetch_add", FetchOr "fetch_or", FetchAnd "fetch_and",
                FetchXor "fetch_xor", Xchg "xchg", Cmpxchg "cmpxchg"
            }
            Swap(SwapKind::Le, SwapBits) { B16 "le16", B32 "le32", B64 "le64" }
            Swap(SwapKind::Be, SwapBits) { B16 "be16", B32 "be32", B64 "be64" }
            Swap(SwapKind::Swap, SwapBits) { B16 "swap16", B32 "swap32", B64 "swap64" };
            Movsx(MovsxForm) {
                W32From8 "movsx8_32", W32From16 "movsx16_32", W64From8 "movsx8",
                W64From16 "movsx16", W64From32 "movsx32"
            }
            Neg(Width) { W32 "neg32", W64 "neg" }
            Load(Size) { B "ldxb", H "ldxh", W "ldxw", D "ldxdw" }
            LoadSigned(SmallSize) { B "ldxsb", H "ldxsh", W "ldxsw" }
            StoreImm(Size) { B "stb", H "sth", W "stw", D "stdw" }
            StoreReg(Size) { B "stxb", H "stxh", W "stxw", D "stxdw" }
            Wide(WideKind) {
                Number "lddw", MapFd "lddw_map", MapValueFd "lddw_map_value", VarAddr "lddw_var",
                CodeAddr "lddw_code", MapIdx "lddw_idx", MapValueIdx "lddw_idx_value"
            }
            PacketAbs(SmallSize) { B "ldabsb", H "ldabsh", W "ldabsw" }
            PacketInd(SmallSize) { B "ldindb", H "ldindh", W "ldindw" };
            Jump "ja", JumpLong "ja32", CallHelper "call",
            CallLocal "call_local", CallBtf "call_btf", Exit "exit"
        }
    };
}

/// An array of the mnemonics in the table.
macro_rules! values {
    (;
        $($pair:ident($of:ident::$is:ident, $and:ident) { $($op:ident $op_text:literal),* })*;
        $($one:ident($kind:ident) { $($case:ident $case_text:literal),* })*;
        $($unit:ident $unit_text:literal),*
    ) => {
        [
            $($(Mnemonic::$pair($of::$is, $and::$op),)*)*
            $($(Mnemonic::$one($kind::$case),)*)*
            $(Mnemonic::$unit),*
        ]
    };
}

/// The string of a mnemonic in the table.
macro_rules! text_in_table {
    ($value:expr;
        $($pair:ident($of:ident::$is:ident, $and:ident) { $($op:ident $op_text:literal),* })*;
        $($one:ident($kind:ident) { $($case:ident $case_text:literal),* })*;
        $($unit:ident $unit_text:literal),*
    ) => {
        match $value {
            $($(Mnemonic::$pair($of::$is, $and::$op) => $op_text,)*)*
            $($(Mnemonic::$one($kind::$case) => $case_text,)*)*
            $(Mnemonic::$unit => $unit_text),*
        }
    };
}

/// All mnemonics, at the indices that `mnemonic_hash` finds.
static ALL: [Mnemonic; 120] = mnemonics!(values);

impl Mnemonic {
    /// The mnemonic of an instruction.
    #[inline(always)]
    #[rattlefmt::skip]
    pub(crate) fn of(insn: &Insn) -> Mnemonic
        ensures { result ≡ mnemonic_of insn.now }
    {
        match *insn {
            Insn::Alu { width, op, .. } => Mnemonic::Alu(width, op),
            Insn::Movsx { form, .. } => Mnemonic::Movsx(form),
            Insn::Neg { width, .. } => Mnemonic::Neg(width),
            Insn::Swap { kind, bits, .. } => Mnemonic::Swap(kind, bits),
            Insn::Jump { .. } => Mnemonic::Jump,
            Insn::JumpLong { .. } => Mnemonic::JumpLong,
            Insn::Branch { width, op, .. } => Mnemonic::Branch(width, op),
            Insn::CallHelper { .. } => Mnemonic::CallHelper,
            Insn::CallLocal { .. } => Mnemonic::CallLocal,
            Insn::CallBtf { .. } => Mnemonic::CallBtf,
            Insn::Exit => Mnemonic::Exit,
            Insn::Load { size, .. } => Mnemonic::Load(size),
            Insn::LoadSigned { size, .. } => Mnemonic::LoadSigned(size),
            Insn::StoreImm { size, .. } => Mnemonic::StoreImm(size),
            Insn::StoreReg { size, .. } => Mnemonic::StoreReg(size),
            Insn::Atomic { width, op, .. } => Mnemonic::Atomic(width, op),
            Insn::Wide { what: WideOf::Number(_), .. } => Mnemonic::Wide(WideKind::Number),
            Insn::Wide { what: WideOf::MapFd(_), .. } => Mnemonic::Wide(WideKind::MapFd),
            Insn::Wide { what: WideOf::MapValueFd(_, _), .. } =>
                Mnemonic::Wide(WideKind::MapValueFd),
            Insn::Wide { what: WideOf::VarAddr(_, _), .. } => Mnemonic::Wide(WideKind::VarAddr),
            Insn::Wide { what: WideOf::CodeAddr(_), .. } => Mnemonic::Wide(WideKind::CodeAddr),
            Insn::Wide { what: WideOf::MapIdx(_), .. } => Mnemonic::Wide(WideKind::MapIdx),
            Insn::Wide { what: WideOf::MapValueIdx(_, _), .. } =>
                Mnemonic::Wide(WideKind::MapValueIdx),
            Insn::PacketAbs { size, .. } => Mnemonic::PacketAbs(size),
            Insn::PacketInd { size, .. } => Mnemonic::PacketInd(size),
        }
    }

    /// The mnemonic as a string.
    pub(crate) fn text(self) -> &'static str
        ensures { result.now ≡ text_of_mnemonic self }
    {
        mnemonics!(text_in_table, self)
    }

    /// The mnemonic that a token spells, if any.
    pub(crate) fn read(token: &[u8]) -> Option<Mnemonic>
        ensures none { IfNone result ((m : Mnemonic) → token.now ≢ text_of_mnemonic m) }
        ensures some { IfSome result (λ m. token.now ≡ text_of_mnemonic m) }
    {
        let mnemonic = ALL[index_of(token)];
        (token == mnemonic.text().as_bytes()).then_some(mnemonic)
    }
}
