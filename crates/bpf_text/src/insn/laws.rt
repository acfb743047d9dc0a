//! Laws of listings: what no single call states, such as that an input lists at most one list of
//! instructions.
//!
//! Each function does nothing: its contract is the law, and cites definitions only. The functions
//! are public, so that other crates can build on them. They are about listings of instructions,
//! since type listings are only written.

ghost use Rattle.std.specs.Prelude.{◌≡◌, ℕ, List, All};
ghost use Rattle.bpf_insn.specs.{declared.insn.Insn.Insn, Table.IsInsn};
ghost use Rattle.bpf_text.specs.{declared.insn.fault.LineFault.LineFault, insn.Lines.listing_of};
ghost use Rattle.bpf_text.specs.insn.Listing.{Lists, IsListFault};

/// No input lists two different lists of instructions.
pub fn text_has_one_list()
    ensures { (text : List ℕ) (l m : List Insn) → Lists text l → Lists text m → l ≡ m }
{}

/// The listing of valid instructions lists these instructions.
#[tactic(auto, using(crate::proofs::InsnLemmas::WrittenLines::listing_lists))]
pub fn lines_list_themselves()
    ensures { (l : List Insn) → All IsInsn l → Lists (listing_of l) l }
{}

/// The fault of an input is unique.
pub fn text_has_one_fault()
    ensures { (text : List ℕ) (f g : LineFault) → IsListFault text f → IsListFault text g → f ≡ g }
{}
