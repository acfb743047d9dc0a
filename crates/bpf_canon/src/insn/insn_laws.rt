//! Laws of canonical bytes of instructions. Those of BTF are in `btf_laws.rt`.

ghost use Rattle.bpf_canon.specs.insn.Canonical as spec;

/// The canonical bytes of instructions are a valid file with these instructions.
#[tactic(auto, using(crate::proofs::InsnLemmas::CanonLemmas::accepted))]
pub fn canonical_bytes_are_accepted()
    ensures { spec.CanonicalBytesAreAccepted }
{}

/// Canonical bytes canonicalise to themselves.
#[tactic(auto, using(crate::proofs::InsnLemmas::CanonLemmas::own))]
pub fn canonical_bytes_are_their_own()
    ensures { spec.CanonicalBytesAreTheirOwn }
{}

/// Two files have the same canonical bytes if and only if they have the same instructions.
#[tactic(auto, using(crate::proofs::InsnLemmas::CanonLemmas::apart))]
pub fn canonical_bytes_tell_files_apart()
    ensures { spec.CanonicalBytesTellFilesApart }
{}
