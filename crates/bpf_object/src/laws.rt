//! Laws of canonical object files, stated over the definitions only.
//!
//! Each function does nothing. Its contract is the law, for all files and all objects that they
//! denote.

ghost use Rattle.bpf_object.specs.Laws as spec;

/// The canonical file of an object that a file denotes is a valid file of this object, and its own
/// canonical file.
#[tactic(auto, using(crate::proofs::CanonDenotes::canonical_denotes, crate::proofs::CanonDenotes::canonical_own))]
pub fn canonical_objects_are_accepted()
    ensures accepted { spec.CanonicalObjectsAreAccepted }
    ensures own { spec.CanonicalObjectsAreOwn }
{}

/// Objects that files denote are equal if their canonical files are.
#[tactic(auto, using(crate::proofs::CanonDenotes::canonical_apart))]
pub fn canonical_objects_tell_apart()
    ensures { spec.CanonicalObjectsTellApart }
{}
