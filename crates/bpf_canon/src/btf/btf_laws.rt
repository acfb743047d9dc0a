//! Laws of canonical BTF, stated over the definitions only.
//!
//! Each function does nothing. Its contract is the law, for all byte sequences and all lists of
//! records.

ghost use Rattle.std.specs.Prelude.{ℕ, List};
ghost use Rattle.btf_types.specs.strings.TableLaws.{SectionsAreCut, NamesEndStrings, HostsEndApart};
ghost use Rattle.bpf_canon.specs.btf.BtfLaws as spec;

pub use btf_types::laws::next_tells_host as next_name_tells_host;

/// The canonical bytes of valid records, in either byte order, are a valid file that denotes these
/// records.
#[tactic(auto, using(crate::proofs::BtfLemmas::CanonicalFiles::canonical_denotes))]
pub fn canonical_btf_is_accepted()
    ensures { spec.CanonicalBtfIsAccepted }
{}

/// Valid lists of records with the same canonical bytes are equal.
#[tactic(auto, using(crate::proofs::BtfLemmas::CanonicalFiles::canonical_apart))]
pub fn canonical_btf_tells_apart()
    ensures { spec.CanonicalBtfTellsApart }
{}

/// No valid file is shorter than the canonical bytes of the records that it denotes.
#[tactic(auto, using(crate::proofs::BtfLemmas::CanonicalFiles::canonical_shortest))]
pub fn canonical_btf_is_shortest()
    ensures { spec.CanonicalBtfIsShortest }
{}

/// Each host (a name that isn't a suffix of another name, and therefore has its own string in the
/// canonical table) ends a different string of any section that contains all names.
///
/// A section that begins and ends with NUL is split after each NUL. Each name in it is a suffix of
/// one of these strings, and no string ends with two different hosts. Therefore a section that
/// contains all hosts is at least as long as their table.
pub fn hosts_end_different_strings()
    ensures cut { (section : List ℕ) → SectionsAreCut section }
    ensures ends { (section : List ℕ) (strings : List (List ℕ)) → NamesEndStrings section strings }
    ensures apart { (xs : List (List ℕ)) → HostsEndApart xs }
    ensures fit { spec.HostsFitSections }
{}
