//! Laws that relate the constants to the definitions. Each function does nothing: its contract is
//! the law.

ghost use Rattle.std.specs.Prelude.{◌≡◌};
ghost use Rattle.btf_raw.specs.Header as spec;
ghost use Rattle.btf_raw.specs.KindNumbers as standard;

use crate::header::{HEADER_LIMIT, STRINGS_LIMIT, TYPES_LIMIT};
use crate::kinds::*;

/// Each constant for a kind is the number of that kind in the standard (btf.rst section 2.2).
pub fn kinds_have_their_numbers()
    ensures int { INT ≡ standard.INT }
    ensures ptr { PTR ≡ standard.PTR }
    ensures array { ARRAY ≡ standard.ARRAY }
    ensures of_struct { STRUCT ≡ standard.STRUCT }
    ensures of_union { UNION ≡ standard.UNION }
    ensures of_enum { ENUM ≡ standard.ENUM }
    ensures fwd { FWD ≡ standard.FWD }
    ensures typedef { TYPEDEF ≡ standard.TYPEDEF }
    ensures volatile { VOLATILE ≡ standard.VOLATILE }
    ensures of_const { CONST ≡ standard.CONST }
    ensures restrict { RESTRICT ≡ standard.RESTRICT }
    ensures func { FUNC ≡ standard.FUNC }
    ensures func_proto { FUNC_PROTO ≡ standard.FUNC_PROTO }
    ensures var { VAR ≡ standard.VAR }
    ensures datasec { DATASEC ≡ standard.DATASEC }
    ensures float { FLOAT ≡ standard.FLOAT }
    ensures decl_tag { DECL_TAG ≡ standard.DECL_TAG }
    ensures type_tag { TYPE_TAG ≡ standard.TYPE_TAG }
    ensures enum64 { ENUM64 ≡ standard.ENUM64 }
{}

/// Each limit is the one that the definitions of a file state: for the header, the type section and
/// the string section.
pub fn limits_have_their_numbers()
    ensures header { HEADER_LIMIT ≡ spec.HEADER_LIMIT }
    ensures types { TYPES_LIMIT ≡ spec.TYPES_LIMIT }
    ensures strings { STRINGS_LIMIT ≡ spec.STRINGS_LIMIT }
{}
