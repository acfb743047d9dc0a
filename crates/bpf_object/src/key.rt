//! The key of an object file.

ghost use Rattle.std.specs.Prelude.{◌≡◌, IfOk, IfErr, MatchResult};
ghost use Rattle.sha2.specs.Sha256.{sha256};
ghost use Rattle.bpf_object.specs.Canonical.{canonical};
ghost use Rattle.bpf_object.specs.Denotes.{Denotes};
ghost use Rattle.bpf_object.specs.ObjectFaults.{Fails};
ghost use Rattle.bpf_object.specs.Objects.{Object};

use crate::canon::canon_object;
use crate::fault::ObjectError;
use sha2::{Digest, Sha256};
use std::alloc::Allocator;

/// The SHA-256 (FIPS 180-4) of the canonical file of a BPF object file (docs/OBJECTS.md).
///
/// # Errors
///
/// Those of [`canon_object`].
pub fn object_key<A: Allocator + Copy>(alloc: A, bytes: &[u8]) -> Result<[u8; 32], ObjectError>
    ensures found { IfOk result (λ key. (x : Object)
        × (Denotes bytes.now x × (key ≡ sha256 (canonical x)))) }
    ensures all { (x : Object) → Denotes bytes.now x
        → MatchResult result (λ key. key ≡ sha256 (canonical x)) (λ e. e ≡ ObjectError.Memory) }
    ensures fault { IfErr result (Fails bytes.now) }
{
    let canon = canon_object(alloc, bytes)?;
    Ok(Sha256::digest(canon.as_slice()))
}
