//! Registers and their numbers.

ghost use Rattle.std.specs.Prelude.{◌≡◌, ◌<◌, ◌++◌, Some, codes, MatchOption, MatchResult};
ghost use Rattle.std.specs.Fmt.{decimal};
ghost use Rattle.bpf_insn.specs.Table.{IsReg, register_number};

use crate::Reg;
use std::fmt;
use thiserror::Error;

impl Reg {
    /// The register with this number, or `None` if the number is above 10.
    pub fn new(number: u8) -> Option<Reg>
        ensures { MatchOption result (10 < number)
            (λ r. IsReg number × (register_number r ≡ number)) }
    {
        if number <= 10 {
            Some(Reg { number })
        } else {
            None
        }
    }

    /// The register with this number.
    pub(crate) fn numbered(number: u8) -> Reg
        requires { IsReg number }
        ensures { register_number result ≡ number }
    {
        Reg { number }
    }

    /// The register's number, 0 to 10.
    pub fn number(self) -> u8
        ensures { result ≡ register_number self }
    {
        self.number
    }
}

/// The number of a register that doesn't exist, since it is above 10.
#[derive(Clone, Copy, Debug, PartialEq, Eq, Hash, Error)]
#[error("there is no register r{0}")]
pub struct NoSuchReg(pub u8);

/// The register with this number, or [`NoSuchReg`] if the number is above 10.
impl TryFrom<u8> for Reg {
    type Error = NoSuchReg;

    ghost try_from_gives = { λ number r.
        MatchResult r (λ reg. IsReg number × (register_number reg ≡ number))
        (λ fault. 10 < number × fault.0 ≡ number) };

    fn try_from(number: u8) -> Result<Reg, NoSuchReg> {
        Reg::new(number).ok_or(NoSuchReg(number))
    }
}

/// `r0` to `r10`, as in listings.
impl fmt::Display for Reg {
    ghost output = { λ reg. Some (codes "r" ++ decimal (register_number reg)) };

    fn fmt<W: fmt::Write>(&self, f: &mut fmt::Formatter<W>) -> fmt::Result {
        write!(f, "r{}", self.number)
    }
}
