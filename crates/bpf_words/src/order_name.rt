//! The names of the two byte orders.

ghost use Rattle.std.specs.{Prelude.◌≡◌, Prelude.Some, Fmt.padded};
ghost use Rattle.bpf_words.specs.OrderName.{IsOrderOfName, order_name};

use crate::Order;
use std::fmt;
use std::str::FromStr;
use thiserror::Error;

impl Order {
    /// The name of the byte order: `little` or `big`.
    pub fn name(self) -> &'static str
        ensures { result.now ≡ order_name self }
    {
        match self {
            Order::Little => "little",
            Order::Big => "big",
        }
    }
}

impl fmt::Display for Order {
    ghost output = { λ order. Some (order_name order) };

    ghost styled_output = { λ order spec. Some (padded spec (order_name order)) };

    fn fmt<W: fmt::Write>(&self, f: &mut fmt::Formatter<W>) -> fmt::Result {
        f.pad(self.name())
    }
}

/// A string is not the name of a byte order: it is neither `little` nor `big`.
#[derive(Clone, Copy, Debug, PartialEq, Eq, Hash, Error)]
#[error("the byte order is neither `little` nor `big`")]
pub struct ParseOrderError;

/// Reads `little` or `big`, in lower case and without blanks.
impl FromStr for Order {
    type Err = ParseOrderError;

    ghost from_str_gives = { IsOrderOfName };

    fn from_str(name: &str) -> Result<Order, ParseOrderError> {
        match name {
            "little" => Ok(Order::Little),
            "big" => Ok(Order::Big),
            _ => Err(ParseOrderError),
        }
    }
}
