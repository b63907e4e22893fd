// Kinds and refusals as text for people.
ghost use Rattle.std.specs.Prelude.{Some};
ghost use Rattle.image.specs.Format.{kind_text};
ghost use Rattle.image.specs.Rules.{fault_text, refusal_text};

use crate::{Fault, Kind, Refusal};
use std::error::Error;
use std::fmt;

// program, data or end
impl fmt::Display for Kind {
    ghost output = { λ kind. Some (kind_text kind) };

    fn fmt<W: fmt::Write>(&self, f: &mut fmt::Formatter<W>) -> fmt::Result {
        f.write_str(match self {
            Kind::Program => "program",
            Kind::Data => "data",
            Kind::End => "end",
        })
    }
}

// The rule that is broken
impl fmt::Display for Fault {
    ghost output = { λ fault. Some (fault_text fault) };

    fn fmt<W: fmt::Write>(&self, f: &mut fmt::Formatter<W>) -> fmt::Result {
        f.write_str(match self {
            Fault::Size => "wrong size",
            Fault::Check => "wrong check",
            Fault::Number => "wrong number",
            Fault::Kind => "wrong kind",
            Fault::Count => "wrong count",
            Fault::Address => "wrong address",
            Fault::Stray => "stray byte",
            Fault::End => "wrong end",
        })
    }
}

impl Error for Fault {}

// refused N block B
impl fmt::Display for Refusal {
    ghost output = { λ r. Some (refusal_text r) };

    fn fmt<W: fmt::Write>(&self, f: &mut fmt::Formatter<W>) -> fmt::Result {
        write!(f, "refused {} block {}", self.fault.number(), self.block)
    }
}

impl Error for Refusal {}
