// How variables and terms are written: a letter, and a number where there is one; `N*V` for a term. And what errors and refusals say.
ghost use Rattle.std.specs.Prelude.{Some};
ghost use Rattle.variables.specs.Text.{variable_text, term_text, error_text, refusal_text};

use crate::{LcIndex, Refusal, SynthesisError, Term, Variable};
use std::error::Error;
use std::fmt;

impl fmt::Display for Variable {
    ghost output = { λ v. Some (variable_text v) };

    fn fmt<W: fmt::Write>(&self, f: &mut fmt::Formatter<W>) -> fmt::Result {
        match self {
            Variable::Zero => f.write_str("z"),
            Variable::One => f.write_str("o"),
            Variable::Instance(i) => write!(f, "i{i}"),
            Variable::Witness(i) => write!(f, "w{i}"),
            Variable::SymbolicLc(LcIndex(k)) => write!(f, "s{k}"),
        }
    }
}

impl<F: fmt::Display> fmt::Display for Term<F> {
    ghost output = { term_text F.output };

    fn fmt<W: fmt::Write>(&self, f: &mut fmt::Formatter<W>) -> fmt::Result {
        write!(f, "{}*{}", self.number, self.variable)
    }
}

impl fmt::Display for SynthesisError {
    ghost output = { λ e. Some (error_text e) };

    fn fmt<W: fmt::Write>(&self, f: &mut fmt::Formatter<W>) -> fmt::Result {
        f.write_str(match self {
            SynthesisError::MissingCS => "the constraint system was `None`",
            SynthesisError::AssignmentMissing => {
                "an assignment for a variable could not be computed"
            }
            SynthesisError::DivisionByZero => "division by zero",
            SynthesisError::Unsatisfiable => "unsatisfiable constraint system",
            SynthesisError::PolynomialDegreeTooLarge => "polynomial degree is too large",
            SynthesisError::UnexpectedIdentity => "encountered an identity element in the CRS",
            SynthesisError::MalformedVerifyingKey => "malformed verifying key",
            SynthesisError::UnconstrainedVariable => "auxiliary variable was unconstrained",
        })
    }
}

impl Error for SynthesisError {}

impl fmt::Display for Refusal {
    ghost output = { λ r. Some (refusal_text r) };

    fn fmt<W: fmt::Write>(&self, f: &mut fmt::Formatter<W>) -> fmt::Result {
        match self {
            Refusal::Synthesis(error) => error.fmt(f),
            Refusal::SetTooLate => {
                f.write_str("mode or goal set after a variable, a combination or a constraint")
            }
            Refusal::InstancesFull => f.write_str("no place for another instance variable"),
            Refusal::WitnessesFull => f.write_str("no place for another witness variable"),
            Refusal::IndexFull => f.write_str("too few free index entries"),
            Refusal::TermsFull => f.write_str("too few free term places"),
            Refusal::UnknownVariable { list, term } => {
                write!(f, "unknown variable in list {list}, term {term}")
            }
            Refusal::ConstraintList { list, term } => {
                write!(f, "constraint's own list in list {list}, term {term}")
            }
            Refusal::TablesUnsound => f.write_str("the lent tables are not sound"),
            Refusal::ConstraintsNotKept => f.write_str("constraints are counted and not kept"),
            Refusal::TableTooShort => f.write_str("a lent table is too short"),
            Refusal::ConstraintsFull => f.write_str("no place for another constraint"),
        }
    }
}

impl Error for Refusal {}
