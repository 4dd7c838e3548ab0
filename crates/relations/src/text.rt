// How a list is written: its terms with one space between them.
ghost use Rattle.std.specs.Fmt.{DisplaysOnOk};
ghost use Rattle.relations.specs.Text.{list_text, behind_spaces};
ghost use Rattle.relations.specs.Held.{listed};

use crate::LinearCombination;
use field::Field;
use std::fmt;
use variables::Term;

impl<F: Field + fmt::Display> fmt::Display for LinearCombination<'_, F> {
    ghost output = { λ c. list_text F.output (listed c) };

    fn fmt<W: fmt::Write>(&self, f: &mut fmt::Formatter<W>) -> fmt::Result {
        let Some((first, rest)) = self.terms().split_first() else {
            return Ok(());
        };
        write!(f, "{first}")?;
        write_behind_spaces(f, rest)
    }
}

fn write_behind_spaces<F: fmt::Display, W: fmt::Write>(
    f: &mut fmt::Formatter<W>,
    terms: &[Term<F>],
) -> fmt::Result
    ensures { DisplaysOnOk W.write_str_gives f.old result (behind_spaces F.output terms.now) f.new }
{
    for t in terms {
        write!(f, " {t}")?;
    }
    Ok(())
}
