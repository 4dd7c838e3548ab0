// The work on the lists of a line. Each list is lent exactly the places that it needs, by each method itself: a `Vec` and the list that
// borrows it cannot leave a function together.
use crate::fault::Fault;
use crate::line::{Line, unused};
use crate::number::Number;
use crate::show::Asked;
use crate::{parse, show};
use relations::{LinearCombination, Refusal, Term, Variable};

impl Line<'_> {
    // LEFT, in the places that it has.
    pub(crate) fn in_place<F: Number, W: FnOnce(&mut LinearCombination<F>)>(
        &self,
        work: W,
    ) -> Result<String, Fault>
        requires { W.IsAlwaysCallable work }
    {
        unused(self.right)?;
        let mut terms = parse::list::<F>(self.heap, self.left)?;
        let mut list = LinearCombination::whole(terms.as_mut_slice());
        work(&mut list);
        Ok(list.to_string(self.heap)?)
    }

    // LEFT, in one place more.
    pub(crate) fn with_room<F: Number, W: FnOnce(&mut LinearCombination<F>) -> Result<(), Refusal>>(
        &self,
        work: W,
    ) -> Result<String, Fault>
        requires { W.IsAlwaysCallable work }
    {
        unused(self.right)?;
        let left = parse::list::<F>(self.heap, self.left)?;
        let count = left.len().saturating_add(1);
        let mut places = vec![in self.heap; Term::default(); count]?;
        let mut list = LinearCombination::new(places.as_mut_slice());
        list.assign(left.as_slice())?;
        work(&mut list)?;
        Ok(list.to_string(self.heap)?)
    }

    // LEFT and RIGHT, in as many places as both have.
    pub(crate) fn of_both<
        F: Number,
        W: FnOnce(&mut LinearCombination<F>, &[Term<F>], &[Term<F>]) -> Result<(), Refusal>,
    >(&self, work: W) -> Result<String, Fault>
        requires { W.IsAlwaysCallable work }
    {
        let left = parse::list::<F>(self.heap, self.left)?;
        let right = parse::list::<F>(self.heap, self.right)?;
        let count = left.len().saturating_add(right.len());
        let mut places = vec![in self.heap; Term::default(); count]?;
        let mut list = LinearCombination::new(places.as_mut_slice());
        work(&mut list, left.as_slice(), right.as_slice())?;
        Ok(list.to_string(self.heap)?)
    }

    pub(crate) fn located<F: Number>(&self, variable: Variable) -> Result<String, Fault> {
        unused(self.right)?;
        let mut terms = parse::list::<F>(self.heap, self.left)?;
        let list = LinearCombination::whole(terms.as_mut_slice());
        Ok(match list.get_var_loc(variable) {
            Ok(at) => format!(in self.heap; "found {at}")?,
            Err(at) => format!(in self.heap; "free {at}")?,
        })
    }

    // No list.
    pub(crate) fn asked(&self, variable: Variable) -> Result<String, Fault> {
        unused(self.left)?;
        unused(self.right)?;
        Ok(Asked(variable).to_string(self.heap)?)
    }

    // LEFT, of one term.
    pub(crate) fn compared<F: Number>(&self, variable: Variable) -> Result<String, Fault> {
        unused(self.right)?;
        let terms = parse::list::<F>(self.heap, self.left)?;
        let [other] = terms.as_slice() else {
            return Err(Fault::Malformed);
        };
        let order = show::order(variable.cmp(&other.variable));
        Ok(String::from_str(self.heap, order)?)
    }
}
