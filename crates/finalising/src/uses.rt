// How often each entry is used, counted in one pass into the finished columns, which are free as long as the circuit is open.
ghost use Rattle.std.specs.Prelude.{◌≡◌, ◌<◌, ◌≤◌, true, map, length};
ghost use Rattle.std.specs.List.{list_all, AllByRecursion};
ghost use Rattle.account.specs.Refusals.{limit};
ghost use Rattle.tables.specs.Sound.{given_in, span_fits};
ghost use Rattle.account.specs.Given.{lists};
ghost use Rattle.finishing.specs.Steps.{with_uses};
ghost use Rattle.finalising.specs.Uses.{SymbolBelow, AllBelow, ListsBelow, gaining, HasRoom};
ghost use Rattle.finishing.specs.Finalising.{as_given};
ghost use Rattle.account.specs.Finish.{names, uses_in};

use field::Field;
use tables::Entry;
use variables::{LcIndex, Term, Variable};

// Counts the uses of every entry over the given lists of all of them: each stands then in the entry's finished length.
pub fn count_uses<F: Field>(terms: &[Term<F>], index: &mut [Entry])
    requires few_terms { length terms.now ≤ limit }
    requires few_entries { length index.old ≤ limit }
    requires spans { list_all (span_fits (length terms.now)) index.old ≡ true }
    requires known { ListsBelow (length index.old) (lists (map (given_in terms.now) index.old)) }
    ensures { index.new ≡ with_uses (lists (map (given_in terms.now) index.old)) 0 index.old }
{
    clear(index);
    for k in 0..index.len() {
        let entry = index[k];
        let end = entry.given_start + entry.given_len;
        count_list(&terms[entry.given_start..end], index);
    }
}

// Clears the finished columns.
fn clear(index: &mut [Entry])
    ensures { index.new ≡ map as_given index.old }
{
    for entry in index.iter_mut() {
        entry.finished_start = 0;
        entry.finished_len = 0;
    }
}

// Counts a use of the entry that a variable names, where it names one.
fn count_use(variable: Variable, index: &mut [Entry])
    requires known { SymbolBelow (length index.old) variable }
    requires few { HasRoom 1 index.old }
    ensures { index.new ≡ gaining (λ k. names k variable) 0 index.old }
{
    if let Variable::SymbolicLc(LcIndex(k)) = variable {
        index[k].finished_len += 1;
    }
}

// Counts the uses in a list.
fn count_list<F: Field>(list: &[Term<F>], index: &mut [Entry])
    requires known { AllBelow (length index.old) list.now }
    requires few { HasRoom (length list.now) index.old }
    ensures { index.new ≡ gaining (λ k. uses_in k list.now) 0 index.old }
{
    for term in list {
        count_use(term.variable, index);
    }
}
