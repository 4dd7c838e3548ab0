// A list written out, where each symbol gives way to its finished list, and merged.
ghost use Rattle.std.specs.Prelude.{◌≡◌, ◌+◌, ◌≤◌, ◌++◌, true, cond, Ok, Err, IfOk, map, length, take, drop};
ghost use Rattle.std.specs.List.{list_all, AllByRecursion};
ghost use Rattle.variables.specs.declared.Refusal.TheVariants.{TermsFull};
ghost use Rattle.variables.specs.Terms.{scaled};
ghost use Rattle.account.specs.Finish.{lacks, replaced, expanded, inlined};
ghost use Rattle.tables.specs.Sound.{given_in, span_fits};
ghost use Rattle.finishing.specs.Sound.{finished_in, finished_fits};
ghost use Rattle.finalising.specs.Uses.{SymbolBelow, AllBelow};

use field::Field;
use tables::Entry;
use terms::{compactify, scale};
use variables::{LcIndex, Refusal, Term, Variable};

// Writes a list, every number multiplied by `scalar`, into the first of some free places.
fn write_scaled<F: Field>(
    list: &[Term<F>],
    scalar: F,
    free: &mut [Term<F>],
) -> Result<usize, Refusal>
    ensures answer { result ≡ cond (lacks (length list.now) (length free.old)) (Err TermsFull) (Ok (length list.now)) }
    ensures written { IfOk result (λ n. free.new ≡ scaled F.model scalar list.now ++ drop n free.old) }
    ensures long { length free.new ≡ length free.old }
{
    let len = list.len();
    if free.len() < len {
        return Err(Refusal::TermsFull);
    }
    free[..len].copy_from_slice(list);
    scale(&mut free[..len], scalar);
    Ok(len)
}

// Writes what a term gives way to: a symbol's to its finished list, multiplied by the term's number, and any other to itself.
fn substitute<F: Field>(
    lists: &[Term<F>],
    before: &[Entry],
    term: Term<F>,
    free: &mut [Term<F>],
) -> Result<usize, Refusal>
    requires spans { list_all (finished_fits (length lists.now)) before.now ≡ true }
    requires known { SymbolBelow (length before.now) term.variable }
    ensures answer { let ts = replaced F.model (map (finished_in lists.now) before.now) term.number term.variable in
        result ≡ cond (lacks (length ts) (length free.old)) (Err TermsFull) (Ok (length ts)) }
    ensures written { IfOk result (λ n. free.new ≡ replaced F.model (map (finished_in lists.now) before.now) term.number term.variable ++ drop n free.old) }
    ensures long { length free.new ≡ length free.old }
{
    if let Variable::SymbolicLc(LcIndex(k)) = term.variable {
        let entry = before[k];
        let end = entry.finished_start + entry.finished_len;
        return write_scaled(&lists[entry.finished_start..end], term.number, free);
    }
    if free.is_empty() {
        return Err(Refusal::TermsFull);
    }
    free[0] = term;
    Ok(1)
}

// Writes a list out, and says how many places it takes.
fn expand<F: Field>(
    lists: &[Term<F>],
    before: &[Entry],
    list: &[Term<F>],
    free: &mut [Term<F>],
) -> Result<usize, Refusal>
    requires spans { list_all (finished_fits (length lists.now)) before.now ≡ true }
    requires known { AllBelow (length before.now) list.now }
    ensures answer { let ts = expanded F.model (map (finished_in lists.now) before.now) list.now in
        result ≡ cond (lacks (length ts) (length free.old)) (Err TermsFull) (Ok (length ts)) }
    ensures written { IfOk result (λ n. free.new ≡ expanded F.model (map (finished_in lists.now) before.now) list.now ++ drop n free.old) }
    ensures long { length free.new ≡ length free.old }
{
    let mut end = 0;
    for term in list {
        end += substitute(lists, before, *term, &mut free[end..])?;
    }
    Ok(end)
}

// Writes out and merges the given list of an entry into the first free places, and says how many terms the merged list has.
pub fn inline<F: Field>(
    lists: &[Term<F>],
    before: &[Entry],
    entry: Entry,
    free: &mut [Term<F>],
) -> Result<usize, Refusal>
    requires spans { list_all (finished_fits (length lists.now)) before.now ≡ true }
    requires span { span_fits (length lists.now) entry ≡ true }
    requires known { AllBelow (length before.now) (given_in lists.now entry).terms }
    ensures answer { let finished = map (finished_in lists.now) before.now in
        let ts = (given_in lists.now entry).terms in
        result ≡ cond (lacks (length (expanded F.model finished ts)) (length free.old)) (Err TermsFull) (Ok (length (inlined F.model finished ts))) }
    ensures written { IfOk result (λ n. take n free.new ≡ inlined F.model (map (finished_in lists.now) before.now) (given_in lists.now entry).terms) }
    ensures long { length free.new ≡ length free.old }
{
    let end = entry.given_start + entry.given_len;
    let written = expand(lists, before, &lists[entry.given_start..end], free)?;
    Ok(compactify(&mut free[..written]))
}
