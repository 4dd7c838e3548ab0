// Finalising: the open circuit's lists are rewritten without symbols.
ghost use Rattle.std.specs.Prelude.{◌≡◌, true, List, IfOk, OnErr, length};
ghost use Rattle.std.specs.Option.{option_map};
ghost use Rattle.std.specs.Result.{result_err};
ghost use Rattle.variables.specs.declared.Term.{Term};
ghost use Rattle.variables.specs.Refusals.{told};
ghost use Rattle.account.specs.Account.{rule_of};
ghost use Rattle.tables.specs.Held.{held, state, SamePlaces, KeepsBeyond};
ghost use Rattle.tables.specs.Sound.{sound};
ghost use Rattle.tables.specs.Calls.{keeps_matrices};
ghost use Rattle.finishing.specs.Steps.{by_uses, started, trimmed, next_entries};
ghost use Rattle.finishing.specs.Finalising.{stages_in, Finalised, Unfinished, Finalises};
ghost use Rattle.finalising.specs.Lent.{lent, gives, KeepsUsed};
ghost use Rattle.finalising.specs.Finishing.{Finishable, FinishedBy, counts_after};

use crate::rules::{ForConstraints, ForNone, ForWeight, OutliningRule};
use crate::steps::finish_entries;
use crate::uses::count_uses;
use account::OptimizationGoal;
use circuits::{capacity, in_use, is_sound, should_construct_matrices};
use field::Field;
use tables::{Counts, Entry, Tables};
use variables::{Refusal, Term};

// Counts the uses and takes the entries, over the places that count.
fn finish_counted<F: Field, R: OutliningRule<F>>(
    rule: &R,
    counts: Counts,
    terms: &mut [Term<F>],
    index: &mut [Entry],
    instances: &[F],
    witnesses: &mut [F],
) -> Result<Counts, Refusal>
    requires { Finishable (lent counts terms.old index.old instances.now witnesses.old) }
    ensures does { next_entries F.model (R.OutliningRule.picking rule.now) (length terms.old) 0 counts.entries (started (lent counts terms.old index.old instances.now witnesses.old))
        ≡ gives (λ c. trimmed (lent c terms.new index.new instances.now witnesses.new)) result }
    ensures kept { KeepsUsed (lent counts terms.old index.old instances.now witnesses.old) (lent counts terms.new index.new instances.now witnesses.new) }
{
    count_uses(terms, &mut index[..counts.entries]);
    finish_entries(rule, counts, terms, index, instances, witnesses)
}

// The same over lent slices, of which no more than the places that count are handed on.
fn finish_slices<F: Field, R: OutliningRule<F>>(
    rule: &R,
    counts: Counts,
    terms: &mut [Term<F>],
    index: &mut [Entry],
    instances: &mut [F],
    witnesses: &mut [F],
) -> Result<Counts, Refusal>
    requires sound { sound (lent counts terms.old index.old instances.old witnesses.old) ≡ true }
    requires kept { keeps_matrices counts.mode ≡ true }
    ensures does { FinishedBy F.model (R.OutliningRule.picking rule.now) (lent counts terms.old index.old instances.old witnesses.old) result terms.new index.new witnesses.new }
    ensures instances { instances.new ≡ instances.old }
{
    let places = capacity(terms.len());
    let entries = capacity(index.len());
    let values = capacity(witnesses.len());
    let kept = in_use(counts.instances, instances);
    finish_counted(
        rule,
        counts,
        &mut terms[..places],
        &mut index[..entries],
        kept,
        &mut witnesses[..values],
    )
}

// Finalises the lists, where matrices are kept.
fn finish<F: Field, R: OutliningRule<F>>(
    rule: &R,
    counts: Counts,
    tables: &mut Tables<'_, F>,
) -> Result<Counts, Refusal>
    requires sound { sound (state counts tables.old) ≡ true }
    requires kept { keeps_matrices counts.mode ≡ true }
    requires goal { (given : List (List (Term F))) → by_uses (R.OutliningRule.picking rule.now) given ≡ rule_of F.model counts.goal given }
    ensures places { SamePlaces tables.old tables.new }
    ensures beyond { KeepsBeyond (held tables.old) (held tables.new) }
    ensures refuses { option_map told (result_err result) ≡ result_err (stages_in F.model (state counts tables.old)) }
    ensures accepted { IfOk result (λ c. Finalised F.model (state counts tables.old) (state c tables.new)) }
    ensures refused { OnErr result (Unfinished (state counts tables.old) (state counts tables.new)) }
{
    finish_slices(
        rule,
        counts,
        tables.terms,
        tables.index,
        tables.instances,
        tables.witnesses,
    )
}

// Finalises an open circuit: the numbers of the finished one, or the refusal.
pub fn finalize<F: Field>(counts: Counts, tables: &mut Tables<'_, F>) -> Result<Counts, Refusal>
    ensures places { SamePlaces tables.old tables.new }
    ensures beyond { KeepsBeyond (held tables.old) (held tables.new) }
    ensures does { Finalises F.model (state counts tables.old) (option_map told (result_err result)) (state (counts_after counts result) tables.new) }
{
    if !is_sound(&counts, tables) {
        return Err(Refusal::TablesUnsound);
    }
    if !should_construct_matrices(&counts) {
        return Ok(counts);
    }
    match counts.goal {
        OptimizationGoal::None => finish(&ForNone, counts, tables),
        OptimizationGoal::Constraints => finish(&ForConstraints, counts, tables),
        OptimizationGoal::Weight => finish(&ForWeight, counts, tables),
    }
}
