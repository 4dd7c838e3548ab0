// The entries taken in their order, over the places that count.
ghost use Rattle.std.specs.Prelude.{◌≡◌, ℕ, ◌+◌, ◌<◌, ◌≤◌, ◌++◌, true, Ok, Err, IfOk, map, length, take, drop, cond};
ghost use Rattle.std.specs.List.{list_all};
ghost use Rattle.variables.specs.declared.Refusal.TheVariants.{TermsFull};
ghost use Rattle.account.specs.Finish.{lacks, expanded, inlined};
ghost use Rattle.tables.specs.Sound.{given_in, span_fits};
ghost use Rattle.finishing.specs.Sound.{finished_in, finished_fits};
ghost use Rattle.finishing.specs.Steps.{trimmed, next_entry, next_entries};
ghost use Rattle.finalising.specs.Uses.{AllBelow};
ghost use Rattle.finalising.specs.Lent.{lent, gives, Ready, KeepsUsed};

use crate::expansion::inline;
use crate::outlining::{note, outline};
use crate::rules::OutliningRule;
use field::Field;
use tables::{Counts, Entry};
use variables::{Refusal, Term};

// Merges the given list of an entry behind the used places, and says how many terms the merged list has.
fn merge<F: Field>(
    terms: &mut [Term<F>],
    used: usize,
    before: &[Entry],
    entry: Entry,
) -> Result<usize, Refusal>
    requires used { used ≤ length terms.old }
    requires spans { list_all (finished_fits used) before.now ≡ true }
    requires span { span_fits used entry ≡ true }
    requires known { AllBelow (length before.now) (given_in terms.old entry).terms }
    ensures answer { let finished = map (finished_in (take used terms.old)) before.now in
        let ts = (given_in (take used terms.old) entry).terms in
        result ≡ cond (lacks (used + length (expanded F.model finished ts)) (length terms.old)) (Err TermsFull) (Ok (length (inlined F.model finished ts))) }
    ensures written { IfOk result (λ n. take (used + n) terms.new ≡ take used terms.old ++ inlined F.model (map (finished_in (take used terms.old)) before.now) (given_in (take used terms.old) entry).terms) }
    ensures fits { IfOk result (λ n. used + n ≤ length terms.old) }
    ensures used { take used terms.new ≡ take used terms.old }
    ensures long { length terms.new ≡ length terms.old }
{
    let (lists, free) = terms.split_at_mut(used);
    inline(lists, before, entry, free)
}

// Whether a rule picks the list of `len` terms behind the used ones, which is used so often.
fn is_picked<F: Field, R: OutliningRule<F>>(
    rule: &R,
    uses: usize,
    terms: &[Term<F>],
    used: usize,
    len: usize,
) -> bool
    requires { used + len ≤ length terms.now }
    ensures { result ≡ R.OutliningRule.picking rule.now uses (take len (drop used terms.now)) }
{
    rule.picks(uses, &terms[used..used + len])
}

// Takes one entry: its list is written out and merged, and where the rule picks it, outlined. Its uses stand in its finished length.
fn take_entry<F: Field, R: OutliningRule<F>>(
    rule: &R,
    counts: &mut Counts,
    terms: &mut [Term<F>],
    index: &mut [Entry],
    instances: &[F],
    witnesses: &mut [F],
    at: usize,
) -> Result<(), Refusal>
    requires ready { (entries : ℕ) × (at < entries) × Ready entries at (lent counts.old terms.old index.old instances.now witnesses.old) }
    ensures does { next_entry F.model (R.OutliningRule.picking rule.now) (length terms.old) at (trimmed (lent counts.old terms.old index.old instances.now witnesses.old))
        ≡ gives (λ _. trimmed (lent counts.new terms.new index.new instances.now witnesses.new)) result }
    ensures kept { KeepsUsed (lent counts.old terms.old index.old instances.now witnesses.old) (lent counts.new terms.new index.new instances.now witnesses.new) }
{
    let entry = index[at];
    let start = counts.terms;
    let len = merge(terms, start, &index[..at], entry)?;
    if is_picked(rule, entry.finished_len, terms, start, len) {
        return outline(counts, terms, index, instances, witnesses, at, len);
    }
    note(index, at, start, len);
    counts.terms = start + len;
    Ok(())
}

// Takes the entries that are there at the start.
pub fn finish_entries<F: Field, R: OutliningRule<F>>(
    rule: &R,
    counts: Counts,
    terms: &mut [Term<F>],
    index: &mut [Entry],
    instances: &[F],
    witnesses: &mut [F],
) -> Result<Counts, Refusal>
    requires { Ready counts.entries 0 (lent counts terms.old index.old instances.now witnesses.old) }
    ensures does { next_entries F.model (R.OutliningRule.picking rule.now) (length terms.old) 0 counts.entries (trimmed (lent counts terms.old index.old instances.now witnesses.old))
        ≡ gives (λ c. trimmed (lent c terms.new index.new instances.now witnesses.new)) result }
    ensures kept { KeepsUsed (lent counts terms.old index.old instances.now witnesses.old) (lent counts terms.new index.new instances.now witnesses.new) }
{
    let mut sofar = counts;
    for at in 0..counts.entries {
        take_entry(rule, &mut sofar, terms, index, instances, witnesses, at)?;
    }
    Ok(sofar)
}
