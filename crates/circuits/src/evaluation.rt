// What is worked out at the kept values, over a table of work places.
ghost use Rattle.std.specs.Prelude.{◌≡◌, ◌≤◌, ◌++◌, true, map, length, drop, slice_index_or};
ghost use Rattle.std.specs.List.{list_all};
ghost use Rattle.account.specs.Given.{lists};
ghost use Rattle.account.specs.Rows.{rows};
ghost use Rattle.account.specs.Evaluate.{filled, or_zero, failing};
ghost use Rattle.tables.specs.Held.{state, counted};
ghost use Rattle.tables.specs.Sound.{given_in, kept_instances, kept_witnesses, span_fits, sound};
ghost use Rattle.tables.specs.Calls.{work_of};

use crate::places::{entries_of, in_use};
use account::{Mark, SynthesisMode};
use field::Field;
use tables::{Counts, Entry, Tables};
use terms::evaluate;
use variables::{Assignment, Term};

// The kept values as the tables hold them.
pub fn assignment<'a, F: Field>(counts: &Counts, tables: &'a Tables<'_, F>) -> Assignment<'a, F>
    ensures instances { result.instances.now ≡ kept_instances counts.now.mode counts.now.instances (counted tables.now.instances.now) }
    ensures witnesses { result.witnesses.now ≡ kept_witnesses counts.now.mode counts.now.witnesses (counted tables.now.witnesses.now) }
{
    match counts.mode {
        SynthesisMode::Setup => Assignment {
            instances: in_use(1, tables.instances),
            witnesses: &[],
        },
        SynthesisMode::Prove { .. } => Assignment {
            instances: in_use(counts.instances, tables.instances),
            witnesses: in_use(counts.witnesses, tables.witnesses),
        },
    }
}

// Fills a place for each of some entries with what its given list is worth, by the places before it.
fn fill_entries<F: Field>(
    terms: &[Term<F>],
    entries: &[Entry],
    assignment: &Assignment<F>,
    work: &mut [Option<F>],
)
    requires spans { list_all (span_fits (length terms.now)) entries.now ≡ true }
    requires long { length entries.now ≤ length work.old }
    ensures { work.new ≡ filled F.model assignment.now.instances.now assignment.now.witnesses.now (lists (map (given_in terms.now) entries.now)) ++ drop (length entries.now) work.old }
{
    for (k, entry) in entries.iter().enumerate() {
        let end = entry.given_start + entry.given_len;
        let value = evaluate(&terms[entry.given_start..end], assignment, &work[..k]);
        work[k] = value;
    }
}

// Fills the work table: a place for each entry, with what its given list is worth.
pub fn fill<F: Field>(counts: &Counts, tables: &Tables<'_, F>, work: &mut [Option<F>])
    requires sound { sound (state counts.now tables.now) ≡ true }
    requires long { counts.now.entries ≤ length work.old }
    ensures { work.new ≡ work_of F.model (state counts.now tables.now) work.old }
{
    let assignment = assignment(counts, tables);
    let entries = entries_of(counts, tables.index);
    fill_entries(tables.terms, entries, &assignment, work);
}

// The value at place `k`, or zero where there is none.
fn value_at<F: Field>(work: &[Option<F>], k: usize) -> F
    ensures { result ≡ slice_index_or (map (or_zero F.model) work.now) k F.model.zero }
{
    work.get(k).copied().flatten().unwrap_or(F::zero())
}

// The first constraint that fails, by the values in a filled work table: its three lists stand at an entry marked A and the two after it.
pub fn first_failing<F: Field>(entries: &[Entry], work: &[Option<F>]) -> Option<usize>
    ensures { result ≡ failing F.model (rows F.model.zero (map (λ e. e.mark) entries.now) (map (or_zero F.model) work.now)) }
{
    let mut row = 0;
    for (k, entry) in entries.iter().enumerate() {
        if entry.mark == Mark::A {
            let product = value_at(work, k).product(value_at(work, k + 1));
            if !product.same(value_at(work, k + 2)) {
                return Some(row);
            }
            row += 1;
        }
    }
    None
}
