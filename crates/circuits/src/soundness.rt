// Whether lent tables are sound for a circuit.
ghost use Rattle.std.specs.Prelude.{◌≡◌, ◌≤◌, true, [], map, length};
ghost use Rattle.std.specs.List.{list_all};
ghost use Rattle.tables.specs.Held.{state};
ghost use Rattle.circuits.specs.Triples.{is_triple};
ghost use Rattle.tables.specs.Sound.{given_in, in_triples, triples_due, span_fits, values_fit, counts_fit, all_known, sound};

use crate::calls::should_construct_matrices;
use crate::places::{capacity, entries_of};
use crate::scope::Scope;
use account::{Mark, SynthesisMode};
use field::Field;
use tables::{Counts, Entry, Tables};
use variables::Term;

// Whether the values that the mode keeps have their places.
fn values_fit<F: Field>(counts: &Counts, tables: &Tables<'_, F>) -> bool
    ensures { result ≡ values_fit counts.now.mode (state counts.now tables.now) }
{
    match counts.mode {
        SynthesisMode::Setup => !tables.instances.is_empty(),
        SynthesisMode::Prove { .. } => {
            counts.instances <= capacity(tables.instances.len())
                && counts.witnesses <= capacity(tables.witnesses.len())
        }
    }
}

// Whether all that is counted has its places.
fn counts_fit<F: Field>(counts: &Counts, tables: &Tables<'_, F>) -> bool
    ensures { result ≡ counts_fit (state counts.now tables.now) }
{
    counts.terms <= capacity(tables.terms.len())
        && counts.entries <= capacity(tables.index.len())
        && values_fit(counts, tables)
}

// Whether the given list of an entry lies in the first `used` term places.
fn span_fits(used: usize, entry: &Entry) -> bool
    ensures { result ≡ span_fits used entry.now }
{
    entry.given_start <= used && entry.given_len <= used - entry.given_start
}

// The same of every entry.
fn spans_fit(used: usize, entries: &[Entry]) -> bool
    ensures { result ≡ list_all (span_fits used) entries.now }
{
    entries.iter().all(|entry| span_fits(used, entry))
}

// Whether every given list names only what is known where it stands.
fn lists_are_known<F: Field>(counts: &Counts, terms: &[Term<F>], entries: &[Entry]) -> bool
    requires long { counts.now.terms ≤ length terms.now }
    requires spans { list_all (span_fits counts.now.terms) entries.now ≡ true }
    ensures { result ≡ all_known counts.now.instances counts.now.witnesses [] (map (given_in terms.now) entries.now) }
{
    for (k, entry) in entries.iter().enumerate() {
        let scope = Scope {
            instances: counts.instances,
            witnesses: counts.witnesses,
            before: &entries[..k],
        };
        let end = entry.given_start + entry.given_len;
        if scope.check_list(0, &terms[entry.given_start..end]).is_err() {
            return false;
        }
    }
    true
}

// Whether three marks are those of one constraint.
fn is_triple(a: Mark, b: Mark, c: Mark) -> bool
    ensures { result ≡ is_triple a b c }
{
    matches!((a, b, c), (Mark::A, Mark::B, Mark::C))
}

// Whether there are so many triples A, B, C, and else plain marks alone.
fn are_in_triples(triples: usize, entries: &[Entry]) -> bool
    ensures { result ≡ in_triples triples (map (λ e. e.mark) entries.now) }
{
    let mut due = triples;
    let mut rest = entries;
    loop {
        match rest {
            [] => return due == 0,
            [first, after @ ..] if first.mark == Mark::Plain => rest = after,
            [a, b, c, after @ ..] if due > 0 && is_triple(a.mark, b.mark, c.mark) => {
                due -= 1;
                rest = after;
            }
            _ => return false,
        }
    }
}

// The triples that are due: one for each constraint, and none in bare mode.
fn triples_due(counts: &Counts) -> usize
    ensures { result ≡ triples_due counts.now.mode counts.now.constraints }
{
    if should_construct_matrices(counts) {
        counts.constraints
    } else {
        0
    }
}

// Whether the tables are sound for the circuit.
#[tactic(auto, unfolding(tables::specs::Sound::sound))]
pub fn is_sound<F: Field>(counts: &Counts, tables: &Tables<'_, F>) -> bool
    ensures { result ≡ sound (state counts.now tables.now) }
{
    let entries = entries_of(counts, tables.index);
    counts_fit(counts, tables)
        && spans_fit(counts.terms, entries)
        && lists_are_known(counts, tables.terms, entries)
        && are_in_triples(triples_due(counts), entries)
}
