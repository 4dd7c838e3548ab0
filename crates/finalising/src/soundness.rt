// Whether lent tables are sound for a finished circuit.
ghost use Rattle.std.specs.Prelude.{◌≡◌, ◌≤◌, true, map, length};
ghost use Rattle.std.specs.List.{list_all};
ghost use Rattle.tables.specs.Held.{state};
ghost use Rattle.finishing.specs.Sound.{finished_in, finished_fits, is_symbol_free, all_symbol_free, lists_finished, sound_finished};

use circuits::{entries_of, should_construct_matrices};
use field::Field;
use tables::{Counts, Entry, Tables};
use variables::{Term, Variable};

// Whether the finished list of an entry lies in the first `used` term places.
fn finished_fits(used: usize, entry: &Entry) -> bool
    ensures { result ≡ finished_fits used entry.now }
{
    entry.finished_start <= used && entry.finished_len <= used - entry.finished_start
}

// The same of every entry.
fn spans_fit(used: usize, entries: &[Entry]) -> bool
    ensures { result ≡ list_all (finished_fits used) entries.now }
{
    entries.iter().all(|entry| finished_fits(used, entry))
}

// Whether a finished list may name a variable: it is no symbol, and below its count.
fn is_symbol_free(counts: &Counts, variable: Variable) -> bool
    ensures { result ≡ is_symbol_free counts.now.instances counts.now.witnesses variable }
{
    match variable {
        Variable::Zero | Variable::One => true,
        Variable::Instance(i) => i < counts.instances,
        Variable::Witness(i) => i < counts.witnesses,
        Variable::SymbolicLc(_) => false,
    }
}

// The same of all terms of a list.
fn all_symbol_free<F: Field>(counts: &Counts, list: &[Term<F>]) -> bool
    ensures { result ≡ all_symbol_free counts.now.instances counts.now.witnesses list.now }
{
    list.iter()
        .all(|term| is_symbol_free(counts, term.variable))
}

// The same of all finished lists.
fn lists_symbol_free<F: Field>(counts: &Counts, terms: &[Term<F>], entries: &[Entry]) -> bool
    requires { list_all (finished_fits (length terms.now)) entries.now ≡ true }
    ensures { result ≡ list_all (all_symbol_free counts.now.instances counts.now.witnesses) (map (finished_in terms.now) entries.now) }
{
    for entry in entries {
        let end = entry.finished_start + entry.finished_len;
        if !all_symbol_free(counts, &terms[entry.finished_start..end]) {
            return false;
        }
    }
    true
}

// Whether all finished lists lie in use and name only what they may.
fn are_lists_finished<F: Field>(counts: &Counts, tables: &Tables<'_, F>) -> bool
    requires { counts.now.terms ≤ length tables.now.terms.now }
    ensures { result ≡ lists_finished (state counts.now tables.now) }
{
    let entries = entries_of(counts, tables.index);
    spans_fit(counts.terms, entries) && lists_symbol_free(counts, tables.terms, entries)
}

// Whether the tables are sound for the finished circuit.
#[tactic(auto, unfolding(finishing::specs::Sound::sound_finished))]
pub fn is_sound<F: Field>(counts: &Counts, tables: &Tables<'_, F>) -> bool
    ensures { result ≡ sound_finished (state counts.now tables.now) }
{
    circuits::is_sound(counts, tables)
        && (!should_construct_matrices(counts) || are_lists_finished(counts, tables))
}
