// A merged list that stands behind the used places: it is the finished list of its entry, or a witness is added that stands for it.
ghost use Rattle.std.specs.Prelude.{◌≡◌, ◌+◌, ◌<◌, ◌≤◌, Ok, [], length, take, drop, OnOk, OnErr, slice_index_or, slice_set};
ghost use Rattle.std.specs.Result.{result_err};
ghost use Rattle.std.specs.Option.{option_map};
ghost use Rattle.variables.specs.Refusals.{told};
ghost use Rattle.variables.specs.Evaluate.{read, evaluated};
ghost use Rattle.account.specs.declared.Mark.TheVariants.{Plain};
ghost use Rattle.account.specs.Account.{KeepsValues};
ghost use Rattle.account.specs.Refusals.{limit, first};
ghost use Rattle.tables.specs.Held.{put, entry};
ghost use Rattle.finishing.specs.Layout.{with_finished, row_entry, row_entries};
ghost use Rattle.finishing.specs.Steps.{with_added, outlined_at, trimmed};
ghost use Rattle.finalising.specs.Lent.{lent, row_tests};

use account::Mark;
use circuits::{is_in_setup_mode, value_places};
use field::Field;
use tables::{Counts, Entry};
use terms::evaluate;
use variables::{Assignment, Refusal, Term, Variable};

// Notes where an entry's finished list lies.
pub fn note(index: &mut [Entry], at: usize, start: usize, len: usize)
    requires { at < length index.old }
    ensures { index.new ≡ slice_set index.old at (with_finished start len (slice_index_or index.old at (entry Plain 0 0))) }
{
    let entry = &mut index[at];
    entry.finished_start = start;
    entry.finished_len = len;
}

// An entry of an added row: its list lies in these places as given and as finished.
fn row_entry(mark: Mark, start: usize, len: usize) -> Entry
    ensures { result ≡ row_entry mark start len }
{
    Entry {
        mark,
        given_start: start,
        given_len: len,
        finished_start: start,
        finished_len: len,
    }
}

// Writes the three entries of an added row, whose list A has its terms from `start` on.
fn write_row(index: &mut [Entry], at: usize, start: usize, len: usize)
    requires there { at + 3 ≤ length index.old }
    requires few { start + len + 2 ≤ limit }
    ensures { index.new ≡ put index.old at (row_entries start len) }
{
    let end = start + len;
    let row = [
        row_entry(Mark::A, start, len),
        row_entry(Mark::B, end, 1),
        row_entry(Mark::C, end + 1, 1),
    ];
    index[at..at + 3].copy_from_slice(&row);
}

// The places of an added row whose list A ends at `end`, in tables of these lengths: two terms, a witness and three entries.
fn find_row_places(
    counts: &Counts,
    end: usize,
    terms: usize,
    entries: usize,
    witnesses: usize,
) -> Result<(), Refusal>
    requires end { end ≤ terms }
    requires entries { counts.now.entries ≤ entries }
    ensures { first (row_tests counts.now end terms entries witnesses) ≡ option_map told (result_err result) }
{
    if terms - end < 2 {
        return Err(Refusal::TermsFull);
    }
    if counts.witnesses >= value_places(counts, witnesses) {
        return Err(Refusal::WitnessesFull);
    }
    if entries - counts.entries < 3 {
        return Err(Refusal::IndexFull);
    }
    Ok(())
}

// Keeps the value of an added witness, which is what the merged list is worked out to, `len` terms behind the used ones; Setup keeps none.
fn keep_worth<F: Field>(
    counts: &Counts,
    terms: &[Term<F>],
    len: usize,
    instances: &[F],
    witnesses: &mut [F],
)
    requires terms { counts.now.terms + len ≤ length terms.now }
    requires witnesses { KeepsValues counts.now.mode → counts.now.witnesses < length witnesses.old }
    ensures { witnesses.new ≡ with_added counts.now.mode (evaluated F.model (read F.model instances.now (take counts.now.witnesses witnesses.old) []) (take len (drop counts.now.terms terms.now))) counts.now.witnesses witnesses.old }
{
    if is_in_setup_mode(counts) {
        return;
    }
    let at = counts.witnesses;
    let assignment = Assignment {
        instances,
        witnesses: &witnesses[..at],
    };
    let merged = &terms[counts.terms..counts.terms + len];
    let no_symbols = [];
    let worth = evaluate(merged, &assignment, &no_symbols);
    if let Some(value) = worth {
        witnesses[at] = value;
    }
}

// Adds a witness that stands for the merged list of the entry `at`: `len` terms behind the used ones.
pub fn outline<F: Field>(
    counts: &mut Counts,
    terms: &mut [Term<F>],
    index: &mut [Entry],
    instances: &[F],
    witnesses: &mut [F],
    at: usize,
    len: usize,
) -> Result<(), Refusal>
    requires terms { counts.old.terms + len ≤ length terms.old }
    requires few_terms { length terms.old ≤ limit }
    requires index { counts.old.entries ≤ length index.old }
    requires few_entries { length index.old ≤ limit }
    requires at { at < counts.old.entries }
    requires constraints { counts.old.constraints ≤ counts.old.entries }
    ensures refuses { first (row_tests counts.old (counts.old.terms + len) (length terms.old) (length index.old) (length witnesses.old)) ≡ option_map told (result_err result) }
    ensures outlined { OnOk result (trimmed (lent counts.new terms.new index.new instances.now witnesses.new)
        ≡ outlined_at F.model (trimmed (lent counts.old terms.old index.old instances.now witnesses.old)) at (take len (drop counts.old.terms terms.old))) }
    ensures refused { OnErr result (lent counts.new terms.new index.new instances.now witnesses.new ≡ lent counts.old terms.old index.old instances.now witnesses.old) }
    ensures long { length terms.new ≡ length terms.old }
{
    let start = counts.terms;
    let end = start + len;
    find_row_places(counts, end, terms.len(), index.len(), witnesses.len())?;
    keep_worth(counts, terms, len, instances, witnesses);
    terms[end] = Term::from(Variable::One);
    terms[end + 1] = Term::from(Variable::Witness(counts.witnesses));
    note(index, at, end + 1, 1);
    write_row(index, counts.entries, start, len);
    counts.witnesses += 1;
    counts.constraints += 1;
    counts.entries += 3;
    counts.terms = end + 2;
    Ok(())
}
