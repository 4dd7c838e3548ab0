// The cells of a list.
ghost use Rattle.std.specs.Prelude.{◌≡◌, ◌+◌, ◌≤◌, map, length};
ghost use Rattle.account.specs.Rows.{cells};
ghost use Rattle.tables.specs.Held.{put};
ghost use Rattle.matrices.specs.Writing.{placed};
ghost use Rattle.writing.specs.Lists.{cell_for, HasColumn, HaveColumns};

use field::Field;
use matrices::Cell;
use variables::Term;

// The cell of a term: none where its number stands for zero and where its variable has no column. The witnesses come after `witness_offset`
// instances.
pub fn cell_of<F: Field>(term: &Term<F>, witness_offset: usize) -> Option<Cell<F>>
    requires { HasColumn witness_offset term.now }
    ensures { result ≡ cell_for F.model witness_offset term.now }
{
    let column = term.variable.get_index_unchecked(witness_offset)?;
    if term.number.same(F::zero()) {
        return None;
    }
    Some(Cell {
        number: term.number,
        column,
    })
}

// How many cells a list has.
pub fn count_cells<F: Field>(list: &[Term<F>], witness_offset: usize) -> usize
    requires { HaveColumns witness_offset list.now }
    ensures { result ≡ length (cells F.model witness_offset list.now) }
{
    let mut count = 0;
    for term in list {
        if cell_of(term, witness_offset).is_some() {
            count += 1;
        }
    }
    count
}

// Writes the cells of a list from place `start` on, and answers the place past them.
pub fn write_cells<F: Field>(
    list: &[Term<F>],
    witness_offset: usize,
    places: &mut [Cell<F>],
    start: usize,
) -> usize
    requires columns { HaveColumns witness_offset list.now }
    requires room { start + length (cells F.model witness_offset list.now) ≤ length places.old }
    ensures end { result ≡ start + length (cells F.model witness_offset list.now) }
    ensures after { places.new ≡ put places.old start (map placed (cells F.model witness_offset list.now)) }
{
    let mut at = start;
    for term in list {
        if let Some(cell) = cell_of(term, witness_offset) {
            places[at] = cell;
            at += 1;
        }
    }
    at
}
