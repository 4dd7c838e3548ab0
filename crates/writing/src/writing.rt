// Writing all three matrices.
ghost use Rattle.std.specs.Prelude.{◌≡◌, length};
ghost use Rattle.variables.specs.Refusals.{answered};
ghost use Rattle.tables.specs.Held.{state};
ghost use Rattle.matrices.specs.Writing.{lent, writing};
ghost use Rattle.writing.specs.Lists.{Lie, Counted, matrix_lists, matrices_from, fits_in};

use crate::lists::FinishedLists;
use circuits::{entries_of, in_use, should_construct_matrices};
use field::Field;
use finalising::is_sound;
use matrices::{Cell, ConstraintMatrices};
use tables::{Counts, Tables};
use variables::Refusal;

// Writes A, B and C, one after the other, where the places suffice.
fn write<F: Field>(
    lists: &FinishedLists<'_, F>,
    counts: &Counts,
    cells: &mut [Cell<F>],
    ends: &mut [usize],
) -> Result<ConstraintMatrices, Refusal>
    requires lie { Lie lists.now.witness_offset lists.now.terms.now lists.now.entries.now }
    requires rows { length (matrix_lists lists.now 0) ≡ counts.now.constraints }
    ensures { fits_in (matrices_from F.model lists.now counts.now) (lent cells.old ends.old) ≡ record { answer = answered result; state = lent cells.new ends.new } }
{
    let a = lists.count_matrix(0);
    let b = lists.count_matrix(1);
    let c = lists.count_matrix(2);
    let rows = counts.constraints;
    if cells.len() < a + b + c || ends.len() < 3 * rows {
        return Err(Refusal::TableTooShort);
    }
    let b_start = lists.write_matrix(0, cells, 0, ends, 0);
    let c_start = lists.write_matrix(1, cells, b_start, ends, rows);
    lists.write_matrix(2, cells, c_start, ends, 2 * rows);
    Ok(ConstraintMatrices {
        num_instance_variables: counts.instances,
        num_witness_variables: counts.witnesses,
        num_constraints: rows,
        num_non_zero: (a, b, c),
    })
}

// Writes the cells of A, then of B, then of C, and for each of their rows the place past it. In bare mode there is nothing to write.
pub fn to_matrices<F: Field>(
    counts: &Counts,
    tables: &Tables<'_, F>,
    cells: &mut [Cell<F>],
    ends: &mut [usize],
) -> Result<Option<ConstraintMatrices>, Refusal>
    requires { Counted counts.now }
    ensures { writing F.model (state counts.now tables.now) (lent cells.old ends.old) ≡ record { answer = answered result; state = lent cells.new ends.new } }
{
    if !is_sound(counts, tables) {
        return Err(Refusal::TablesUnsound);
    }
    if !should_construct_matrices(counts) {
        return Ok(None);
    }
    let lists = FinishedLists {
        terms: in_use(counts.terms, tables.terms),
        entries: entries_of(counts, tables.index),
        witness_offset: counts.instances,
    };
    let written = write(&lists, counts, cells, ends)?;
    Ok(Some(written))
}
