// The finished lists of a circuit, and the cells of a matrix that they make.
ghost use Rattle.std.specs.Prelude.{◌≡◌, ◌+◌, ◌≤◌, map, length, slice_index_or, []};
ghost use Rattle.account.specs.Rows.{concatenated, ends_from};
ghost use Rattle.tables.specs.Held.{put};
ghost use Rattle.matrices.specs.Writing.{placed};
ghost use Rattle.writing.specs.Lists.{found, rows_cells, Lie};

use crate::cells::{count_cells, write_cells};
use account::Mark;
use field::Field;
use matrices::Cell;
use tables::Entry;
use variables::Term;

// The terms and the entries in use of a finished circuit, whose witnesses come after `witness_offset` instances.
#[derive(Clone, Copy)]
pub struct FinishedLists<'a, F> {
    pub terms: &'a [Term<F>],
    pub entries: &'a [Entry],
    pub witness_offset: usize,
}

impl<F: Field> FinishedLists<'_, F> {
    // The finished list of entry `k`, or the empty one where there is no such entry.
    pub fn list_at(&self, k: usize) -> &[Term<F>]
        requires { Lie self.now.witness_offset self.now.terms.now self.now.entries.now }
        ensures { result.now ≡ slice_index_or (found self.now) k [] }
    {
        let Some(entry) = self.entries.get(k) else {
            return &self.terms[..0];
        };
        let end = entry.finished_start + entry.finished_len;
        &self.terms[entry.finished_start..end]
    }

    // How many cells a matrix has: A, B or C, whose lists are those of the entries marked A, or so many places behind them.
    pub fn count_matrix(&self, behind: usize) -> usize
        requires lie { Lie self.now.witness_offset self.now.terms.now self.now.entries.now }
        requires near { behind ≤ 2 }
        ensures { result ≡ length (concatenated (rows_cells F.model self.now behind)) }
    {
        let mut count = 0;
        for (k, head) in self.entries.iter().enumerate() {
            if head.mark == Mark::A {
                count += count_cells(self.list_at(k + behind), self.witness_offset);
            }
        }
        count
    }

    // Writes the cells of a matrix from place `start` on, and the end of each of its rows from place `first` on, and answers the place past
    // the cells.
    pub fn write_matrix(
        &self,
        behind: usize,
        cells: &mut [Cell<F>],
        start: usize,
        ends: &mut [usize],
        first: usize,
    ) -> usize
        requires lie { Lie self.now.witness_offset self.now.terms.now self.now.entries.now }
        requires near { behind ≤ 2 }
        requires cells { start + length (concatenated (rows_cells F.model self.now behind)) ≤ length cells.old }
        requires ends { first + length (rows_cells F.model self.now behind) ≤ length ends.old }
        ensures end { result ≡ start + length (concatenated (rows_cells F.model self.now behind)) }
        ensures cells { cells.new ≡ put cells.old start (map placed (concatenated (rows_cells F.model self.now behind))) }
        ensures ends { ends.new ≡ put ends.old first (ends_from start (rows_cells F.model self.now behind)) }
    {
        let mut at = start;
        let mut row = first;
        for (k, entry) in self.entries.iter().enumerate() {
            if entry.mark == Mark::A {
                at = write_cells(self.list_at(k + behind), self.witness_offset, cells, at);
                ends[row] = at;
                row += 1;
            }
        }
        at
    }
}
