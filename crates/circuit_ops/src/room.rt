// The tables that each circuit is lent. They are made once for each field, so that a circuit finds in them what the last one left, which its
// run must not show.
use crate::number::Number;
use gf8::Gf8;
use p31::P31;
use runs::{Answer, Call, Cell, Circuit, Entry, Mark, Refusal, Tables, Term, run};
use std::alloc::{AllocError, Global};

const TERMS: usize = 65536;

const ENTRIES: usize = 4096;

const VALUES: usize = 4096;

const CELLS: usize = 65536;

#[derive(Drop)]
pub struct Room<F> {
    terms: Vec<Term<F>>,
    index: Vec<Entry>,
    pub instances: Vec<F>,
    pub witnesses: Vec<F>,
    work: Vec<Option<F>>,
    pub cells: Vec<Cell<F>>,
    pub ends: Vec<usize>,
}

impl<F: Number> Room<F> {
    fn new(heap: Global) -> Result<Room<F>, AllocError> {
        let zero = F::zero();
        let cell = Cell {
            number: zero,
            column: 0,
        };
        Ok(Room {
            terms: vec![in heap; Term::default(); TERMS]?,
            index: vec![in heap; Entry::new(Mark::Plain, 0, 0); ENTRIES]?,
            instances: vec![in heap; zero; VALUES]?,
            witnesses: vec![in heap; zero; VALUES]?,
            work: vec![in heap; None; ENTRIES]?,
            cells: vec![in heap; cell; CELLS]?,
            ends: vec![in heap; 0; ENTRIES]?,
        })
    }

    pub(crate) fn run(
        &mut self,
        calls: &[Call<'_, F>],
        answers: &mut [Answer<F>],
    ) -> Result<Circuit, Refusal> {
        let mut tables = Tables {
            terms: self.terms.as_mut_slice(),
            index: self.index.as_mut_slice(),
            instances: self.instances.as_mut_slice(),
            witnesses: self.witnesses.as_mut_slice(),
        };
        let work = self.work.as_mut_slice();
        let cells = self.cells.as_mut_slice();
        run(
            calls,
            &mut tables,
            work,
            cells,
            self.ends.as_mut_slice(),
            answers,
        )
    }
}

#[derive(Drop)]
pub struct Rooms {
    pub p31: Room<P31>,
    pub gf8: Room<Gf8>,
}

impl Rooms {
    pub(crate) fn new(heap: Global) -> Result<Rooms, AllocError> {
        Ok(Rooms {
            p31: Room::new(heap)?,
            gf8: Room::new(heap)?,
        })
    }
}
