#![tactic(auto)]

// The matrices of a finished circuit: what is written of them into lent tables, and what is promised of it.
ghost use Rattle.matrices.specs.Laws.{WritesRows, WritingFollows};

use field::Field;

// What a matrix keeps of a term.
#[derive(Clone, Copy)]
pub struct Cell<F> {
    pub number: F,
    pub column: usize,
}

// What is answered beside the cells and the row ends: how many instances, witnesses and rows there are, the added ones among them, and how
// many cells A, B and C have.
#[derive(Clone, Copy, PartialEq, Eq, Debug)]
pub struct ConstraintMatrices {
    pub num_instance_variables: usize,
    pub num_witness_variables: usize,
    pub num_constraints: usize,
    pub num_non_zero: (usize, usize, usize),
}

// What is written is read back as the cells of the rows in the tables, and under a vector that begins with one it fails Marlin's condition
// first at the row that fails first by worth.
pub fn writing_is_of_the_rows<F: Field>()
    ensures { WritesRows F.model }
{}

// Writing follows the account.
#[tactic(auto, using(crate::proofs::Follows::writing_follows))]
pub fn writing_follows_the_account<F: Field>()
    ensures { WritingFollows F.model }
{}
