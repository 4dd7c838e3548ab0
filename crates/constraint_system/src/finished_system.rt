// The finished circuit.
ghost use Rattle.std.specs.Prelude.{◌≡◌, ◌≤◌, ℕ, length, IfOk};
ghost use Rattle.variables.specs.Refusals.{answered};
ghost use Rattle.account.specs.Calls as calls;
ghost use Rattle.account.specs.Refusals.{limit};
ghost use Rattle.tables.specs.Calls.{is_setup, keeps_matrices};
ghost use Rattle.tables.specs.Follows.{answer_by};
ghost use Rattle.finishing.specs.Checks.{checking, satisfying, asking};
ghost use Rattle.finishing.specs.Follows.{FollowsFinished};
ghost use Rattle.finishing.specs.Laws.{NamesRow, SatisfiesRows, ValuesFinished};
ghost use Rattle.matrices.specs.Writing.{lent, writing};
ghost use Rattle.matrices.specs.Laws.{as_written, Writes};

use account::{OptimizationGoal, SynthesisMode};
use field::Field;
use matrices::{Cell, ConstraintMatrices};
use tables::{Counts, Tables};
use variables::{Refusal, Variable};

// A circuit that was finalised: numbers alone, which say what of the lent tables is in use. Only finalising makes one, and there is no copy
// of it. It can be checked and asked, its matrices can be written, and nothing is added to it.
#[derive(Drop, Debug)]
pub struct FinishedSystem {
    pub(crate) counts: Counts,
    ghost has_one: { 1 ≤ counts.instances },
    ghost few_instances: { counts.instances ≤ limit },
    ghost few_witnesses: { counts.witnesses ≤ limit },
}

impl FinishedSystem {
    ghost use Rattle.constraint_system.specs.Circuit.{left};
    ghost use Rattle.constraint_system.specs.Finished.{finished_numbers, finished};

    pub fn mode(&self) -> SynthesisMode
        ensures { result ≡ (finished_numbers self.now).mode }
    {
        self.counts.mode
    }

    pub fn is_in_setup_mode(&self) -> bool
        ensures { result ≡ is_setup (finished_numbers self.now).mode }
    {
        circuits::is_in_setup_mode(&self.counts)
    }

    pub fn should_construct_matrices(&self) -> bool
        ensures { result ≡ keeps_matrices (finished_numbers self.now).mode }
    {
        circuits::should_construct_matrices(&self.counts)
    }

    pub fn optimization_goal(&self) -> OptimizationGoal
        ensures { result ≡ (finished_numbers self.now).goal }
    {
        self.counts.goal
    }

    // The constant one among them.
    pub fn num_instance_variables(&self) -> usize
        ensures { result ≡ (finished_numbers self.now).instances }
    {
        self.counts.instances
    }

    // The added ones among them.
    pub fn num_witness_variables(&self) -> usize
        ensures { result ≡ (finished_numbers self.now).witnesses }
    {
        self.counts.witnesses
    }

    // The added rows among them.
    pub fn num_constraints(&self) -> usize
        ensures { result ≡ (finished_numbers self.now).constraints }
    {
        self.counts.constraints
    }

    // How many index entries are in use, those of added rows among them.
    pub fn num_linear_combinations(&self) -> usize
        ensures { result ≡ (finished_numbers self.now).entries }
    {
        self.counts.entries
    }

    // The first row that fails at the kept values, or none.
    pub fn which_is_unsatisfied<F: Field>(
        &self,
        tables: &Tables<'_, F>,
    ) -> Result<Option<usize>, Refusal>
        ensures does { checking F.model (finished self.now tables.now) ≡ answered result }
        ensures names { IfOk result (λ answer. NamesRow F.model (finished self.now tables.now) answer) }
        ensures account { (work : ℕ) → FollowsFinished F.model (calls.which_is_unsatisfied work) (answer_by calls.unsatisfied result) (finished self.now tables.now) }
    {
        finalising::which_is_unsatisfied(&self.counts, tables)
    }

    // Whether all rows hold at the kept values.
    pub fn is_satisfied<F: Field>(&self, tables: &Tables<'_, F>) -> Result<bool, Refusal>
        ensures does { satisfying F.model (finished self.now tables.now) ≡ answered result }
        ensures all { IfOk result (λ yes. SatisfiesRows F.model (finished self.now tables.now) yes) }
    {
        let first = self.which_is_unsatisfied(tables)?;
        Ok(first.is_none())
    }

    // The value of a variable: none where it is not kept, and none for a symbol.
    pub fn assigned_value<F: Field>(
        &self,
        tables: &Tables<'_, F>,
        variable: Variable,
    ) -> Result<Option<F>, Refusal>
        ensures does { asking F.model (finished self.now tables.now) variable ≡ answered result }
        ensures values { IfOk result (λ answer. ValuesFinished F.model (finished self.now tables.now) variable answer) }
        ensures account { (work : ℕ) → FollowsFinished F.model (calls.assigned_value work variable) (answer_by calls.assigned result) (finished self.now tables.now) }
    {
        finalising::assigned_value(&self.counts, tables, variable)
    }

    // Writes the cells of A, then of B, then of C, each term of a row whose number is not zero and whose variable has a column, and for each
    // row of A, then of B, then of C the place past its last cell. Answers how many instances, witnesses and rows there are and how many
    // cells A, B and C have; in bare mode there is nothing to write, and none is answered.
    pub fn to_matrices<F: Field>(
        &self,
        tables: &Tables<'_, F>,
        cells: &mut [Cell<F>],
        ends: &mut [usize],
    ) -> Result<Option<ConstraintMatrices>, Refusal>
        ensures does { writing F.model (finished self.now tables.now) (lent cells.old ends.old) ≡ left result (lent cells.new ends.new) }
        ensures writes { IfOk result (λ answer. Writes F.model (finished self.now tables.now) (lent cells.new ends.new) answer) }
        ensures account { FollowsFinished F.model (calls.to_matrices (length cells.old) (length ends.old)) (answer_by (as_written (lent cells.new ends.new)) result) (finished self.now tables.now) }
    {
        writing::to_matrices(&self.counts, tables, cells, ends)
    }
}
