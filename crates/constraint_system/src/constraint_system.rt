// The open circuit.
ghost use Rattle.std.specs.Prelude.{◌≡◌, ◌≤◌, length, IfOk};
ghost use Rattle.account.specs.Account.{KeepsMatrices, opened};
ghost use Rattle.account.specs.Refusals.{limit};
ghost use Rattle.account.specs.Calls as calls;
ghost use Rattle.tables.specs.Held.{held, SamePlaces, KeepsBeyond};
ghost use Rattle.tables.specs.Calls.{is_setup, keeps_matrices, setting_mode, setting_goal, opening, naming_instance, naming_witness, naming_list, constraining, checking, satisfying, asking};
ghost use Rattle.tables.specs.Follows.{Shows, answer_by, Follows};
ghost use Rattle.tables.specs.Laws.{Names, Satisfies, Values};
ghost use Rattle.finishing.specs.Finalising.{Finalises};
ghost use Rattle.finishing.specs.Follows.{FollowsFinalising};
ghost use Rattle.finishing.specs.Laws.{Admits};

use crate::finished_system::FinishedSystem;
use account::{OptimizationGoal, SynthesisMode};
use field::Field;
use tables::{Counts, Tables};
use variables::{Refusal, SynthesisError, Term, Variable};

// A circuit under construction: numbers alone, which say what of the lent tables is in use. Only `new` makes one, and there is no copy of it.
#[derive(Drop, Debug)]
pub struct ConstraintSystem {
    counts: Counts,
    ghost has_one: { 1 ≤ counts.instances },
    ghost few_instances: { counts.instances ≤ limit },
    ghost few_witnesses: { counts.witnesses ≤ limit },
}

impl ConstraintSystem {
    ghost use Rattle.constraint_system.specs.Circuit.{numbers, circuit, opened_numbers, left};
    ghost use Rattle.constraint_system.specs.Finished.{finished, refusal_of, finalized, answer_of};

    // A circuit with no variable but the constant one, no combination and no constraint, whatever the tables hold.
    pub fn new<F: Field>(tables: &mut Tables<'_, F>) -> Result<ConstraintSystem, Refusal>
        ensures places { SamePlaces tables.old tables.new }
        ensures does { opening F.model (held tables.old) ≡ left (opened_numbers result) (held tables.new) }
        ensures beyond { KeepsBeyond (held tables.old) (held tables.new) }
        ensures account { IfOk result (λ c. Shows (circuit c tables.new) (opened F.model)) }
    {
        let counts = circuits::open(tables)?;
        Ok(ConstraintSystem { counts })
    }

    // Sets what is kept. It comes before all else.
    pub fn set_mode(&mut self, mode: SynthesisMode) -> Result<(), Refusal>
        ensures { setting_mode (numbers self.old) mode ≡ left result (numbers self.new) }
    {
        circuits::set_mode(&mut self.counts, mode)
    }

    pub fn mode(&self) -> SynthesisMode
        ensures { result ≡ (numbers self.now).mode }
    {
        self.counts.mode
    }

    pub fn is_in_setup_mode(&self) -> bool
        ensures { result ≡ is_setup (numbers self.now).mode }
    {
        circuits::is_in_setup_mode(&self.counts)
    }

    pub fn should_construct_matrices(&self) -> bool
        ensures { result ≡ keeps_matrices (numbers self.now).mode }
    {
        circuits::should_construct_matrices(&self.counts)
    }

    // Sets what finalising works towards. It comes before all else.
    pub fn set_optimization_goal(&mut self, goal: OptimizationGoal) -> Result<(), Refusal>
        ensures { setting_goal (numbers self.old) goal ≡ left result (numbers self.new) }
    {
        circuits::set_optimization_goal(&mut self.counts, goal)
    }

    pub fn optimization_goal(&self) -> OptimizationGoal
        ensures { result ≡ (numbers self.now).goal }
    {
        self.counts.goal
    }

    // The constant one among them.
    pub fn num_instance_variables(&self) -> usize
        ensures { result ≡ (numbers self.now).instances }
    {
        self.counts.instances
    }

    pub fn num_witness_variables(&self) -> usize
        ensures { result ≡ (numbers self.now).witnesses }
    {
        self.counts.witnesses
    }

    pub fn num_constraints(&self) -> usize
        ensures { result ≡ (numbers self.now).constraints }
    {
        self.counts.constraints
    }

    // How many index entries are in use.
    pub fn num_linear_combinations(&self) -> usize
        ensures { result ≡ (numbers self.now).entries }
    {
        self.counts.entries
    }

    // A public input.
    pub fn new_input_variable<F: Field>(
        &mut self,
        tables: &mut Tables<'_, F>,
        value: Result<F, SynthesisError>,
    ) -> Result<Variable, Refusal>
        ensures places { SamePlaces tables.old tables.new }
        ensures does { naming_instance (circuit self.old tables.old) value ≡ left result (circuit self.new tables.new) }
        ensures beyond { KeepsBeyond (held tables.old) (held tables.new) }
        ensures account { Follows F.model (calls.new_input_variable value) (answer_by calls.named result) (circuit self.old tables.old) (circuit self.new tables.new) }
    {
        circuits::new_input_variable(&mut self.counts, tables, value)
    }

    // A private input.
    pub fn new_witness_variable<F: Field>(
        &mut self,
        tables: &mut Tables<'_, F>,
        value: Result<F, SynthesisError>,
    ) -> Result<Variable, Refusal>
        ensures places { SamePlaces tables.old tables.new }
        ensures does { naming_witness (circuit self.old tables.old) value ≡ left result (circuit self.new tables.new) }
        ensures beyond { KeepsBeyond (held tables.old) (held tables.new) }
        ensures account { Follows F.model (calls.new_witness_variable value) (answer_by calls.named result) (circuit self.old tables.old) (circuit self.new tables.new) }
    {
        circuits::new_witness_variable(&mut self.counts, tables, value)
    }

    // A symbol that stands for a linear combination.
    pub fn new_lc<F: Field>(
        &mut self,
        tables: &mut Tables<'_, F>,
        list: &[Term<F>],
    ) -> Result<Variable, Refusal>
        ensures places { SamePlaces tables.old tables.new }
        ensures does { naming_list (circuit self.old tables.old) list.now ≡ left result (circuit self.new tables.new) }
        ensures beyond { KeepsBeyond (held tables.old) (held tables.new) }
        ensures account { Follows F.model (calls.new_lc list.now) (answer_by calls.named result) (circuit self.old tables.old) (circuit self.new tables.new) }
    {
        circuits::new_lc(&mut self.counts, tables, list)
    }

    // Asks that `a` times `b` is `c`.
    pub fn enforce_constraint<F: Field>(
        &mut self,
        tables: &mut Tables<'_, F>,
        a: &[Term<F>],
        b: &[Term<F>],
        c: &[Term<F>],
    ) -> Result<(), Refusal>
        ensures places { SamePlaces tables.old tables.new }
        ensures does { constraining (circuit self.old tables.old) a.now b.now c.now ≡ left result (circuit self.new tables.new) }
        ensures beyond { KeepsBeyond (held tables.old) (held tables.new) }
        ensures account { Follows F.model (calls.enforce_constraint a.now b.now c.now) (answer_by (λ _. calls.unit) result) (circuit self.old tables.old) (circuit self.new tables.new) }
    {
        circuits::enforce_constraint(&mut self.counts, tables, a, b, c)
    }

    // The first constraint that fails at the kept values, or none. The work table then holds what each entry's list is worth.
    pub fn which_is_unsatisfied<F: Field>(
        &self,
        tables: &Tables<'_, F>,
        work: &mut [Option<F>],
    ) -> Result<Option<usize>, Refusal>
        ensures does { checking F.model (circuit self.now tables.now) work.old ≡ left result work.new }
        ensures names { IfOk result (λ answer. Names F.model (circuit self.now tables.now) answer) }
        ensures account { Follows F.model (calls.which_is_unsatisfied (length work.old)) (answer_by calls.unsatisfied result) (circuit self.now tables.now) (circuit self.now tables.now) }
    {
        circuits::which_is_unsatisfied(&self.counts, tables, work)
    }

    // Whether all constraints hold at the kept values.
    pub fn is_satisfied<F: Field>(
        &self,
        tables: &Tables<'_, F>,
        work: &mut [Option<F>],
    ) -> Result<bool, Refusal>
        ensures does { satisfying F.model (circuit self.now tables.now) work.old ≡ left result work.new }
        ensures all { IfOk result (λ yes. Satisfies F.model (circuit self.now tables.now) yes) }
    {
        let first = self.which_is_unsatisfied(tables, work)?;
        Ok(first.is_none())
    }

    // The value of a variable, or none. For a known symbol the work table then holds what each entry's list is worth.
    pub fn assigned_value<F: Field>(
        &self,
        tables: &Tables<'_, F>,
        variable: Variable,
        work: &mut [Option<F>],
    ) -> Result<Option<F>, Refusal>
        ensures does { asking F.model (circuit self.now tables.now) variable work.old ≡ left result work.new }
        ensures values { IfOk result (λ answer. Values F.model (circuit self.now tables.now) variable answer) }
        ensures account { Follows F.model (calls.assigned_value (length work.old) variable) (answer_by calls.assigned result) (circuit self.now tables.now) (circuit self.now tables.now) }
    {
        circuits::assigned_value(&self.counts, tables, variable, work)
    }

    // Rewrites all lists without symbols, as the goal says, and gives the finished circuit for this one. A refusal hands the circuit back.
    pub fn finalize<F: Field>(
        self,
        tables: &mut Tables<'_, F>,
    ) -> Result<FinishedSystem, (ConstraintSystem, Refusal)>
        ensures places { SamePlaces tables.old tables.new }
        ensures does { Finalises F.model (circuit self tables.old) (refusal_of result) (finalized result tables.new) }
        ensures beyond { KeepsBeyond (held tables.old) (held tables.new) }
        ensures admits { IfOk result (λ f. KeepsMatrices (numbers self).mode → Admits F.model (circuit self tables.old) (finished f tables.new)) }
        ensures account { FollowsFinalising F.model (answer_of result) (circuit self tables.old) (finalized result tables.new) }
    {
        match finalising::finalize(self.counts, tables) {
            Ok(counts) => Ok(FinishedSystem { counts }),
            Err(refusal) => Err((self, refusal)),
        }
    }
}
