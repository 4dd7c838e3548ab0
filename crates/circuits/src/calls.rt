// The calls on an open circuit: each makes its tests in their order, and changes something only where none refuses.
ghost use Rattle.std.specs.Prelude.{◌≡◌, ◌+◌, length};
ghost use Rattle.std.specs.Option.{option_map};
ghost use Rattle.std.specs.Result.{result_err};
ghost use Rattle.variables.specs.Refusals.{told, answered};
ghost use Rattle.account.specs.Finish.{lacks};
ghost use Rattle.account.specs.Refusals.{capacity, value_places, when, first};
ghost use Rattle.tables.specs.Held.{held, state, SamePlaces};
ghost use Rattle.tables.specs.Calls.{fresh, is_setup, keeps_matrices, opened_counts, setting_mode, setting_goal, opening, naming_instance, naming_witness, naming_list, constraining, new_lc_tests, enforce_constraint_tests};

use crate::append;
use crate::places::{LIMIT, capacity};
use crate::scope::Scope;
use account::{Mark, OptimizationGoal, SynthesisMode};
use field::Field;
use tables::{Counts, Entry, Tables};
use variables::{LcIndex, Refusal, SynthesisError, Term, Variable};

// The numbers of a circuit with no variable but the constant one, no combination and no constraint.
fn opened_counts() -> Counts
    ensures { result ≡ opened_counts }
{
    Counts {
        mode: SynthesisMode::Prove {
            construct_matrices: true,
        },
        goal: OptimizationGoal::Constraints,
        instances: 1,
        witnesses: 0,
        constraints: 0,
        entries: 0,
        terms: 0,
    }
}

// Opens a circuit, whatever the tables hold.
pub fn open<F: Field>(tables: &mut Tables<'_, F>) -> Result<Counts, Refusal>
    ensures places { SamePlaces tables.old tables.new }
    ensures does { opening F.model (held tables.old) ≡ record { answer = answered result; state = held tables.new } }
{
    if capacity(tables.instances.len()) == 0 {
        return Err(Refusal::InstancesFull);
    }
    tables.instances[0] = F::one();
    Ok(opened_counts())
}

// Whether no variable but the constant one, no combination and no constraint is there.
fn is_fresh(counts: &Counts) -> bool
    ensures { result ≡ fresh counts.now }
{
    counts.instances == 1 && counts.witnesses == 0 && counts.entries == 0 && counts.constraints == 0
}

pub fn set_mode(counts: &mut Counts, mode: SynthesisMode) -> Result<(), Refusal>
    ensures { setting_mode counts.old mode ≡ record { answer = answered result; state = counts.new } }
{
    if !is_fresh(counts) {
        return Err(Refusal::SetTooLate);
    }
    counts.mode = mode;
    Ok(())
}

pub fn set_optimization_goal(counts: &mut Counts, goal: OptimizationGoal) -> Result<(), Refusal>
    ensures { setting_goal counts.old goal ≡ record { answer = answered result; state = counts.new } }
{
    if !is_fresh(counts) {
        return Err(Refusal::SetTooLate);
    }
    counts.goal = goal;
    Ok(())
}

pub fn is_in_setup_mode(counts: &Counts) -> bool
    ensures { result ≡ is_setup counts.now.mode }
{
    counts.mode == SynthesisMode::Setup
}

pub fn should_construct_matrices(counts: &Counts) -> bool
    ensures { result ≡ keeps_matrices counts.now.mode }
{
    match counts.mode {
        SynthesisMode::Setup => true,
        SynthesisMode::Prove { construct_matrices } => construct_matrices,
    }
}

// How many values there may be in a table of this length. Setup keeps none of a new variable, and goes by the limit alone.
pub fn value_places(counts: &Counts, len: usize) -> usize
    ensures { result ≡ value_places counts.now.mode len }
{
    match counts.mode {
        SynthesisMode::Setup => LIMIT,
        SynthesisMode::Prove { .. } => capacity(len),
    }
}

pub fn new_input_variable<F: Field>(
    counts: &mut Counts,
    tables: &mut Tables<'_, F>,
    value: Result<F, SynthesisError>,
) -> Result<Variable, Refusal>
    ensures places { SamePlaces tables.old tables.new }
    ensures does { naming_instance (state counts.old tables.old) value ≡ record { answer = answered result; state = state counts.new tables.new } }
{
    let n = counts.instances;
    if n >= value_places(counts, tables.instances.len()) {
        return Err(Refusal::InstancesFull);
    }
    if !is_in_setup_mode(counts) {
        tables.instances[n] = value?;
    }
    counts.instances = n + 1;
    Ok(Variable::Instance(n))
}

pub fn new_witness_variable<F: Field>(
    counts: &mut Counts,
    tables: &mut Tables<'_, F>,
    value: Result<F, SynthesisError>,
) -> Result<Variable, Refusal>
    ensures places { SamePlaces tables.old tables.new }
    ensures does { naming_witness (state counts.old tables.old) value ≡ record { answer = answered result; state = state counts.new tables.new } }
{
    let n = counts.witnesses;
    if n >= value_places(counts, tables.witnesses.len()) {
        return Err(Refusal::WitnessesFull);
    }
    if !is_in_setup_mode(counts) {
        tables.witnesses[n] = value?;
    }
    counts.witnesses = n + 1;
    Ok(Variable::Witness(n))
}

// Whether `asked` places more than the `used` ones pass a table of this length.
fn pass(used: usize, asked: usize, len: usize) -> bool
    ensures { result ≡ lacks (used + asked) (capacity len) }
{
    let places = capacity(len);
    used > places || asked > places - used
}

// 13: free entries for so many lists.
fn find_entries(counts: &Counts, index: &[Entry], lists: usize) -> Result<(), Refusal>
    ensures { when (lacks (counts.now.entries + lists) (capacity (length index.now))) 13 ≡ option_map told (result_err result) }
{
    if pass(counts.entries, lists, index.len()) {
        return Err(Refusal::IndexFull);
    }
    Ok(())
}

// 14: free places for so many terms.
fn find_places<F: Field>(counts: &Counts, terms: &[Term<F>], asked: usize) -> Result<(), Refusal>
    ensures { when (lacks (counts.now.terms + asked) (capacity (length terms.now))) 14 ≡ option_map told (result_err result) }
{
    if pass(counts.terms, asked, terms.len()) {
        return Err(Refusal::TermsFull);
    }
    Ok(())
}

// The tests of `new_lc`.
fn may_name<F: Field>(
    counts: &Counts,
    tables: &Tables<'_, F>,
    list: &[Term<F>],
) -> Result<(), Refusal>
    ensures { first (new_lc_tests (state counts.now tables.now) list.now) ≡ option_map told (result_err result) }
{
    find_entries(counts, tables.index, 1)?;
    find_places(counts, tables.terms, list.len())?;
    Scope::at_next_entry(counts, tables.index).check_list(0, list)?;
    Ok(())
}

pub fn new_lc<F: Field>(
    counts: &mut Counts,
    tables: &mut Tables<'_, F>,
    list: &[Term<F>],
) -> Result<Variable, Refusal>
    ensures places { SamePlaces tables.old tables.new }
    ensures does { naming_list (state counts.old tables.old) list.now ≡ record { answer = answered result; state = state counts.new tables.new } }
{
    may_name(counts, tables, list)?;
    let index = LcIndex(counts.entries);
    append(counts, tables, Mark::Plain, list);
    Ok(Variable::SymbolicLc(index))
}

// The tests of `enforce_constraint`.
fn may_constrain<F: Field>(
    counts: &Counts,
    tables: &Tables<'_, F>,
    a: &[Term<F>],
    b: &[Term<F>],
    c: &[Term<F>],
) -> Result<(), Refusal>
    ensures { first (enforce_constraint_tests (state counts.now tables.now) a.now b.now c.now) ≡ option_map told (result_err result) }
{
    if counts.constraints >= LIMIT {
        return Err(Refusal::ConstraintsFull);
    }
    if should_construct_matrices(counts) {
        let asked = a.len().saturating_add(b.len()).saturating_add(c.len());
        find_entries(counts, tables.index, 3)?;
        find_places(counts, tables.terms, asked)?;
    }
    let scope = Scope::at_next_entry(counts, tables.index);
    scope.check_list(0, a)?;
    scope.check_list(1, b)?;
    scope.check_list(2, c)?;
    Ok(())
}

pub fn enforce_constraint<F: Field>(
    counts: &mut Counts,
    tables: &mut Tables<'_, F>,
    a: &[Term<F>],
    b: &[Term<F>],
    c: &[Term<F>],
) -> Result<(), Refusal>
    ensures places { SamePlaces tables.old tables.new }
    ensures does { constraining (state counts.old tables.old) a.now b.now c.now ≡ record { answer = answered result; state = state counts.new tables.new } }
{
    may_constrain(counts, tables, a, b, c)?;
    if should_construct_matrices(counts) {
        append(counts, tables, Mark::A, a);
        append(counts, tables, Mark::B, b);
        append(counts, tables, Mark::C, c);
    }
    counts.constraints += 1;
    Ok(())
}
