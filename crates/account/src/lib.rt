#![tactic(auto)]

// What is promised: the account of a run of calls, finalising on lists, and the theorems about them. Each theorem holds of every field
// that keeps the laws, and is asked for by the contract of a function.
ghost use Rattle.account.specs.Laws.{VariablesRefused, ListsRefused, WellFormed, WorthsMeant, OneAnswer, MatricesExact, ReadBack, Exact, FailsAlike, Finalised, WorkStands, ValuesFound, AddedStand, PlacesTaken, PlacesRefused, PlacesSuffice, PlacesLacking, Outlines, OutlinedOnce, FinishedRise};
ghost use Rattle.account.specs.Finished.{CountsLeft, SameMatrices};
ghost use Rattle.account.specs.Conditions.{AcceptedWhen, OpenedWhen};
ghost use Rattle.account.specs.Causes.{RefusedForCause, CausesRefuse};
ghost use Rattle.account.specs.Promise.{AnyRefusals, EveryRun, GivenKnown, WrittenCounted, ChecksAgree, ChecksByMatrices, TablesFit};

use field::Field;

// What a list is kept for: a named combination, or one of the three lists of a constraint.
#[derive(Clone, Copy, PartialEq, Eq, Debug)]
pub enum Mark {
    Plain,
    A,
    B,
    C,
}

// What a circuit keeps. Prove without matrices is called bare.
#[derive(Clone, Copy, PartialEq, Eq, PartialOrd, Ord, Debug)]
pub enum SynthesisMode {
    Setup,
    Prove { construct_matrices: bool },
}

// What finalising works towards.
#[derive(Clone, Copy, PartialEq, Eq, PartialOrd, Ord, Debug)]
pub enum OptimizationGoal {
    None,
    Constraints,
    Weight,
}

// What known lists are worth in rising order is the one way to give each symbol the worth of its list, and following symbols comes to
// the same.
pub fn worth_has_one_meaning<F: Field>()
    ensures { WorthsMeant F.model }
{}

// A term is refused exactly where its variable is not known, and a list by its first such term.
#[tactic(auto, using(crate::proofs::Refuses::variables_refused, crate::proofs::Refuses::lists_refused))]
pub fn refused_terms_are_unknown<F: Field>()
    ensures variables { VariablesRefused }
    ensures lists { ListsRefused F }
{}

// A circuit is opened exactly where there is a place for the first instance, and a call is accepted exactly where its conditions hold.
#[tactic(auto, using(crate::proofs::Accepts::accepted_when, crate::proofs::Accepts::opened_when))]
pub fn accepted_calls_meet_their_conditions<F: Field>()
    ensures opening { OpenedWhen }
    ensures calls { AcceptedWhen F.model }
{}

// Each refusal has its cause, and a call that has one is refused.
#[tactic(auto, using(crate::proofs::Causes::refused_for_cause, crate::proofs::CausesRefuse::causes_refuse))]
pub fn refusals_have_their_causes<F: Field>()
    ensures causes { RefusedForCause F.model }
    ensures refused { CausesRefuse F.model }
{}

// Where matrices are kept, Setup makes those that Prove makes.
#[tactic(auto, using(crate::proofs::Leaves::same_matrices))]
pub fn setup_makes_the_same_matrices<F: Field>()
    ensures { SameMatrices F.model }
{}

// Two answers to one check are the same.
pub fn checks_have_one_answer<F: Field>()
    ensures { OneAnswer F.model }
{}

// Under a vector that begins with one, the matrices of rows without symbols fail Marlin's condition first at the row that fails first by
// worth; and what is written of rows is read back.
pub fn matrices_fail_where_rows_do<F: Field>()
    ensures failing { MatricesExact F.model }
    ensures written { ReadBack F.model }
{}

// Whatever rule picks the lists to outline, the finished rows hold no symbol and number the constraints plus the added witnesses.
pub fn finished_rows_hold_no_symbol<F: Field>()
    ensures { Finalised F.model (λ n w given cs finished combinations. WellFormed n w given cs finished combinations) }
{}

// Whatever rule picks the lists to outline, a vector that begins with one satisfies the finished rows exactly when its original part
// satisfies every constraint as written and each added witness equals the combination it stands for.
pub fn finished_rows_admit_what_was_written<F: Field>()
    ensures { Finalised F.model (Exact F.model) }
{}

// Whatever rule picks the lists to outline, and where each added witness has the worth of its combination, each finished list is worth what
// its list as given is, and the finished rows what the constraints are as written, and so fail first where these do; the added rows hold.
pub fn finished_rows_fail_where_constraints_do<F: Field>()
    ensures { Finalised F.model (FailsAlike F.model) }
{}

// Whatever the rule, the lists that it picks are outlined, and no others; and there is one way only to do so.
#[tactic(auto, using(crate::proofs::Picks::outlines, crate::proofs::Pins::outlined_once))]
pub fn rules_pick_what_is_outlined<F: Field>()
    ensures outlined { Outlines F.model }
    ensures once { OutlinedOnce F.model }
{}

// Whatever rule picks the lists to outline, the finished lists and those of the added rows rise by variable.
#[tactic(auto, using(crate::proofs::Picks::finished_rise))]
pub fn finished_lists_rise<F: Field>()
    ensures { FinishedRise F.model }
{}

// Finalising in the places that there are gives the lists that it gives without bound, and says how many places it takes; it is refused
// by 14, 12 or 13 alone, exactly where it does not find its places, and by what the first entry lacks that does not; and what its steps
// leave in use is what the finished circuit counts.
pub fn finalising_takes_its_places<F: Field>()
    ensures taken { PlacesTaken F.model }
    ensures refused { PlacesRefused F.model }
    ensures suffice { PlacesSuffice F.model }
    ensures lacking { PlacesLacking F.model }
    ensures left { CountsLeft F.model }
{}

// Where every value is kept, what is worked out for each list and for each added witness stands for what the list is worth; and whichever
// are kept, what is worked out for a variable is there exactly where all is kept that it rests on, and then stands for its worth.
pub fn kept_values_stand_for_worths<F: Field>()
    ensures work { WorkStands F.model }
    ensures found { ValuesFound F.model }
    ensures added { AddedStand F.model }
{}

// The main promise, of calls on a circuit just opened. `refusals`: of every log whose accepted calls build where they stand, were allowed
// and were answered from the account, whichever others were refused. `runs`: of the run that any calls make over lent tables of any lengths.
pub fn every_run_keeps_the_promise<F: Field>()
    ensures refusals { AnyRefusals F.model }
    ensures runs { EveryRun F.model }
{}

// Parts of it by name: the given lists of an account name only what is known where they stand;
pub fn given_lists_are_known<F: Field>()
    ensures { GivenKnown F.model }
{}

// the counts that are written are those of the account;
pub fn written_counts_are_the_accounts<F: Field>()
    ensures { WrittenCounted F.model }
{}

// accepted checks of equal lists at equal kept values answer alike, before finalising or after, of one circuit or of two;
pub fn equal_checks_answer_alike<F: Field>()
    ensures { ChecksAgree F.model }
{}

// and an accepted check of a finished circuit names the first row that fails Marlin's condition at the kept values.
pub fn finished_checks_go_by_the_matrices<F: Field>()
    ensures { ChecksByMatrices F.model }
{}

// Where a circuit could be opened, the counts fit the tables and the lists are sound at every moment of a run, and no call is refused by 17.
pub fn tables_fit_every_run<F: Field>()
    ensures { TablesFit F.model }
{}
