#![tactic(auto)]

// The tables that a circuit is kept in, which its caller lends to each call, and the numbers that say what of them is in use.
ghost use Rattle.std.specs.Prelude.{◌≡◌};
ghost use Rattle.tables.specs.Held.{entry};
ghost use Rattle.tables.specs.Runs.{RunsFollow};
ghost use Rattle.tables.specs.Laws.{SoundWhen, CallsFollow, CallsKeepBeyond, ChecksName, QuestionsFind, WorkFound};

use account::{Mark, OptimizationGoal, SynthesisMode};
use field::Field;
use variables::Term;

// What a list is kept for, and where it lies among the terms: as it was given, and as finalising left it.
#[derive(Clone, Copy, PartialEq, Eq, Debug)]
pub struct Entry {
    pub mark: Mark,
    pub given_start: usize,
    pub given_len: usize,
    pub finished_start: usize,
    pub finished_len: usize,
}

impl Entry {
    // An entry as it is made for a given list: nothing is finished.
    pub fn new(mark: Mark, given_start: usize, given_len: usize) -> Entry
        ensures { result ≡ entry mark given_start given_len }
    {
        Entry {
            mark,
            given_start,
            given_len,
            finished_start: 0,
            finished_len: 0,
        }
    }
}

// The four tables.
#[derive(Drop)]
pub struct Tables<'t, F> {
    pub terms: &'t mut [Term<F>],
    pub index: &'t mut [Entry],
    pub instances: &'t mut [F],
    pub witnesses: &'t mut [F],
}

// The numbers of a circuit: its mode and goal, how many instances, witnesses and constraints it has, and how many index entries and
// term places are in use.
#[derive(Clone, Copy, PartialEq, Eq, Debug)]
pub struct Counts {
    pub mode: SynthesisMode,
    pub goal: OptimizationGoal,
    pub instances: usize,
    pub witnesses: usize,
    pub constraints: usize,
    pub entries: usize,
    pub terms: usize,
}

// The test for sound tables says yes exactly where they are sound.
#[tactic(auto, using(crate::proofs::Soundness::sound_when))]
pub fn soundness_is_tested<F: Field>()
    ensures { SoundWhen F }
{}

// Opening a circuit shows the account as it starts, and each call follows the account.
#[tactic(auto, using(crate::proofs::Calls::calls_follow))]
pub fn calls_follow_the_account<F: Field>()
    ensures { CallsFollow F.model }
{}

// No call changes the length of a table, or a place past those that count.
#[tactic(auto, using(crate::proofs::Beyond::calls_keep_beyond))]
pub fn calls_keep_places_beyond<F: Field>()
    ensures { CallsKeepBeyond F.model }
{}

// What an accepted check answers names the first constraint in the tables that fails as it was given.
pub fn checks_name_what_fails<F: Field>()
    ensures { ChecksName F.model }
{}

// An accepted question finds a value exactly where one is due, and the right one.
pub fn questions_find_values<F: Field>()
    ensures { QuestionsFind F.model }
{}

// What a filled work table holds: at the place of each list a value, exactly where all is kept that the list rests on, and it stands for
// what the list is worth; past the lists what was there.
pub fn work_tables_hold_worths<F: Field>()
    ensures { WorkFound F.model }
{}

// A run of calls on a circuit just opened, over lent tables, is the run of the account: the same answers and refusals, all that is
// promised of runs holds, and the tables show the account.
pub fn runs_follow_the_account<F: Field>()
    ensures { RunsFollow F.model }
{}
