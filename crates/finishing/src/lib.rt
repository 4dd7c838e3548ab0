#![tactic(auto)]

// What finalising leaves in lent tables, and what is promised of it and of a finished circuit.
ghost use Rattle.finishing.specs.Laws.{SoundFinishedWhen, FinalisingAdmits, FinalisingFollows, ChecksNameRows, QuestionsFindFinished, FinishedFollow};

use field::Field;

// The test for sound tables of a finished circuit says yes exactly where they are sound.
#[tactic(auto, using(crate::proofs::SoundWhen::sound_finished_when))]
pub fn finished_soundness_is_tested<F: Field>()
    ensures { SoundFinishedWhen F }
{}

// Finalising that is not refused leaves rows without symbols, as many as constraints and added witnesses, and a vector that begins with
// one satisfies them exactly when its original part satisfies every constraint as given and each added witness equals the combination that
// it stands for.
pub fn finalising_admits_what_was_given<F: Field>()
    ensures { FinalisingAdmits F.model }
{}

// Finalising follows the account.
pub fn finalising_follows_the_account<F: Field>()
    ensures { FinalisingFollows F.model }
{}

// What an accepted check of a finished circuit answers names the first row in the tables that fails.
pub fn finished_checks_name_what_fails<F: Field>()
    ensures { ChecksNameRows F.model }
{}

// An accepted question of a finished circuit finds a value exactly where one is due, and the right one.
pub fn finished_questions_find_values<F: Field>()
    ensures { QuestionsFindFinished F.model }
{}

// Checks and questions of a finished circuit follow the account.
#[tactic(auto, using(crate::proofs::AccountCalls::finished_follow))]
pub fn finished_calls_follow_the_account<F: Field>()
    ensures { FinishedFollow F.model }
{}
