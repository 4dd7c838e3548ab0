#![tactic(auto)]

// A grade of wall loss that is claimed: what is right about it, the calls that it is checked by, and what their answers say of it.
ghost use Rattle.std.specs.Prelude.{◌≡◌};
ghost use Rattle.claims.specs.Grades.{windows_of, CallsLie};
ghost use Rattle.claims.specs.Verdicts.{AnswersJudge};

use field::Field;

// So many readings make a window.
const WIDTH: usize = 3;

// The readings of a wall in their order, and what a window of three sums to where the wall is whole.
#[derive(Clone, Copy)]
pub struct Wall<'a, F> {
    pub readings: &'a [F],
    pub whole: F,
}

// What is claimed of a wall: the squared loss of each window, and the grade.
#[derive(Clone, Copy)]
pub struct Claim<'a, F> {
    pub squares: &'a [F],
    pub grade: F,
}

impl<F: Field> Wall<'_, F> {
    // How many windows there are.
    pub fn windows(&self) -> usize
        ensures { result ≡ windows_of self.now }
    {
        self.readings.len().saturating_sub(WIDTH - 1)
    }
}

// Over the terms of a claim's lists, the calls that are made of them are those of the claim.
pub fn calls_lie_over_their_terms<F: Field>()
    ensures { CallsLie F.model }
{}

// The answers to the calls of a claim judge it, where none of them is refused.
pub fn answers_judge_a_claim<F: Field>()
    ensures { AnswersJudge F.model }
{}
