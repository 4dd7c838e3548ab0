#![tactic(auto)]

// Whole runs of calls, and the matrices that they write, as tests: what is due is worked out from the rules. Lists are written as N*V, with z
// for Zero, o for One, and i, w and s for instances, witnesses and symbols; cells as N@column.

#[cfg(test)]
mod tests {
    use field::Field;
    use gf8::Gf8;
    use p31::P31;
    use runs::Call::{
        AssignedValue, EnforceConstraint, Finalize, NewInputVariable, NewLc, NewWitnessVariable,
        SetMode, SetOptimizationGoal, ToMatrices, WhichIsUnsatisfied,
    };
    use runs::{
        Answer, Call, Cell, Circuit, ConstraintMatrices, Entry, LcIndex, Mark, OptimizationGoal,
        Refusal, SynthesisError, SynthesisMode, Tables, Term, Variable, run,
    };
    use std::alloc::{AllocError, Global};
    use std::fmt;
    use std::test::Fail;

    const SETUP: SynthesisMode = SynthesisMode::Setup;

    const PROVE: SynthesisMode = SynthesisMode::Prove {
        construct_matrices: true,
    };

    const BARE: SynthesisMode = SynthesisMode::Prove {
        construct_matrices: false,
    };

    const NONE: OptimizationGoal = OptimizationGoal::None;

    const CONSTRAINTS: OptimizationGoal = OptimizationGoal::Constraints;

    const WEIGHT: OptimizationGoal = OptimizationGoal::Weight;

    const Z: Variable = Variable::Zero;

    const O: Variable = Variable::One;

    const I0: Variable = Variable::Instance(0);

    const I1: Variable = Variable::Instance(1);

    const I2: Variable = Variable::Instance(2);

    const W0: Variable = Variable::Witness(0);

    const W1: Variable = Variable::Witness(1);

    const W2: Variable = Variable::Witness(2);

    const W3: Variable = Variable::Witness(3);

    const W4: Variable = Variable::Witness(4);

    const W5: Variable = Variable::Witness(5);

    const W9: Variable = Variable::Witness(9);

    const S0: Variable = Variable::SymbolicLc(LcIndex(0));

    const S1: Variable = Variable::SymbolicLc(LcIndex(1));

    const S2: Variable = Variable::SymbolicLc(LcIndex(2));

    const S3: Variable = Variable::SymbolicLc(LcIndex(3));

    const S4: Variable = Variable::SymbolicLc(LcIndex(4));

    const S7: Variable = Variable::SymbolicLc(LcIndex(7));

    const S9: Variable = Variable::SymbolicLc(LcIndex(9));

    // Samples are constants, so that little is left to prove of a test; and since a constant calls no function, what stands in them is written
    // by macros. A list over p31, and one over gf8:
    macro_rules! list {
        ($($number:literal * $variable:expr),*) => {
            &[$(Term { number: P31 { value: $number }, variable: $variable }),*]
        };
    }

    macro_rules! byte_list {
        ($($number:literal * $variable:expr),*) => {
            &[$(Term { number: Gf8 { value: $number }, variable: $variable }),*]
        };
    }

    // a question, with the places of the work table that it is lent
    macro_rules! ask {
        ($variable:expr, $work:expr) => {
            AssignedValue {
                variable: $variable,
                work: $work,
            }
        };
    }

    // a constraint of three lists
    macro_rules! enforce {
        ($a:expr, $b:expr, $c:expr) => {
            EnforceConstraint {
                a: $a,
                b: $b,
                c: $c,
            }
        };
    }

    // a value handed in
    macro_rules! value {
        ($number:expr) => {
            Ok(P31 { value: $number })
        };
    }

    // What lies in a place before a run: this value, which an answer is too, or places and counts of 77.
    const HELD: P31 = P31 { value: 77 };

    const HELD_BYTE: Gf8 = Gf8 { value: 77 };

    const HELD_ENTRY: Entry = Entry {
        mark: Mark::B,
        given_start: 77,
        given_len: 77,
        finished_start: 77,
        finished_len: 77,
    };

    // How many places are lent of each table.
    #[derive(Clone, Copy)]
    struct Places {
        terms: usize,
        index: usize,
        instances: usize,
        witnesses: usize,
        work: usize,
        cells: usize,
        ends: usize,
        answers: usize,
    }

    // What is looked at once a run is made: the circuit with its instances, witnesses, constraints and entries, or how the run is refused; and
    // each table.
    #[derive(Clone, Copy, Debug)]
    enum Part {
        Circuit,
        Answers,
        Terms,
        Index,
        Instances,
        Witnesses,
        Work,
        Cells,
        Ends,
    }

    // A run of these calls, in this order, over so many places; and what it leaves, as text.
    struct Sample<F: 'static> {
        calls: &'static [Call<'static, F>],
        places: Places,
        leaves: &'static [(Part, &'static str)],
    }

    // A sample, which is told by its place, left another text than is due.
    #[derive(Drop, Debug)]
    struct Differs {
        sample: usize,
        part: Part,
        found: String,
        due: &'static str,
    }

    // The four tables.
    #[derive(Drop)]
    struct Kept<F> {
        terms: Vec<Term<F>>,
        index: Vec<Entry>,
        instances: Vec<F>,
        witnesses: Vec<F>,
    }

    // The other tables that a run is lent.
    #[derive(Drop)]
    struct Lent<F> {
        work: Vec<Option<F>>,
        cells: Vec<Cell<F>>,
        ends: Vec<usize>,
        answers: Vec<Answer<F>>,
    }

    impl<F: Field> Kept<F> {
        fn new(heap: Global, held: F, places: Places) -> Result<Kept<F>, AllocError> {
            let held_term = Term {
                number: held,
                variable: Variable::Witness(77),
            };
            Ok(Kept {
                terms: vec![in heap; held_term; places.terms]?,
                index: vec![in heap; HELD_ENTRY; places.index]?,
                instances: vec![in heap; held; places.instances]?,
                witnesses: vec![in heap; held; places.witnesses]?,
            })
        }
    }

    impl<F: Field> Lent<F> {
        fn new(heap: Global, held: F, places: Places) -> Result<Lent<F>, AllocError> {
            let held_cell = Cell {
                number: held,
                column: 77,
            };
            Ok(Lent {
                work: vec![in heap; Some(held); places.work]?,
                cells: vec![in heap; held_cell; places.cells]?,
                ends: vec![in heap; 77usize; places.ends]?,
                answers: vec![in heap; Answer::Assigned(Some(held)); places.answers]?,
            })
        }
    }

    // Places as text.
    fn listed<T: fmt::Display>(heap: Global, places: &[T]) -> Result<String, AllocError> {
        let mut text = String::new(heap);
        for place in places {
            if !text.is_empty() {
                text.push(' ')?;
            }
            write!(text, "{place}")?;
        }
        Ok(text)
    }

    // An entry as its mark, the given start and length, and the finished ones.
    fn listed_index(heap: Global, index: &[Entry]) -> Result<String, AllocError> {
        let mut text = String::new(heap);
        for entry in index {
            if !text.is_empty() {
                text.push(' ')?;
            }
            write!(
                text,
                "{:?}:{}+{}:{}+{}",
                entry.mark,
                entry.given_start,
                entry.given_len,
                entry.finished_start,
                entry.finished_len
            )?;
        }
        Ok(text)
    }

    fn listed_work<F: fmt::Display>(
        heap: Global,
        work: &[Option<F>],
    ) -> Result<String, AllocError> {
        let mut text = String::new(heap);
        for place in work {
            if !text.is_empty() {
                text.push(' ')?;
            }
            match place {
                Some(value) => write!(text, "{value}")?,
                None => text.push_str("none")?,
            }
        }
        Ok(text)
    }

    fn listed_cells<F: fmt::Display>(
        heap: Global,
        cells: &[Cell<F>],
    ) -> Result<String, AllocError> {
        let mut text = String::new(heap);
        for cell in cells {
            if !text.is_empty() {
                text.push(' ')?;
            }
            write!(text, "{}@{}", cell.number, cell.column)?;
        }
        Ok(text)
    }

    // The number of a refusal, with list and term where it has them.
    fn refused(text: &mut String, refusal: Refusal) -> Result<(), AllocError> {
        write!(text, "refused {}", refusal.number())?;
        match refusal {
            Refusal::UnknownVariable { list, term } | Refusal::ConstraintList { list, term } => {
                write!(text, " at {list} {term}")
            }
            _ => Ok(()),
        }
    }

    // Instances, witnesses, rows, and the cells of A, B and C.
    fn written(text: &mut String, counts: ConstraintMatrices) -> Result<(), AllocError> {
        let (a, b, c) = counts.num_non_zero;
        write!(
            text,
            "wrote {} {} {} ({a} {b} {c})",
            counts.num_instance_variables, counts.num_witness_variables, counts.num_constraints
        )
    }

    fn answered<F: fmt::Display>(text: &mut String, answer: &Answer<F>) -> Result<(), AllocError> {
        match answer {
            Answer::Done => text.push_str("done"),
            Answer::Named(variable) => write!(text, "{variable}"),
            Answer::Unsatisfied(Some(row)) => write!(text, "fails {row}"),
            Answer::Unsatisfied(None) => text.push_str("holds"),
            Answer::Assigned(Some(value)) => write!(text, "is {value}"),
            Answer::Assigned(None) => text.push_str("no value"),
            Answer::Written(Some(counts)) => written(text, *counts),
            Answer::Written(None) => text.push_str("wrote none"),
            Answer::Refused(refusal) => refused(text, *refusal),
            Answer::OutOfPlace => text.push_str("out of place"),
        }
    }

    fn listed_answers<F: fmt::Display>(
        heap: Global,
        answers: &[Answer<F>],
    ) -> Result<String, AllocError> {
        let mut text = String::new(heap);
        for answer in answers {
            if !text.is_empty() {
                text.push_str(", ")?;
            }
            answered(&mut text, answer)?;
        }
        Ok(text)
    }

    fn standing(heap: Global, made: &Result<Circuit, Refusal>) -> Result<String, AllocError> {
        let mut text = String::new(heap);
        match made {
            Ok(Circuit::Open(circuit)) => write!(
                text,
                "open {} {} {} {}",
                circuit.num_instance_variables(),
                circuit.num_witness_variables(),
                circuit.num_constraints(),
                circuit.num_linear_combinations()
            )?,
            Ok(Circuit::Finished(circuit)) => write!(
                text,
                "finished {} {} {} {}",
                circuit.num_instance_variables(),
                circuit.num_witness_variables(),
                circuit.num_constraints(),
                circuit.num_linear_combinations()
            )?,
            Err(refusal) => refused(&mut text, *refusal)?,
        }
        Ok(text)
    }

    // The text of a part.
    fn told<F: Field + fmt::Display>(
        heap: Global,
        part: Part,
        circuit: &Result<Circuit, Refusal>,
        kept: &Kept<F>,
        lent: &Lent<F>,
    ) -> Result<String, AllocError> {
        match part {
            Part::Circuit => standing(heap, circuit),
            Part::Answers => listed_answers(heap, lent.answers.as_slice()),
            Part::Terms => listed(heap, kept.terms.as_slice()),
            Part::Index => listed_index(heap, kept.index.as_slice()),
            Part::Instances => listed(heap, kept.instances.as_slice()),
            Part::Witnesses => listed(heap, kept.witnesses.as_slice()),
            Part::Work => listed_work(heap, lent.work.as_slice()),
            Part::Cells => listed_cells(heap, lent.cells.as_slice()),
            Part::Ends => listed(heap, lent.ends.as_slice()),
        }
    }

    // Makes a run of these calls.
    fn made<F: Field>(
        calls: &[Call<'_, F>],
        kept: &mut Kept<F>,
        lent: &mut Lent<F>,
    ) -> Result<Circuit, Refusal> {
        let mut tables = Tables {
            terms: kept.terms.as_mut_slice(),
            index: kept.index.as_mut_slice(),
            instances: kept.instances.as_mut_slice(),
            witnesses: kept.witnesses.as_mut_slice(),
        };
        run(
            calls,
            &mut tables,
            lent.work.as_mut_slice(),
            lent.cells.as_mut_slice(),
            lent.ends.as_mut_slice(),
            lent.answers.as_mut_slice(),
        )
    }

    // Makes the run of a sample, and looks at what it leaves.
    fn as_due<F: Field + fmt::Display>(
        heap: Global,
        held: F,
        at: usize,
        sample: &Sample<F>,
    ) -> Result<(), Fail> {
        let mut kept = Kept::new(heap, held, sample.places)?;
        let mut lent = Lent::new(heap, held, sample.places)?;
        let circuit = made(sample.calls, &mut kept, &mut lent);
        for (part, due) in sample.leaves {
            let found = told(heap, *part, &circuit, &kept, &lent)?;
            if found.as_str() != *due {
                Err(Differs {
                    sample: at,
                    part: *part,
                    found,
                    due: *due,
                })?;
            }
        }
        Ok(())
    }

    // Each of these samples leaves what is due.
    fn all_as_due<F: Field + fmt::Display>(
        heap: Global,
        held: F,
        samples: &[Sample<F>],
    ) -> Result<(), Fail> {
        for (at, sample) in samples.iter().enumerate() {
            as_due(heap, held, at, sample)?;
        }
        Ok(())
    }

    // The places that the worked circuit takes under Weight, and those that its matrices take, and no more.
    const WORKED_PLACES: Places = Places {
        terms: 14,
        index: 7,
        instances: 2,
        witnesses: 3,
        work: 4,
        cells: 8,
        ends: 6,
        answers: 11,
    };

    // Mode and goal, the worked circuit, and further calls. Instance 1 is 64, witnesses 0 and 1 are 3 and 4; s0 is `1*w0 1*w1 1*o`; `1*s0` times
    // `1*s0` is `1*i1`: 8 times 8 is 64.
    macro_rules! worked {
        ($mode:expr, $goal:expr, $($then:expr),*) => {
            &[
                SetMode($mode),
                SetOptimizationGoal($goal),
                NewInputVariable(value!(64)),
                NewWitnessVariable(value!(3)),
                NewWitnessVariable(value!(4)),
                NewLc(list![1 * W0, 1 * W1, 1 * O]),
                enforce!(list![1 * S0], list![1 * S0], list![1 * I1]),
                $($then),*
            ]
        };
    }

    // The worked circuit, checked before it is finalised and after, and written.
    macro_rules! checked_and_written {
        ($mode:expr, $goal:expr) => {
            worked!(
                $mode,
                $goal,
                WhichIsUnsatisfied { work: 4 },
                Finalize,
                WhichIsUnsatisfied { work: 0 },
                ToMatrices { cells: 8, ends: 6 }
            )
        };
    }

    // Row 0 is `1*w2` times itself, and row 1 says what w2 stands for.
    #[test]
    fn worked_circuit(rt: HostRuntime) -> Result<(), Fail> {
        const SAMPLES: &[Sample<P31>] = &[Sample {
            calls: checked_and_written!(PROVE, WEIGHT),
            places: WORKED_PLACES,
            leaves: &[
                (Part::Circuit, "finished 2 3 2 7"),
                (
                    Part::Answers,
                    "done, done, i1, w0, w1, s0, done, holds, done, holds, wrote 2 3 2 (4 2 2)",
                ),
                (Part::Cells, "1@4 1@0 1@2 1@3 1@4 1@0 1@1 1@4"),
                (Part::Ends, "1 4 5 6 7 8"),
                (
                    Part::Terms,
                    "1*w0 1*w1 1*o 1*s0 1*s0 1*i1 1*o 1*w0 1*w1 1*o 1*w2 1*w2 1*w2 1*i1",
                ),
                (
                    Part::Index,
                    "Plain:0+3:10+1 A:3+1:11+1 B:4+1:12+1 C:5+1:13+1 A:6+3:6+3 B:9+1:9+1 C:10+1:10+1",
                ),
                (Part::Instances, "1 64"),
                (Part::Witnesses, "3 4 8"),
                (Part::Work, "8 8 8 64"),
            ],
        }];
        all_as_due(rt.alloc(), HELD, SAMPLES)
    }

    // Under the goals None and Constraints s0 is written out into the one row, which takes 16 term places. What Setup writes is what Prove
    // writes; in bare mode nothing is written.
    #[test]
    fn modes_and_goals(rt: HostRuntime) -> Result<(), Fail> {
        const PLACES: Places = Places {
            terms: 16,
            ..WORKED_PLACES
        };
        const SETUP_WRITTEN_OUT: &[(Part, &str)] = &[
            (Part::Circuit, "finished 2 2 1 4"),
            (
                Part::Answers,
                "done, done, i1, w0, w1, s0, done, refused 2, done, refused 2, wrote 2 2 1 (3 3 1)",
            ),
            (Part::Cells, "1@0 1@2 1@3 1@0 1@2 1@3 1@1 77@77"),
            (Part::Ends, "3 6 7 77 77 77"),
        ];
        const SETUP_OUTLINED: &[(Part, &str)] = &[
            (Part::Circuit, "finished 2 3 2 7"),
            (
                Part::Answers,
                "done, done, i1, w0, w1, s0, done, refused 2, done, refused 2, wrote 2 3 2 (4 2 2)",
            ),
            (Part::Cells, "1@4 1@0 1@2 1@3 1@4 1@0 1@1 1@4"),
            (Part::Ends, "1 4 5 6 7 8"),
        ];
        const WRITTEN_OUT: &[(Part, &str)] = &[
            (Part::Circuit, "finished 2 2 1 4"),
            (
                Part::Answers,
                "done, done, i1, w0, w1, s0, done, holds, done, holds, wrote 2 2 1 (3 3 1)",
            ),
            (Part::Cells, "1@0 1@2 1@3 1@0 1@2 1@3 1@1 77@77"),
            (Part::Ends, "3 6 7 77 77 77"),
        ];
        const OUTLINED: &[(Part, &str)] = &[
            (Part::Circuit, "finished 2 3 2 7"),
            (
                Part::Answers,
                "done, done, i1, w0, w1, s0, done, holds, done, holds, wrote 2 3 2 (4 2 2)",
            ),
            (Part::Cells, "1@4 1@0 1@2 1@3 1@4 1@0 1@1 1@4"),
            (Part::Ends, "1 4 5 6 7 8"),
        ];
        const NOT_KEPT: &[(Part, &str)] = &[
            (Part::Circuit, "finished 2 2 1 1"),
            (
                Part::Answers,
                "done, done, i1, w0, w1, s0, done, refused 18, done, refused 18, wrote none",
            ),
            (
                Part::Cells,
                "77@77 77@77 77@77 77@77 77@77 77@77 77@77 77@77",
            ),
            (Part::Ends, "77 77 77 77 77 77"),
        ];
        const SAMPLES: &[Sample<P31>] = &[
            Sample {
                calls: checked_and_written!(SETUP, NONE),
                places: PLACES,
                leaves: SETUP_WRITTEN_OUT,
            },
            Sample {
                calls: checked_and_written!(SETUP, CONSTRAINTS),
                places: PLACES,
                leaves: SETUP_WRITTEN_OUT,
            },
            Sample {
                calls: checked_and_written!(SETUP, WEIGHT),
                places: PLACES,
                leaves: SETUP_OUTLINED,
            },
            Sample {
                calls: checked_and_written!(PROVE, NONE),
                places: PLACES,
                leaves: WRITTEN_OUT,
            },
            Sample {
                calls: checked_and_written!(PROVE, CONSTRAINTS),
                places: PLACES,
                leaves: WRITTEN_OUT,
            },
            Sample {
                calls: checked_and_written!(PROVE, WEIGHT),
                places: PLACES,
                leaves: OUTLINED,
            },
            Sample {
                calls: checked_and_written!(BARE, NONE),
                places: PLACES,
                leaves: NOT_KEPT,
            },
            Sample {
                calls: checked_and_written!(BARE, CONSTRAINTS),
                places: PLACES,
                leaves: NOT_KEPT,
            },
            Sample {
                calls: checked_and_written!(BARE, WEIGHT),
                places: PLACES,
                leaves: NOT_KEPT,
            },
        ];
        all_as_due(rt.alloc(), HELD, SAMPLES)
    }

    // The worked circuit takes 8 cells and 6 row ends. A writing that is refused writes nothing; one that says more places than there are is lent
    // all of them; and places past those that are written stay.
    #[test]
    fn places_for_writing(rt: HostRuntime) -> Result<(), Fail> {
        const NO_PLACES: Call<'static, P31> = ToMatrices { cells: 0, ends: 0 };
        const FEW_CELLS: Call<'static, P31> = ToMatrices { cells: 7, ends: 6 };
        const FEW_ENDS: Call<'static, P31> = ToMatrices { cells: 8, ends: 5 };
        const ENOUGH: Call<'static, P31> = ToMatrices { cells: 8, ends: 6 };
        const ONE_MORE: Call<'static, P31> = ToMatrices { cells: 9, ends: 7 };
        const MANY: Call<'static, P31> = ToMatrices {
            cells: 100,
            ends: 100,
        };
        const SAMPLES: &[Sample<P31>] = &[
            Sample {
                calls: worked!(PROVE, WEIGHT, Finalize, ENOUGH, MANY),
                places: Places {
                    cells: 7,
                    answers: 10,
                    ..WORKED_PLACES
                },
                leaves: &[
                    (
                        Part::Answers,
                        "done, done, i1, w0, w1, s0, done, done, refused 19, refused 19",
                    ),
                    (Part::Cells, "77@77 77@77 77@77 77@77 77@77 77@77 77@77"),
                    (Part::Ends, "77 77 77 77 77 77"),
                ],
            },
            Sample {
                calls: worked!(PROVE, WEIGHT, Finalize, ENOUGH, MANY),
                places: Places {
                    ends: 5,
                    answers: 10,
                    ..WORKED_PLACES
                },
                leaves: &[
                    (
                        Part::Answers,
                        "done, done, i1, w0, w1, s0, done, done, refused 19, refused 19",
                    ),
                    (
                        Part::Cells,
                        "77@77 77@77 77@77 77@77 77@77 77@77 77@77 77@77",
                    ),
                    (Part::Ends, "77 77 77 77 77"),
                ],
            },
            Sample {
                calls: worked!(PROVE, WEIGHT, Finalize, FEW_CELLS, FEW_ENDS, NO_PLACES),
                places: WORKED_PLACES,
                leaves: &[
                    (
                        Part::Answers,
                        "done, done, i1, w0, w1, s0, done, done, refused 19, refused 19, refused 19",
                    ),
                    (
                        Part::Cells,
                        "77@77 77@77 77@77 77@77 77@77 77@77 77@77 77@77",
                    ),
                    (Part::Ends, "77 77 77 77 77 77"),
                ],
            },
            Sample {
                calls: worked!(PROVE, WEIGHT, Finalize, FEW_CELLS, FEW_ENDS, ENOUGH),
                places: WORKED_PLACES,
                leaves: &[
                    (
                        Part::Answers,
                        "done, done, i1, w0, w1, s0, done, done, refused 19, refused 19, wrote 2 3 2 (4 2 2)",
                    ),
                    (Part::Cells, "1@4 1@0 1@2 1@3 1@4 1@0 1@1 1@4"),
                    (Part::Ends, "1 4 5 6 7 8"),
                ],
            },
            Sample {
                calls: worked!(PROVE, WEIGHT, Finalize, ENOUGH, ONE_MORE),
                places: Places {
                    cells: 10,
                    ends: 8,
                    answers: 10,
                    ..WORKED_PLACES
                },
                leaves: &[
                    (
                        Part::Answers,
                        "done, done, i1, w0, w1, s0, done, done, wrote 2 3 2 (4 2 2), wrote 2 3 2 (4 2 2)",
                    ),
                    (Part::Cells, "1@4 1@0 1@2 1@3 1@4 1@0 1@1 1@4 77@77 77@77"),
                    (Part::Ends, "1 4 5 6 7 8 77 77"),
                ],
            },
            Sample {
                calls: worked!(PROVE, WEIGHT, Finalize, MANY, FEW_CELLS),
                places: Places {
                    cells: 9,
                    ends: 7,
                    answers: 10,
                    ..WORKED_PLACES
                },
                leaves: &[
                    (
                        Part::Answers,
                        "done, done, i1, w0, w1, s0, done, done, wrote 2 3 2 (4 2 2), refused 19",
                    ),
                    (Part::Cells, "1@4 1@0 1@2 1@3 1@4 1@0 1@1 1@4 77@77"),
                    (Part::Ends, "1 4 5 6 7 8 77"),
                ],
            },
        ];
        all_as_due(rt.alloc(), HELD, SAMPLES)
    }

    // With one place fewer finalising is refused, and the run goes on with the circuit open.
    #[test]
    fn places_for_finalising(rt: HostRuntime) -> Result<(), Fail> {
        const CALLS: &[Call<'static, P31>] = worked!(
            PROVE,
            WEIGHT,
            Finalize,
            WhichIsUnsatisfied { work: 4 },
            ToMatrices { cells: 8, ends: 6 },
            Finalize
        );
        const SAMPLES: &[Sample<P31>] = &[
            Sample {
                calls: CALLS,
                places: Places {
                    terms: 13,
                    ..WORKED_PLACES
                },
                leaves: &[
                    (Part::Circuit, "open 2 2 1 4"),
                    (
                        Part::Answers,
                        "done, done, i1, w0, w1, s0, done, refused 14, holds, out of place, refused 14",
                    ),
                    (Part::Instances, "1 64"),
                ],
            },
            Sample {
                calls: CALLS,
                places: Places {
                    index: 6,
                    ..WORKED_PLACES
                },
                leaves: &[
                    (Part::Circuit, "open 2 2 1 4"),
                    (
                        Part::Answers,
                        "done, done, i1, w0, w1, s0, done, refused 13, holds, out of place, refused 13",
                    ),
                    (Part::Instances, "1 64"),
                ],
            },
            Sample {
                calls: CALLS,
                places: Places {
                    witnesses: 2,
                    ..WORKED_PLACES
                },
                leaves: &[
                    (Part::Circuit, "open 2 2 1 4"),
                    (
                        Part::Answers,
                        "done, done, i1, w0, w1, s0, done, refused 12, holds, out of place, refused 12",
                    ),
                    (Part::Witnesses, "3 4"),
                ],
            },
        ];
        all_as_due(rt.alloc(), HELD, SAMPLES)
    }

    // Calls that could not be written in the state that the circuit is in do nothing, and those after them are made.
    #[test]
    fn calls_out_of_place(rt: HostRuntime) -> Result<(), Fail> {
        const SAMPLES: &[Sample<P31>] = &[Sample {
            calls: worked!(
                PROVE,
                WEIGHT,
                ToMatrices { cells: 8, ends: 6 },
                Finalize,
                SetMode(BARE),
                SetOptimizationGoal(NONE),
                NewInputVariable(value!(1)),
                NewWitnessVariable(Err(SynthesisError::MissingCS)),
                NewLc(list![1 * S9]),
                enforce!(list![1 * O], list![1 * O], list![]),
                Finalize,
                WhichIsUnsatisfied { work: 4 },
                ask!(W2, 4),
                ToMatrices { cells: 8, ends: 6 }
            ),
            places: Places {
                answers: 19,
                ..WORKED_PLACES
            },
            leaves: &[
                (Part::Circuit, "finished 2 3 2 7"),
                (
                    Part::Answers,
                    "done, done, i1, w0, w1, s0, done, out of place, done, out of place, out of place, out of place, out of place, \
                     out of place, out of place, out of place, holds, is 8, wrote 2 3 2 (4 2 2)",
                ),
                (Part::Cells, "1@4 1@0 1@2 1@3 1@4 1@0 1@1 1@4"),
                (Part::Ends, "1 4 5 6 7 8"),
                (
                    Part::Terms,
                    "1*w0 1*w1 1*o 1*s0 1*s0 1*i1 1*o 1*w0 1*w1 1*o 1*w2 1*w2 1*w2 1*i1",
                ),
                (
                    Part::Index,
                    "Plain:0+3:10+1 A:3+1:11+1 B:4+1:12+1 C:5+1:13+1 A:6+3:6+3 B:9+1:9+1 C:10+1:10+1",
                ),
                (Part::Instances, "1 64"),
                (Part::Witnesses, "3 4 8"),
                (Part::Work, "77 77 77 77"),
            ],
        }];
        all_as_due(rt.alloc(), HELD, SAMPLES)
    }

    // A combination has a value while the circuit is open, where the work table is long enough, and an added witness once it is finished; a
    // constraint's own list never has one.
    #[test]
    fn questions(rt: HostRuntime) -> Result<(), Fail> {
        const SAMPLES: &[Sample<P31>] = &[Sample {
            calls: worked!(
                PROVE,
                WEIGHT,
                ask!(S0, 3),
                ask!(S0, 4),
                ask!(S1, 0),
                ask!(S4, 0),
                ask!(I1, 0),
                ask!(W2, 0),
                Finalize,
                ask!(S0, 4),
                ask!(S1, 4),
                ask!(I0, 0),
                ask!(I1, 0),
                ask!(I2, 0),
                ask!(W1, 0),
                ask!(W2, 0),
                ask!(W3, 0),
                ask!(Z, 0),
                ask!(O, 0)
            ),
            places: Places {
                answers: 24,
                ..WORKED_PLACES
            },
            leaves: &[
                (
                    Part::Answers,
                    "done, done, i1, w0, w1, s0, done, refused 19, is 8, no value, no value, is 64, no value, \
                     done, no value, no value, is 1, is 64, no value, is 4, is 8, no value, is 0, is 1",
                ),
                (Part::Work, "8 8 8 64"),
            ],
        }];
        all_as_due(rt.alloc(), HELD, SAMPLES)
    }

    // Places past those in use stay while the circuit is open, and in bare mode once it is finished; in Setup the values do. So do the answers
    // past those of the calls.
    #[test]
    fn free_places(rt: HostRuntime) -> Result<(), Fail> {
        const SAMPLES: &[Sample<P31>] = &[
            Sample {
                calls: worked!(PROVE, WEIGHT, WhichIsUnsatisfied { work: 9 }),
                places: Places {
                    terms: 8,
                    index: 5,
                    instances: 3,
                    work: 5,
                    answers: 9,
                    ..WORKED_PLACES
                },
                leaves: &[
                    (
                        Part::Answers,
                        "done, done, i1, w0, w1, s0, done, holds, is 77",
                    ),
                    (Part::Terms, "1*w0 1*w1 1*o 1*s0 1*s0 1*i1 77*w77 77*w77"),
                    (
                        Part::Index,
                        "Plain:0+3:0+0 A:3+1:0+0 B:4+1:0+0 C:5+1:0+0 B:77+77:77+77",
                    ),
                    (Part::Instances, "1 64 77"),
                    (Part::Witnesses, "3 4 77"),
                    (Part::Work, "8 8 8 64 77"),
                ],
            },
            Sample {
                calls: worked!(BARE, WEIGHT, Finalize),
                places: Places {
                    terms: 5,
                    index: 2,
                    instances: 3,
                    answers: 9,
                    ..WORKED_PLACES
                },
                leaves: &[
                    (
                        Part::Answers,
                        "done, done, i1, w0, w1, s0, done, done, is 77",
                    ),
                    (Part::Terms, "1*w0 1*w1 1*o 77*w77 77*w77"),
                    (Part::Index, "Plain:0+3:0+0 B:77+77:77+77"),
                    (Part::Instances, "1 64 77"),
                    (Part::Witnesses, "3 4 77"),
                    (Part::Work, "77 77 77 77"),
                ],
            },
            Sample {
                calls: worked!(SETUP, WEIGHT, Finalize),
                places: Places {
                    instances: 3,
                    answers: 9,
                    ..WORKED_PLACES
                },
                leaves: &[
                    (
                        Part::Answers,
                        "done, done, i1, w0, w1, s0, done, done, is 77",
                    ),
                    (
                        Part::Terms,
                        "1*w0 1*w1 1*o 1*s0 1*s0 1*i1 1*o 1*w0 1*w1 1*o 1*w2 1*w2 1*w2 1*i1",
                    ),
                    (Part::Instances, "1 77 77"),
                    (Part::Witnesses, "77 77 77"),
                    (Part::Work, "77 77 77 77"),
                ],
            },
        ];
        all_as_due(rt.alloc(), HELD, SAMPLES)
    }

    // One place in each table.
    const SINGLE_PLACES: Places = Places {
        terms: 1,
        index: 1,
        instances: 1,
        witnesses: 1,
        work: 1,
        cells: 1,
        ends: 1,
        answers: 1,
    };

    // Without calls a circuit is opened, which takes the first instance place. A run with too few places for its answers is refused before one
    // without an instance place, and either leaves every place as it was.
    #[test]
    fn opening(rt: HostRuntime) -> Result<(), Fail> {
        const CALLS: &[Call<'static, P31>] = &[NewWitnessVariable(value!(1)), Finalize];
        const SAMPLES: &[Sample<P31>] = &[
            Sample {
                calls: &[],
                places: Places {
                    instances: 2,
                    ..SINGLE_PLACES
                },
                leaves: &[
                    (Part::Circuit, "open 1 0 0 0"),
                    (Part::Answers, "is 77"),
                    (Part::Terms, "77*w77"),
                    (Part::Index, "B:77+77:77+77"),
                    (Part::Instances, "1 77"),
                    (Part::Witnesses, "77"),
                    (Part::Work, "77"),
                    (Part::Cells, "77@77"),
                    (Part::Ends, "77"),
                ],
            },
            Sample {
                calls: CALLS,
                places: Places {
                    instances: 0,
                    ..SINGLE_PLACES
                },
                leaves: &[
                    (Part::Circuit, "refused 19"),
                    (Part::Answers, "is 77"),
                    (Part::Terms, "77*w77"),
                    (Part::Index, "B:77+77:77+77"),
                    (Part::Instances, ""),
                    (Part::Witnesses, "77"),
                    (Part::Work, "77"),
                    (Part::Cells, "77@77"),
                    (Part::Ends, "77"),
                ],
            },
            Sample {
                calls: CALLS,
                places: SINGLE_PLACES,
                leaves: &[
                    (Part::Circuit, "refused 19"),
                    (Part::Answers, "is 77"),
                    (Part::Instances, "77"),
                    (Part::Witnesses, "77"),
                ],
            },
            Sample {
                calls: CALLS,
                places: Places {
                    instances: 0,
                    answers: 2,
                    ..SINGLE_PLACES
                },
                leaves: &[
                    (Part::Circuit, "refused 11"),
                    (Part::Answers, "is 77, is 77"),
                    (Part::Terms, "77*w77"),
                    (Part::Index, "B:77+77:77+77"),
                    (Part::Instances, ""),
                    (Part::Witnesses, "77"),
                    (Part::Work, "77"),
                    (Part::Cells, "77@77"),
                    (Part::Ends, "77"),
                ],
            },
            Sample {
                calls: &[],
                places: Places {
                    instances: 0,
                    answers: 0,
                    ..SINGLE_PLACES
                },
                leaves: &[(Part::Circuit, "refused 11"), (Part::Answers, "")],
            },
        ];
        all_as_due(rt.alloc(), HELD, SAMPLES)
    }

    // A circuit without lists has no rows.
    #[test]
    fn empty_circuit(rt: HostRuntime) -> Result<(), Fail> {
        macro_rules! without_lists {
            ($mode:expr) => {
                &[
                    SetMode($mode),
                    WhichIsUnsatisfied { work: 0 },
                    Finalize,
                    WhichIsUnsatisfied { work: 0 },
                    ToMatrices { cells: 0, ends: 0 },
                ]
            };
        }
        const PLACES: Places = Places {
            answers: 5,
            ..SINGLE_PLACES
        };
        const SAMPLES: &[Sample<P31>] = &[
            Sample {
                calls: without_lists!(SETUP),
                places: PLACES,
                leaves: &[
                    (Part::Circuit, "finished 1 0 0 0"),
                    (
                        Part::Answers,
                        "done, refused 2, done, refused 2, wrote 1 0 0 (0 0 0)",
                    ),
                    (Part::Cells, "77@77"),
                    (Part::Ends, "77"),
                ],
            },
            Sample {
                calls: without_lists!(PROVE),
                places: PLACES,
                leaves: &[
                    (Part::Circuit, "finished 1 0 0 0"),
                    (
                        Part::Answers,
                        "done, holds, done, holds, wrote 1 0 0 (0 0 0)",
                    ),
                    (Part::Cells, "77@77"),
                    (Part::Ends, "77"),
                ],
            },
            Sample {
                calls: without_lists!(BARE),
                places: PLACES,
                leaves: &[
                    (Part::Circuit, "finished 1 0 0 0"),
                    (Part::Answers, "done, holds, done, holds, wrote none"),
                    (Part::Cells, "77@77"),
                    (Part::Ends, "77"),
                ],
            },
        ];
        all_as_due(rt.alloc(), HELD, SAMPLES)
    }

    // Every place of the tables is used: the row's lists are the last entries, and it names the last instance and the last witness. 2 × 3 times
    // 3 × 7 is 4 × 3 + 57 × 2.
    #[test]
    fn last_places(rt: HostRuntime) -> Result<(), Fail> {
        const SAMPLES: &[Sample<P31>] = &[Sample {
            calls: &[
                NewInputVariable(value!(5)),
                NewInputVariable(value!(7)),
                NewWitnessVariable(value!(2)),
                NewWitnessVariable(value!(4)),
                NewWitnessVariable(value!(3)),
                NewLc(list![1 * W0]),
                enforce!(list![2 * W2], list![3 * I2], list![4 * W2, 57 * S0]),
                WhichIsUnsatisfied { work: 4 },
                Finalize,
                WhichIsUnsatisfied { work: 0 },
                ask!(W2, 0),
                ask!(I2, 0),
                ToMatrices { cells: 4, ends: 3 },
            ],
            places: Places {
                terms: 10,
                index: 4,
                instances: 3,
                witnesses: 3,
                work: 4,
                cells: 4,
                ends: 3,
                answers: 13,
            },
            leaves: &[
                (Part::Circuit, "finished 3 3 1 4"),
                (
                    Part::Answers,
                    "i1, i2, w0, w1, w2, s0, done, holds, done, holds, is 3, is 7, wrote 3 3 1 (1 1 2)",
                ),
                (Part::Cells, "2@5 3@2 57@3 4@5"),
                (Part::Ends, "1 2 4"),
                (
                    Part::Terms,
                    "1*w0 2*w2 3*i2 4*w2 57*s0 1*w0 2*w2 3*i2 57*w0 4*w2",
                ),
                (Part::Index, "Plain:0+1:5+1 A:1+1:6+1 B:2+1:7+1 C:3+2:8+2"),
                (Part::Instances, "1 5 7"),
                (Part::Witnesses, "2 4 3"),
                (Part::Work, "2 6 21 126"),
            ],
        }];
        all_as_due(rt.alloc(), HELD, SAMPLES)
    }

    // Places enough in the four tables for each of the runs below.
    const ROOMY_PLACES: Places = Places {
        terms: 60,
        index: 20,
        instances: 4,
        witnesses: 8,
        work: 8,
        cells: 8,
        ends: 6,
        answers: 10,
    };

    // Over p31 2147483647 stands for 0. There is no cell of a number that stands for zero, nor of Zero: A and C of row 0 are empty. In A of row 1
    // there are two cells in column 0. A number that is copied stays as it is: 4294967295 stands for 1.
    #[test]
    fn cells_that_are_kept(rt: HostRuntime) -> Result<(), Fail> {
        const SAMPLES: &[Sample<P31>] = &[Sample {
            calls: &[
                NewInputVariable(value!(0)),
                NewWitnessVariable(value!(4294967295)),
                NewWitnessVariable(value!(2)),
                enforce!(list![2 * W0, 2147483645 * W0], list![3 * Z, 1 * O], list![]),
                enforce!(
                    list![1 * O, 1 * I0],
                    list![2147483647 * W0, 4294967295 * I1],
                    list![0 * O, 5 * Z, 7 * W1, 2147483647 * I1]
                ),
                ask!(W0, 0),
                WhichIsUnsatisfied { work: 6 },
                Finalize,
                WhichIsUnsatisfied { work: 0 },
                ToMatrices { cells: 5, ends: 6 },
            ],
            places: ROOMY_PLACES,
            leaves: &[
                (Part::Circuit, "finished 2 2 2 6"),
                (
                    Part::Answers,
                    "i1, w0, w1, done, done, is 4294967295, fails 1, done, fails 1, wrote 2 2 2 (2 2 1)",
                ),
                (
                    Part::Cells,
                    "1@0 1@0 1@0 4294967295@1 7@3 77@77 77@77 77@77",
                ),
                (Part::Ends, "0 2 3 4 4 5"),
                (Part::Work, "0 1 0 2 0 14 77 77"),
            ],
        }];
        all_as_due(rt.alloc(), HELD, SAMPLES)
    }

    // A symbol gives way to its list times the number of its term: s0 is `2*w0 3*o`, and s1 is `15*o 11*w0`.
    #[test]
    fn symbols_give_way(rt: HostRuntime) -> Result<(), Fail> {
        const SAMPLES: &[Sample<P31>] = &[Sample {
            calls: &[
                NewWitnessVariable(value!(1)),
                NewLc(list![2 * W0, 3 * O]),
                NewLc(list![5 * S0, 1 * W0]),
                enforce!(
                    list![1 * S1],
                    list![7 * S1, 11 * S0],
                    list![2147483646 * S0, 2 * W0]
                ),
                Finalize,
                ToMatrices { cells: 5, ends: 3 },
            ],
            places: Places {
                cells: 5,
                ends: 3,
                answers: 6,
                ..ROOMY_PLACES
            },
            leaves: &[
                (Part::Circuit, "finished 1 1 1 5"),
                (Part::Answers, "w0, s0, s1, done, done, wrote 1 1 1 (2 2 1)"),
                (Part::Cells, "15@0 11@1 138@0 99@1 2147483644@0"),
                (Part::Ends, "2 4 5"),
            ],
        }];
        all_as_due(rt.alloc(), HELD, SAMPLES)
    }

    // Over gf8 87 × 131 is 193, 87 × 19 is 254, 19 × 131 is 118, 19 × 19 is 30, 87 × 87 is 165, and `87*w0 87*w0` is `0*w0`.
    #[test]
    fn bytes_give_way(rt: HostRuntime) -> Result<(), Fail> {
        const SAMPLES: &[Sample<Gf8>] = &[Sample {
            calls: &[
                NewWitnessVariable(Ok(Gf8 { value: 1 })),
                NewLc(byte_list![87 * W0, 19 * O]),
                enforce!(
                    byte_list![131 * S0],
                    byte_list![19 * S0],
                    byte_list![87 * W0, 119 * O, 87 * W0]
                ),
                enforce!(
                    byte_list![131 * S0],
                    byte_list![87 * O],
                    byte_list![87 * S0, 1 * Z]
                ),
                WhichIsUnsatisfied { work: 7 },
                Finalize,
                WhichIsUnsatisfied { work: 0 },
                ToMatrices { cells: 10, ends: 6 },
            ],
            places: Places {
                cells: 10,
                answers: 8,
                ..ROOMY_PLACES
            },
            leaves: &[
                (Part::Circuit, "finished 1 1 2 7"),
                (
                    Part::Answers,
                    "w0, s0, done, done, fails 1, done, fails 1, wrote 1 1 2 (4 3 3)",
                ),
                (
                    Part::Cells,
                    "118@0 193@1 118@0 193@1 30@0 254@1 87@0 119@0 254@0 165@1",
                ),
                (Part::Ends, "2 4 6 7 8 10"),
                (Part::Work, "68 183 224 119 183 87 91 77"),
            ],
        }];
        all_as_due(rt.alloc(), HELD_BYTE, SAMPLES)
    }

    // The rows of the constraints come first, and then the added ones: s0 is outlined as w4, and s4, which names it, as w5. They are worth 18 and
    // 49, and the constraint on s4 asks for 48.
    #[test]
    fn rows_in_order(rt: HostRuntime) -> Result<(), Fail> {
        const SAMPLES: &[Sample<P31>] = &[Sample {
            calls: &[
                SetOptimizationGoal(WEIGHT),
                NewWitnessVariable(value!(2)),
                NewWitnessVariable(value!(3)),
                NewWitnessVariable(value!(5)),
                NewWitnessVariable(value!(7)),
                NewLc(list![1 * W0, 1 * W1, 1 * W2, 1 * W3, 1 * O]),
                enforce!(list![1 * S0], list![1 * O], list![18 * O]),
                NewLc(list![2 * S0, 1 * W0, 1 * W1, 1 * W2, 3 * O]),
                enforce!(list![1 * S4], list![1 * O], list![48 * O]),
                WhichIsUnsatisfied { work: 8 },
                Finalize,
                ask!(W4, 0),
                ask!(W5, 0),
                WhichIsUnsatisfied { work: 0 },
                ToMatrices {
                    cells: 20,
                    ends: 12,
                },
            ],
            places: Places {
                cells: 20,
                ends: 12,
                answers: 15,
                ..ROOMY_PLACES
            },
            leaves: &[
                (Part::Circuit, "finished 1 6 4 14"),
                (
                    Part::Answers,
                    "done, w0, w1, w2, w3, s0, done, s4, done, fails 1, done, is 18, is 49, fails 1, wrote 1 6 4 (12 4 4)",
                ),
                (
                    Part::Cells,
                    "1@5 1@6 1@0 1@1 1@2 1@3 1@4 3@0 1@1 1@2 1@3 2@5 1@0 1@0 1@0 1@0 18@0 48@0 1@5 1@6",
                ),
                (Part::Ends, "1 2 7 12 13 14 15 16 17 18 19 20"),
                (Part::Work, "18 18 1 18 49 49 1 48"),
            ],
        }];
        all_as_due(rt.alloc(), HELD, SAMPLES)
    }

    // The finished check names the constraint that the open one named. Constraint j holds where witness j is 1: s0, which is outlined, is
    // `1*w0 1*o 0*w1 0*w2 3*z`, and s7 is `1*w2`.
    #[test]
    fn checks_agree(rt: HostRuntime) -> Result<(), Fail> {
        macro_rules! checked {
            ($first:expr, $second:expr, $third:expr) => {
                &[
                    SetOptimizationGoal(WEIGHT),
                    NewWitnessVariable(value!($first)),
                    NewWitnessVariable(value!($second)),
                    NewWitnessVariable(value!($third)),
                    NewLc(list![1 * W0, 1 * O, 0 * W1, 0 * W2, 3 * Z]),
                    enforce!(list![1 * S0], list![1 * O], list![2 * O]),
                    enforce!(list![1 * W1], list![1 * O], list![1 * O]),
                    NewLc(list![1 * W2]),
                    enforce!(list![1 * S7], list![1 * O], list![1 * O]),
                    WhichIsUnsatisfied { work: 11 },
                    Finalize,
                    WhichIsUnsatisfied { work: 0 },
                ]
            };
        }
        const PLACES: Places = Places {
            work: 11,
            answers: 12,
            ..ROOMY_PLACES
        };
        const HOLDS: &[(Part, &str)] = &[(
            Part::Answers,
            "done, w0, w1, w2, s0, done, done, s7, done, holds, done, holds",
        )];
        const FIRST_FAILS: &[(Part, &str)] = &[(
            Part::Answers,
            "done, w0, w1, w2, s0, done, done, s7, done, fails 0, done, fails 0",
        )];
        const SECOND_FAILS: &[(Part, &str)] = &[(
            Part::Answers,
            "done, w0, w1, w2, s0, done, done, s7, done, fails 1, done, fails 1",
        )];
        const THIRD_FAILS: &[(Part, &str)] = &[(
            Part::Answers,
            "done, w0, w1, w2, s0, done, done, s7, done, fails 2, done, fails 2",
        )];
        const SAMPLES: &[Sample<P31>] = &[
            Sample {
                calls: checked!(1, 1, 1),
                places: PLACES,
                leaves: HOLDS,
            },
            Sample {
                calls: checked!(2, 1, 2),
                places: PLACES,
                leaves: FIRST_FAILS,
            },
            Sample {
                calls: checked!(1, 2, 2),
                places: PLACES,
                leaves: SECOND_FAILS,
            },
            Sample {
                calls: checked!(1, 1, 2),
                places: PLACES,
                leaves: THIRD_FAILS,
            },
            // these stand for 1, 1 and 0
            Sample {
                calls: checked!(2147483648, 4294967295, 2147483647),
                places: PLACES,
                leaves: THIRD_FAILS,
            },
        ];
        all_as_due(rt.alloc(), HELD, SAMPLES)
    }

    // In Setup a witness needs no value, nor a place. A check is refused, whatever it is lent; s1, which rests on One and Instance(0), has a
    // value.
    #[test]
    fn nothing_kept_in_setup(rt: HostRuntime) -> Result<(), Fail> {
        const SAMPLES: &[Sample<P31>] = &[Sample {
            calls: &[
                SetMode(SETUP),
                NewWitnessVariable(Err(SynthesisError::AssignmentMissing)),
                NewWitnessVariable(value!(5)),
                NewLc(list![2 * W0]),
                NewLc(list![3 * O, 1 * I0]),
                enforce!(list![1 * S0], list![1 * S1], list![]),
                WhichIsUnsatisfied { work: 0 },
                ask!(S1, 4),
                ask!(S1, 5),
                ask!(S0, 5),
                ask!(W0, 0),
                ask!(I0, 0),
                Finalize,
                WhichIsUnsatisfied { work: 0 },
                ask!(S1, 5),
                ask!(I0, 0),
                ask!(W0, 0),
            ],
            places: Places {
                witnesses: 1,
                work: 6,
                answers: 17,
                ..ROOMY_PLACES
            },
            leaves: &[
                (
                    Part::Answers,
                    "done, w0, w1, s0, s1, done, refused 2, refused 19, is 4, no value, no value, is 1, done, refused 2, \
                     no value, is 1, no value",
                ),
                (Part::Witnesses, "77"),
                (Part::Work, "none 4 none 4 0 77"),
            ],
        }];
        all_as_due(rt.alloc(), HELD, SAMPLES)
    }

    // In bare mode a constraint is counted and not kept: the check, which filled the work table before, is refused from then on.
    #[test]
    fn nothing_kept_in_bare_mode(rt: HostRuntime) -> Result<(), Fail> {
        const SAMPLES: &[Sample<P31>] = &[Sample {
            calls: &[
                SetMode(BARE),
                NewWitnessVariable(value!(5)),
                NewLc(list![2 * W0]),
                WhichIsUnsatisfied { work: 0 },
                WhichIsUnsatisfied { work: 1 },
                enforce!(list![1 * S0], list![1 * S0], list![1 * O]),
                WhichIsUnsatisfied { work: 0 },
                ask!(S0, 0),
                ask!(S0, 1),
                Finalize,
                WhichIsUnsatisfied { work: 0 },
                ask!(S0, 1),
                ask!(W0, 0),
                ToMatrices { cells: 1, ends: 1 },
            ],
            places: Places {
                terms: 2,
                index: 2,
                instances: 2,
                witnesses: 2,
                work: 2,
                cells: 1,
                ends: 1,
                answers: 15,
            },
            leaves: &[
                (Part::Circuit, "finished 1 1 1 1"),
                (
                    Part::Answers,
                    "done, w0, s0, refused 19, holds, done, refused 18, refused 19, is 10, done, refused 18, no value, is 5, \
                     wrote none, is 77",
                ),
                (Part::Cells, "77@77"),
                (Part::Ends, "77"),
                (Part::Terms, "2*w0 77*w77"),
                (Part::Index, "Plain:0+1:0+0 B:77+77:77+77"),
                (Part::Instances, "1 77"),
                (Part::Witnesses, "5 77"),
                (Part::Work, "10 77"),
            ],
        }];
        all_as_due(rt.alloc(), HELD, SAMPLES)
    }

    // A check and a question of a symbol take a place for each entry, and where there are too few they fill none. What filled the table last
    // stays: here a question, and calls after it fill nothing.
    #[test]
    fn work_table(rt: HostRuntime) -> Result<(), Fail> {
        const SAMPLES: &[Sample<P31>] = &[Sample {
            calls: &[
                NewWitnessVariable(value!(3)),
                NewLc(list![2 * W0]),
                WhichIsUnsatisfied { work: 4 },
                NewLc(list![1 * S0, 1 * O]),
                WhichIsUnsatisfied { work: 1 },
                WhichIsUnsatisfied { work: 2 },
                ask!(S1, 1),
                NewLc(list![5 * S1]),
                WhichIsUnsatisfied { work: 2 },
                ask!(S1, 9),
                enforce!(list![1 * S2], list![1 * O], list![35 * O]),
                WhichIsUnsatisfied { work: 9 },
                ask!(S2, 9),
                ask!(S7, 0),
                ask!(W0, 9),
                ask!(W1, 9),
                Finalize,
                WhichIsUnsatisfied { work: 9 },
                ask!(S2, 9),
            ],
            places: Places {
                work: 5,
                answers: 19,
                ..ROOMY_PLACES
            },
            leaves: &[
                (
                    Part::Answers,
                    "w0, s0, holds, s1, refused 19, holds, refused 19, s2, refused 19, is 7, done, refused 19, refused 19, \
                     no value, is 3, no value, done, holds, no value",
                ),
                (Part::Work, "6 7 35 77 77"),
            ],
        }];
        all_as_due(rt.alloc(), HELD, SAMPLES)
    }

    // Outside Setup an error in a value's place refuses the call by its number, where there is a place for the value; and the next call is
    // accepted. In Setup it is ignored.
    #[test]
    fn errors_handed_in(rt: HostRuntime) -> Result<(), Fail> {
        macro_rules! handed_in {
            ($mode:expr) => {
                &[
                    SetMode($mode),
                    NewWitnessVariable(Err(SynthesisError::MissingCS)),
                    NewWitnessVariable(Err(SynthesisError::AssignmentMissing)),
                    NewWitnessVariable(Err(SynthesisError::DivisionByZero)),
                    NewWitnessVariable(Err(SynthesisError::Unsatisfiable)),
                    NewInputVariable(Err(SynthesisError::PolynomialDegreeTooLarge)),
                    NewInputVariable(Err(SynthesisError::UnexpectedIdentity)),
                    NewInputVariable(Err(SynthesisError::MalformedVerifyingKey)),
                    NewInputVariable(Err(SynthesisError::UnconstrainedVariable)),
                    NewWitnessVariable(value!(5)),
                    NewWitnessVariable(Err(SynthesisError::MissingCS)),
                    NewInputVariable(value!(6)),
                    NewInputVariable(Err(SynthesisError::MissingCS)),
                ]
            };
        }
        const PLACES: Places = Places {
            instances: 2,
            answers: 13,
            ..SINGLE_PLACES
        };
        const REFUSED: &[(Part, &str)] = &[
            (Part::Circuit, "open 2 1 0 0"),
            (
                Part::Answers,
                "done, refused 1, refused 2, refused 3, refused 4, refused 5, refused 6, refused 7, refused 8, \
                 w0, refused 12, i1, refused 11",
            ),
            (Part::Instances, "1 6"),
            (Part::Witnesses, "5"),
        ];
        const SAMPLES: &[Sample<P31>] = &[
            Sample {
                calls: handed_in!(PROVE),
                places: PLACES,
                leaves: REFUSED,
            },
            Sample {
                calls: handed_in!(BARE),
                places: PLACES,
                leaves: REFUSED,
            },
            Sample {
                calls: handed_in!(SETUP),
                places: PLACES,
                leaves: &[
                    (Part::Circuit, "open 7 6 0 0"),
                    (
                        Part::Answers,
                        "done, w0, w1, w2, w3, i1, i2, i3, i4, w4, w5, i5, i6",
                    ),
                    (Part::Instances, "1 77"),
                    (Part::Witnesses, "77"),
                ],
            },
        ];
        all_as_due(rt.alloc(), HELD, SAMPLES)
    }

    // Mode and goal stay once a variable, a combination or a constraint is there, so a check is still accepted. A call that was refused leaves
    // nothing there.
    #[test]
    fn set_too_late(rt: HostRuntime) -> Result<(), Fail> {
        macro_rules! set_after {
            ($mode:expr, $call:expr) => {
                &[
                    SetMode($mode),
                    $call,
                    SetMode(SETUP),
                    SetOptimizationGoal(WEIGHT),
                    WhichIsUnsatisfied { work: 3 },
                ]
            };
        }
        const PLACES: Places = Places {
            answers: 5,
            ..ROOMY_PLACES
        };
        const SAMPLES: &[Sample<P31>] = &[
            Sample {
                calls: set_after!(PROVE, NewInputVariable(value!(5))),
                places: PLACES,
                leaves: &[(Part::Answers, "done, i1, refused 10, refused 10, holds")],
            },
            Sample {
                calls: set_after!(PROVE, NewWitnessVariable(value!(5))),
                places: PLACES,
                leaves: &[(Part::Answers, "done, w0, refused 10, refused 10, holds")],
            },
            Sample {
                calls: set_after!(PROVE, NewLc(list![])),
                places: PLACES,
                leaves: &[(Part::Answers, "done, s0, refused 10, refused 10, holds")],
            },
            Sample {
                calls: set_after!(PROVE, enforce!(list![], list![], list![])),
                places: PLACES,
                leaves: &[(Part::Answers, "done, done, refused 10, refused 10, holds")],
            },
            Sample {
                calls: set_after!(BARE, enforce!(list![], list![], list![])),
                places: PLACES,
                leaves: &[(
                    Part::Answers,
                    "done, done, refused 10, refused 10, refused 18",
                )],
            },
            Sample {
                calls: set_after!(PROVE, NewLc(list![1 * W0])),
                places: PLACES,
                leaves: &[(
                    Part::Answers,
                    "done, refused 15 at 0 0, done, done, refused 2",
                )],
            },
        ];
        all_as_due(rt.alloc(), HELD, SAMPLES)
    }

    // Entry 0 is a combination and 1 to 3 are a constraint's own lists. Of each refused call the first term at fault is told, and no place
    // changes.
    #[test]
    fn unknown_variables(rt: HostRuntime) -> Result<(), Fail> {
        const SAMPLES: &[Sample<P31>] = &[Sample {
            calls: &[
                NewWitnessVariable(value!(5)),
                NewLc(list![1 * O]),
                enforce!(list![1 * S0], list![1 * O], list![1 * O]),
                NewLc(list![1 * W0, 1 * W1]),
                NewLc(list![1 * S4]),
                NewLc(list![1 * S1, 1 * W1]),
                NewLc(list![0 * I0, 0 * I1, 1 * S2]),
                enforce!(list![1 * O], list![1 * S3, 1 * I1], list![1 * S4]),
                enforce!(list![], list![1 * I1, 1 * S2], list![]),
                enforce!(list![1 * Z], list![], list![1 * O, 1 * S2]),
                enforce!(list![1 * S4], list![], list![]),
                NewLc(list![3 * S0, 2 * W0]),
                ask!(S4, 5),
            ],
            places: Places {
                terms: 8,
                index: 7,
                instances: 2,
                witnesses: 2,
                work: 6,
                cells: 0,
                ends: 0,
                answers: 13,
            },
            leaves: &[
                (Part::Circuit, "open 1 1 1 5"),
                (
                    Part::Answers,
                    "w0, s0, done, refused 15 at 0 1, refused 15 at 0 0, refused 16 at 0 0, refused 15 at 0 1, refused 16 at 1 0, \
                     refused 15 at 1 0, refused 16 at 2 1, refused 15 at 0 0, s4, is 13",
                ),
                (Part::Terms, "1*o 1*s0 1*o 1*o 3*s0 2*w0 77*w77 77*w77"),
                (
                    Part::Index,
                    "Plain:0+1:0+0 A:1+1:0+0 B:2+1:0+0 C:3+1:0+0 Plain:4+2:0+0 B:77+77:77+77 B:77+77:77+77",
                ),
                (Part::Instances, "1 77"),
                (Part::Witnesses, "5 77"),
                (Part::Work, "1 1 1 1 13 77"),
            ],
        }];
        all_as_due(rt.alloc(), HELD, SAMPLES)
    }

    // Too few entries are told before too few terms, and these before a variable that is not known.
    #[test]
    fn full_tables(rt: HostRuntime) -> Result<(), Fail> {
        const SAMPLES: &[Sample<P31>] = &[Sample {
            calls: &[
                NewInputVariable(value!(5)),
                NewInputVariable(value!(6)),
                NewWitnessVariable(value!(7)),
                NewWitnessVariable(value!(8)),
                NewLc(list![1 * W0, 1 * W0, 1 * W9]),
                enforce!(list![1 * W0], list![1 * W0], list![1 * W9]),
                enforce!(list![], list![], list![1 * W0, 1 * O]),
                NewLc(list![1 * W9, 1 * O, 1 * O]),
                enforce!(list![1 * W9], list![], list![]),
                WhichIsUnsatisfied { work: 3 },
            ],
            places: Places {
                terms: 2,
                index: 3,
                instances: 2,
                witnesses: 1,
                work: 3,
                cells: 0,
                ends: 0,
                answers: 10,
            },
            leaves: &[
                (
                    Part::Answers,
                    "i1, refused 11, w0, refused 12, refused 14, refused 14, done, refused 13, refused 13, fails 0",
                ),
                (Part::Terms, "1*w0 1*o"),
                (Part::Index, "A:0+0:0+0 B:0+0:0+0 C:0+2:0+0"),
                (Part::Instances, "1 5"),
                (Part::Witnesses, "7"),
                (Part::Work, "0 0 8"),
            ],
        }];
        all_as_due(rt.alloc(), HELD, SAMPLES)
    }
}
