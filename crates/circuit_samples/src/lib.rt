#![tactic(auto)]

// Worked samples and boundaries of the open circuit over lent tables, as tests: what is due is worked out from the rules. The products of
// gf8 are those of FIPS 197, section 4.2.

#[cfg(test)]
mod tests {
    use constraint_system::{
        ConstraintSystem, Entry, LcIndex, Mark, OptimizationGoal, Refusal, SynthesisError,
        SynthesisMode, Tables, Term, Variable,
    };
    use field::Field;
    use gf8::Gf8;
    use p31::P31;
    use std::alloc::{AllocError, Global};
    use std::test::Fail;

    // how many places of a table count
    const LIMIT: usize = 1048576;

    const SETUP: SynthesisMode = SynthesisMode::Setup;

    const PROVE: SynthesisMode = SynthesisMode::Prove {
        construct_matrices: true,
    };

    const BARE: SynthesisMode = SynthesisMode::Prove {
        construct_matrices: false,
    };

    // what lies in a place before a circuit is opened
    const HELD: u32 = 77;

    const HELD_ENTRY: Entry = Entry {
        mark: Mark::B,
        given_start: 77,
        given_len: 77,
        finished_start: 77,
        finished_len: 77,
    };

    const HELD_WORK: Option<P31> = Some(P31 { value: 77 });

    fn byte(value: u8) -> Gf8 {
        Gf8 { value }
    }

    fn residue(value: u32) -> P31 {
        P31 { value }
    }

    fn term(number: u32, variable: Variable) -> Term<P31> {
        Term {
            number: residue(number),
            variable,
        }
    }

    fn zero() -> Variable {
        Variable::Zero
    }

    fn one() -> Variable {
        Variable::One
    }

    fn i(number: usize) -> Variable {
        Variable::Instance(number)
    }

    fn w(number: usize) -> Variable {
        Variable::Witness(number)
    }

    fn s(number: usize) -> Variable {
        Variable::SymbolicLc(LcIndex(number))
    }

    fn entry(mark: Mark, given_start: usize, given_len: usize) -> Entry {
        Entry {
            mark,
            given_start,
            given_len,
            finished_start: 0,
            finished_len: 0,
        }
    }

    fn unknown(list: usize, term: usize) -> Refusal {
        Refusal::UnknownVariable { list, term }
    }

    fn own_list(list: usize, term: usize) -> Refusal {
        Refusal::ConstraintList { list, term }
    }

    // Values and terms are compared by the numbers as they lie: P31 has no `==`, since two of them may stand for one member.
    fn number(value: &P31) -> u32 {
        value.value
    }

    fn plain(term: &Term<P31>) -> (u32, Variable) {
        (term.number.value, term.variable)
    }

    fn maybe(value: &Option<P31>) -> Option<u32> {
        value.map(|value| value.value)
    }

    fn are(values: &[P31], numbers: &[u32]) -> bool {
        values.iter().map(number).eq(numbers.iter().copied())
    }

    fn are_terms(found: &[Term<P31>], expected: &[Term<P31>]) -> bool {
        found.iter().map(plain).eq(expected.iter().map(plain))
    }

    fn are_maybe(found: &[Option<P31>], expected: &[Option<u32>]) -> bool {
        found.iter().map(maybe).eq(expected.iter().copied())
    }

    // Four tables of one's own, to be lent.
    #[derive(Drop)]
    struct Places<F> {
        terms: Vec<Term<F>>,
        index: Vec<Entry>,
        instances: Vec<F>,
        witnesses: Vec<F>,
    }

    impl<F: Field> Places<F> {
        // Tables of these lengths, whose places hold what they held before.
        fn new(
            heap: Global,
            held: F,
            terms: usize,
            index: usize,
            instances: usize,
            witnesses: usize,
        ) -> Result<Places<F>, AllocError> {
            let held_term = Term {
                number: held,
                variable: Variable::Witness(77),
            };
            Ok(Places {
                terms: vec![in heap; held_term; terms]?,
                index: vec![in heap; HELD_ENTRY; index]?,
                instances: vec![in heap; held; instances]?,
                witnesses: vec![in heap; held; witnesses]?,
            })
        }

        fn lend(&mut self) -> Tables<'_, F> {
            Tables {
                terms: self.terms.as_mut_slice(),
                index: self.index.as_mut_slice(),
                instances: self.instances.as_mut_slice(),
                witnesses: self.witnesses.as_mut_slice(),
            }
        }

        fn copy(&self, heap: Global) -> Result<Places<F>, AllocError> {
            Ok(Places {
                terms: self.terms.as_slice().to_vec(heap)?,
                index: self.index.as_slice().to_vec(heap)?,
                instances: self.instances.as_slice().to_vec(heap)?,
                witnesses: self.witnesses.as_slice().to_vec(heap)?,
            })
        }
    }

    impl Places<P31> {
        // Whether every place of every table holds the same.
        fn is_as(&self, other: &Places<P31>) -> bool {
            self.terms
                .iter()
                .map(plain)
                .eq(other.terms.iter().map(plain))
                && self.index.as_slice() == other.index.as_slice()
                && self
                    .instances
                    .iter()
                    .map(number)
                    .eq(other.instances.iter().map(number))
                && self
                    .witnesses
                    .iter()
                    .map(number)
                    .eq(other.witnesses.iter().map(number))
        }
    }

    fn residues(
        heap: Global,
        terms: usize,
        index: usize,
        instances: usize,
        witnesses: usize,
    ) -> Result<Places<P31>, AllocError> {
        Places::new(heap, residue(HELD), terms, index, instances, witnesses)
    }

    fn opened<F: Field>(
        mode: SynthesisMode,
        lent: &mut Places<F>,
    ) -> Result<ConstraintSystem, Refusal> {
        let mut circuit = ConstraintSystem::new(&mut lent.lend())?;
        circuit.set_mode(mode)?;
        Ok(circuit)
    }

    // instances, witnesses, constraints, entries
    fn counts(circuit: &ConstraintSystem) -> (usize, usize, usize, usize) {
        (
            circuit.num_instance_variables(),
            circuit.num_witness_variables(),
            circuit.num_constraints(),
            circuit.num_linear_combinations(),
        )
    }

    fn is_at(lent: &Places<P31>, instances: &[u32], witnesses: &[u32]) -> bool {
        are(lent.instances.as_slice(), instances) && are(lent.witnesses.as_slice(), witnesses)
    }

    // Instance 1 of 4, witnesses 0 and 1 of 3 and 7; s0 is `1*w0 1*i1`; `1*s0` times `1*o` is `1*w1`; then come `2*w1` and the empty list,
    // which are s4 and s5 where the constraint's lists are kept. So the entries are worth 7, 7, 1, 7, 14 and 0, and the constraint holds.
    fn written(mode: SynthesisMode, lent: &mut Places<P31>) -> Result<ConstraintSystem, Refusal> {
        let mut circuit = opened(mode, lent)?;
        circuit.new_input_variable(&mut lent.lend(), Ok(residue(4)))?;
        circuit.new_witness_variable(&mut lent.lend(), Ok(residue(3)))?;
        circuit.new_witness_variable(&mut lent.lend(), Ok(residue(7)))?;
        circuit.new_lc(&mut lent.lend(), &[term(1, w(0)), term(1, i(1))])?;
        circuit.enforce_constraint(
            &mut lent.lend(),
            &[term(1, s(0))],
            &[term(1, one())],
            &[term(1, w(1))],
        )?;
        circuit.new_lc(&mut lent.lend(), &[term(2, w(1))])?;
        circuit.new_lc(&mut lent.lend(), &[])?;
        Ok(circuit)
    }

    fn asked(
        circuit: &ConstraintSystem,
        lent: &mut Places<P31>,
        variable: Variable,
        work: &mut [Option<P31>],
    ) -> Result<Option<u32>, Refusal> {
        let value = circuit.assigned_value(&lent.lend(), variable, work)?;
        Ok(maybe(&value))
    }

    #[test]
    fn opening_takes_one_instance_place(rt: HostRuntime) -> Result<(), Fail> {
        let mut none = residues(rt.alloc(), 2, 2, 0, 2)?;
        let before = none.copy(rt.alloc())?;
        assert_eq!(rt;
            ConstraintSystem::new(&mut none.lend()).err(),
            Some(Refusal::InstancesFull)
        );
        assert!(rt; none.is_as(&before));
        let mut single = residues(rt.alloc(), 0, 0, 1, 0)?;
        let _alone = ConstraintSystem::new(&mut single.lend())?;
        assert!(rt; is_at(&single, &[1], &[]));
        let mut two = residues(rt.alloc(), 1, 1, 2, 1)?;
        let circuit = ConstraintSystem::new(&mut two.lend())?;
        assert!(rt; is_at(&two, &[1, 77], &[77]));
        assert!(rt; are_terms(two.terms.as_slice(), &[term(77, w(77))]));
        assert_eq!(rt; two.index.as_slice(), [HELD_ENTRY].as_slice());
        assert_eq!(rt; counts(&circuit), (1, 0, 0, 0));
        assert_eq!(rt; circuit.mode(), PROVE);
        assert_eq!(rt; circuit.optimization_goal(), OptimizationGoal::Constraints);
        Ok(())
    }

    // With n places n − 1 instances are named beside the constant one, and the next is refused.
    #[test]
    fn instances_fill_their_table(rt: HostRuntime) -> Result<(), Fail> {
        for mode in [PROVE, BARE] {
            for length in 1..4usize {
                let mut lent = residues(rt.alloc(), 0, 0, length, 0)?;
                let mut circuit = opened(mode, &mut lent)?;
                for n in 1..length {
                    assert_eq!(rt;
                        circuit.new_input_variable(&mut lent.lend(), Ok(residue(5))),
                        Ok(i(n))
                    );
                    assert_eq!(rt; lent.instances.get(n).map(number), Some(5));
                }
                let before = lent.copy(rt.alloc())?;
                assert_eq!(rt;
                    circuit.new_input_variable(&mut lent.lend(), Ok(residue(6))),
                    Err(Refusal::InstancesFull)
                );
                assert!(rt; lent.is_as(&before));
                assert_eq!(rt; counts(&circuit), (length, 0, 0, 0));
                // nor where the table is lent shorter
                lent.instances.truncate(0);
                assert_eq!(rt;
                    circuit.new_input_variable(&mut lent.lend(), Ok(residue(6))),
                    Err(Refusal::InstancesFull)
                );
            }
        }
        Ok(())
    }

    #[test]
    fn witnesses_fill_their_table(rt: HostRuntime) -> Result<(), Fail> {
        for mode in [PROVE, BARE] {
            for length in 0..3usize {
                let mut lent = residues(rt.alloc(), 0, 0, 1, length)?;
                let mut circuit = opened(mode, &mut lent)?;
                for n in 0..length {
                    assert_eq!(rt;
                        circuit.new_witness_variable(&mut lent.lend(), Ok(residue(5))),
                        Ok(w(n))
                    );
                    assert_eq!(rt; lent.witnesses.get(n).map(number), Some(5));
                }
                let before = lent.copy(rt.alloc())?;
                assert_eq!(rt;
                    circuit.new_witness_variable(&mut lent.lend(), Ok(residue(6))),
                    Err(Refusal::WitnessesFull)
                );
                assert!(rt; lent.is_as(&before));
                assert_eq!(rt; counts(&circuit), (1, length, 0, 0));
                // nor where the table is lent shorter
                lent.witnesses.truncate(0);
                assert_eq!(rt;
                    circuit.new_witness_variable(&mut lent.lend(), Ok(residue(6))),
                    Err(Refusal::WitnessesFull)
                );
            }
        }
        Ok(())
    }

    // A combination takes one entry, in every mode.
    #[test]
    fn combinations_fill_the_index(rt: HostRuntime) -> Result<(), Fail> {
        for mode in [SETUP, PROVE, BARE] {
            for length in 0..3usize {
                let mut lent = residues(rt.alloc(), 0, length, 1, 0)?;
                let mut circuit = opened(mode, &mut lent)?;
                for k in 0..length {
                    assert_eq!(rt; circuit.new_lc(&mut lent.lend(), &[]), Ok(s(k)));
                    assert_eq!(rt; lent.index.get(k).copied(), Some(entry(Mark::Plain, 0, 0)));
                }
                let before = lent.copy(rt.alloc())?;
                assert_eq!(rt;
                    circuit.new_lc(&mut lent.lend(), &[]),
                    Err(Refusal::IndexFull)
                );
                assert!(rt; lent.is_as(&before));
                assert_eq!(rt; counts(&circuit), (1, 0, 0, length));
            }
        }
        Ok(())
    }

    // A constraint takes three entries; its lists may be empty.
    #[test]
    fn constraints_fill_the_index(rt: HostRuntime) -> Result<(), Fail> {
        for (length, accepted) in [(0usize, 0usize), (2, 0), (3, 1), (4, 1), (5, 1), (6, 2)] {
            for mode in [SETUP, PROVE] {
                let mut lent = residues(rt.alloc(), 0, length, 1, 0)?;
                let mut circuit = opened(mode, &mut lent)?;
                for _ in 0..accepted {
                    assert_eq!(rt;
                        circuit.enforce_constraint(&mut lent.lend(), &[], &[], &[]),
                        Ok(())
                    );
                }
                let before = lent.copy(rt.alloc())?;
                assert_eq!(rt;
                    circuit.enforce_constraint(&mut lent.lend(), &[], &[], &[]),
                    Err(Refusal::IndexFull),
                    "with {length} entries"
                );
                assert!(rt; lent.is_as(&before));
                assert_eq!(rt; circuit.num_constraints(), accepted);
            }
        }
        Ok(())
    }

    // A list takes a place for each term, in every mode; an empty one fits where no place is left.
    #[test]
    fn combinations_fill_the_terms(rt: HostRuntime) -> Result<(), Fail> {
        for (length, accepted) in [(0usize, 0usize), (1, 0), (2, 1), (3, 1), (4, 2)] {
            for mode in [SETUP, PROVE, BARE] {
                let mut lent = residues(rt.alloc(), length, 9, 1, 0)?;
                let mut circuit = opened(mode, &mut lent)?;
                let list = [term(5, one()), term(6, zero())];
                for k in 0..accepted {
                    assert_eq!(rt; circuit.new_lc(&mut lent.lend(), &list), Ok(s(k)));
                }
                let before = lent.copy(rt.alloc())?;
                assert_eq!(rt;
                    circuit.new_lc(&mut lent.lend(), &list),
                    Err(Refusal::TermsFull),
                    "with {length} places"
                );
                assert!(rt; lent.is_as(&before));
                assert_eq!(rt; circuit.new_lc(&mut lent.lend(), &[]), Ok(s(accepted)));
            }
        }
        Ok(())
    }

    // The three lists are counted together.
    #[test]
    fn constraints_fill_the_terms(rt: HostRuntime) -> Result<(), Fail> {
        for (length, accepted) in [(0usize, 0usize), (3, 0), (4, 1), (5, 1), (7, 1), (8, 2)] {
            for mode in [SETUP, PROVE] {
                let mut lent = residues(rt.alloc(), length, 9, 1, 0)?;
                let mut circuit = opened(mode, &mut lent)?;
                let single = [term(5, one())];
                let two = [term(6, one()), term(7, zero())];
                for _ in 0..accepted {
                    assert_eq!(rt;
                        circuit.enforce_constraint(&mut lent.lend(), &single, &two, &single),
                        Ok(())
                    );
                }
                let before = lent.copy(rt.alloc())?;
                assert_eq!(rt;
                    circuit.enforce_constraint(&mut lent.lend(), &single, &two, &single),
                    Err(Refusal::TermsFull),
                    "with {length} places"
                );
                assert!(rt; lent.is_as(&before));
                assert_eq!(rt; circuit.num_constraints(), accepted);
            }
        }
        Ok(())
    }

    // In bare mode a constraint takes no place, however long its lists.
    #[test]
    fn bare_constraints_take_no_place(rt: HostRuntime) -> Result<(), Fail> {
        let mut lent = residues(rt.alloc(), 0, 0, 1, 0)?;
        let mut circuit = opened(BARE, &mut lent)?;
        let before = lent.copy(rt.alloc())?;
        let list = [term(5, one()), term(6, zero()), term(7, i(0))];
        for n in 0..3usize {
            assert_eq!(rt; counts(&circuit), (1, 0, n, 0));
            assert_eq!(rt;
                circuit.enforce_constraint(&mut lent.lend(), &list, &list, &list),
                Ok(())
            );
            assert!(rt; lent.is_as(&before));
        }
        Ok(())
    }

    // What lies where, in each mode. Places past those in use keep what they held.
    #[test]
    fn lists_lie_as_given(rt: HostRuntime) -> Result<(), Fail> {
        for (mode, instances, witnesses) in [
            (SETUP, [1, 77, 77], [77, 77, 77]),
            (PROVE, [1, 4, 77], [3, 7, 77]),
        ] {
            let mut lent = residues(rt.alloc(), 7, 7, 3, 3)?;
            let circuit = written(mode, &mut lent)?;
            assert!(rt; is_at(&lent, &instances, &witnesses));
            assert!(rt;
                are_terms(
                    lent.terms.as_slice(),
                    &[
                        term(1, w(0)),
                        term(1, i(1)),
                        term(1, s(0)),
                        term(1, one()),
                        term(1, w(1)),
                        term(2, w(1)),
                        term(77, w(77)),
                    ],
                )
            );
            let index = [
                entry(Mark::Plain, 0, 2),
                entry(Mark::A, 2, 1),
                entry(Mark::B, 3, 1),
                entry(Mark::C, 4, 1),
                entry(Mark::Plain, 5, 1),
                entry(Mark::Plain, 6, 0),
                HELD_ENTRY,
            ];
            assert_eq!(rt; lent.index.as_slice(), index.as_slice());
            assert_eq!(rt; counts(&circuit), (2, 2, 1, 6));
        }
        let mut lent = residues(rt.alloc(), 4, 4, 2, 2)?;
        let circuit = written(BARE, &mut lent)?;
        assert!(rt; is_at(&lent, &[1, 4], &[3, 7]));
        assert!(rt;
            are_terms(
                lent.terms.as_slice(),
                &[term(1, w(0)), term(1, i(1)), term(2, w(1)), term(77, w(77))],
            )
        );
        let index = [
            entry(Mark::Plain, 0, 2),
            entry(Mark::Plain, 2, 1),
            entry(Mark::Plain, 3, 0),
            HELD_ENTRY,
        ];
        assert_eq!(rt; lent.index.as_slice(), index.as_slice());
        assert_eq!(rt; counts(&circuit), (2, 2, 1, 3));
        Ok(())
    }

    // Repeats, terms of Zero and numbers that are not below the modulus are copied as they are.
    #[test]
    fn terms_are_copied_as_they_are(rt: HostRuntime) -> Result<(), Fail> {
        let mut lent = residues(rt.alloc(), 6, 1, 1, 0)?;
        let mut circuit = opened(PROVE, &mut lent)?;
        let list = [
            term(5, one()),
            term(0, i(0)),
            term(5, one()),
            term(3, zero()),
            term(4294967295, one()),
        ];
        assert_eq!(rt; circuit.new_lc(&mut lent.lend(), &list), Ok(s(0)));
        assert!(rt;
            are_terms(
                lent.terms.as_slice(),
                &[
                    term(5, one()),
                    term(0, i(0)),
                    term(5, one()),
                    term(3, zero()),
                    term(4294967295, one()),
                    term(77, w(77)),
                ],
            )
        );
        Ok(())
    }

    #[test]
    fn modes_and_goals(rt: HostRuntime) -> Result<(), Fail> {
        let mut lent = residues(rt.alloc(), 0, 0, 1, 0)?;
        let mut circuit = ConstraintSystem::new(&mut lent.lend())?;
        for (mode, is_setup, keeps) in [
            (SETUP, true, true),
            (PROVE, false, true),
            (BARE, false, false),
        ] {
            assert_eq!(rt; circuit.set_mode(mode), Ok(()));
            assert_eq!(rt; circuit.mode(), mode);
            assert_eq!(rt; circuit.is_in_setup_mode(), is_setup);
            assert_eq!(rt; circuit.should_construct_matrices(), keeps);
        }
        for goal in [
            OptimizationGoal::Weight,
            OptimizationGoal::None,
            OptimizationGoal::Constraints,
        ] {
            assert_eq!(rt; circuit.set_optimization_goal(goal), Ok(()));
            assert_eq!(rt; circuit.optimization_goal(), goal);
            assert_eq!(rt; circuit.mode(), BARE);
        }
        // a refused call leaves nothing behind which it would be too late
        assert_eq!(rt;
            circuit.new_lc(&mut lent.lend(), &[]),
            Err(Refusal::IndexFull)
        );
        assert_eq!(rt; circuit.set_mode(SETUP), Ok(()));
        Ok(())
    }

    #[derive(Clone, Copy, Debug)]
    enum Made {
        Instance,
        Witness,
        Combination,
        Constraint,
    }

    // Mode and goal stay once there is a variable, a combination or a constraint; in bare mode a constraint is counted alone.
    #[test]
    fn set_too_late(rt: HostRuntime) -> Result<(), Fail> {
        for mode in [SETUP, PROVE, BARE] {
            for made in [
                Made::Instance,
                Made::Witness,
                Made::Combination,
                Made::Constraint,
            ] {
                let mut lent = residues(rt.alloc(), 0, 3, 2, 1)?;
                let mut circuit = opened(mode, &mut lent)?;
                assert_eq!(rt;
                    circuit.set_optimization_goal(OptimizationGoal::Weight),
                    Ok(())
                );
                match made {
                    Made::Instance => {
                        circuit.new_input_variable(&mut lent.lend(), Ok(residue(1)))?;
                    }
                    Made::Witness => {
                        circuit.new_witness_variable(&mut lent.lend(), Ok(residue(1)))?;
                    }
                    Made::Combination => {
                        circuit.new_lc(&mut lent.lend(), &[])?;
                    }
                    Made::Constraint => {
                        circuit.enforce_constraint(&mut lent.lend(), &[], &[], &[])?;
                    }
                }
                for other in [SETUP, PROVE, BARE] {
                    assert_eq!(rt;
                        circuit.set_mode(other),
                        Err(Refusal::SetTooLate),
                        "after {made:?}"
                    );
                }
                assert_eq!(rt;
                    circuit.set_optimization_goal(OptimizationGoal::None),
                    Err(Refusal::SetTooLate),
                    "after {made:?}"
                );
                assert_eq!(rt; circuit.mode(), mode);
                assert_eq!(rt; circuit.optimization_goal(), OptimizationGoal::Weight);
            }
        }
        Ok(())
    }

    // Outside Setup an error in a value's place refuses the call by its number, unless the table is full.
    #[test]
    fn errors_handed_in(rt: HostRuntime) -> Result<(), Fail> {
        for (error, place) in [
            (SynthesisError::MissingCS, 1u8),
            (SynthesisError::AssignmentMissing, 2),
            (SynthesisError::DivisionByZero, 3),
            (SynthesisError::Unsatisfiable, 4),
            (SynthesisError::PolynomialDegreeTooLarge, 5),
            (SynthesisError::UnexpectedIdentity, 6),
            (SynthesisError::MalformedVerifyingKey, 7),
            (SynthesisError::UnconstrainedVariable, 8),
        ] {
            for mode in [PROVE, BARE] {
                let mut lent = residues(rt.alloc(), 0, 0, 2, 1)?;
                let mut circuit = opened(mode, &mut lent)?;
                let before = lent.copy(rt.alloc())?;
                let instance = circuit.new_input_variable(&mut lent.lend(), Err(error));
                assert_eq!(rt; instance, Err(Refusal::Synthesis(error)));
                assert_eq!(rt; instance.err().map(|refusal| refusal.number()), Some(place));
                let witness = circuit.new_witness_variable(&mut lent.lend(), Err(error));
                assert_eq!(rt; witness, Err(Refusal::Synthesis(error)));
                assert!(rt; lent.is_as(&before));
                assert_eq!(rt; counts(&circuit), (1, 0, 0, 0));
                let mut full = residues(rt.alloc(), 0, 0, 1, 0)?;
                let mut other = opened(mode, &mut full)?;
                assert_eq!(rt;
                    other.new_input_variable(&mut full.lend(), Err(error)),
                    Err(Refusal::InstancesFull)
                );
                assert_eq!(rt;
                    other.new_witness_variable(&mut full.lend(), Err(error)),
                    Err(Refusal::WitnessesFull)
                );
            }
        }
        Ok(())
    }

    // In Setup what is handed in is ignored, an error too, and the tables need no place for it.
    #[test]
    fn setup_keeps_no_values(rt: HostRuntime) -> Result<(), Fail> {
        let mut lent = residues(rt.alloc(), 1, 1, 3, 2)?;
        let mut circuit = opened(SETUP, &mut lent)?;
        let before = lent.copy(rt.alloc())?;
        for n in 0..4usize {
            assert_eq!(rt; counts(&circuit), (2 * n + 1, 2 * n, 0, 0));
            assert_eq!(rt;
                circuit.new_input_variable(&mut lent.lend(), Ok(residue(5))),
                Ok(i(2 * n + 1))
            );
            assert_eq!(rt;
                circuit.new_input_variable(&mut lent.lend(), Err(SynthesisError::DivisionByZero),),
                Ok(i(2 * n + 2))
            );
            assert_eq!(rt;
                circuit.new_witness_variable(&mut lent.lend(), Ok(residue(5))),
                Ok(w(2 * n))
            );
            assert_eq!(rt;
                circuit.new_witness_variable(
                    &mut lent.lend(),
                    Err(SynthesisError::AssignmentMissing),
                ),
                Ok(w(2 * n + 1))
            );
            assert!(rt; lent.is_as(&before));
        }
        lent.instances.truncate(0);
        assert_eq!(rt;
            circuit.new_input_variable(&mut lent.lend(), Ok(residue(5))),
            Ok(i(9))
        );
        Ok(())
    }

    // What is due of a term at this place of this list, by the number of its refusal.
    fn due(refused: Option<u8>, list: usize, at: usize) -> Option<Refusal> {
        match refused {
            None => None,
            Some(16) => Some(own_list(list, at)),
            Some(_) => Some(unknown(list, at)),
        }
    }

    // Of the written circuit, with 2 instances, 2 witnesses and 6 entries, of which 1, 2 and 3 are a constraint's own: each kind of variable
    // in a list by itself, and at each place of each list of a constraint. s6, s7 and s8 are the numbers that its lists would get.
    #[test]
    fn variables_known_and_unknown(rt: HostRuntime) -> Result<(), Fail> {
        for (variable, refused) in [
            (zero(), None),
            (one(), None),
            (i(0), None),
            (i(1), None),
            (i(2), Some(15u8)),
            (i(usize::MAX), Some(15)),
            (w(0), None),
            (w(1), None),
            (w(2), Some(15)),
            (w(usize::MAX), Some(15)),
            (s(0), None),
            (s(1), Some(16)),
            (s(2), Some(16)),
            (s(3), Some(16)),
            (s(4), None),
            (s(5), None),
            (s(6), Some(15)),
            (s(7), Some(15)),
            (s(8), Some(15)),
            (s(9), Some(15)),
            (s(usize::MAX), Some(15)),
        ] {
            for mode in [SETUP, PROVE] {
                for at in 0..2usize {
                    let mut lent = residues(rt.alloc(), 20, 9, 2, 2)?;
                    let mut circuit = written(mode, &mut lent)?;
                    let mut list = [term(1, one()), term(1, one())];
                    list[at] = term(0, variable);
                    let before = lent.copy(rt.alloc())?;
                    let answer = circuit.new_lc(&mut lent.lend(), &list).err();
                    assert_eq!(rt; answer, due(refused, 0, at), "{variable} in new_lc");
                    assert_eq!(rt; lent.is_as(&before), refused.is_some());
                    for which in 0..3usize {
                        let mut lent = residues(rt.alloc(), 20, 9, 2, 2)?;
                        let mut circuit = written(mode, &mut lent)?;
                        let mut lists = [[term(1, one()), term(1, one())]; 3];
                        lists[which][at] = term(0, variable);
                        let before = lent.copy(rt.alloc())?;
                        let answer = circuit
                            .enforce_constraint(&mut lent.lend(), &lists[0], &lists[1], &lists[2])
                            .err();
                        assert_eq!(rt;
                            answer,
                            due(refused, which, at),
                            "{variable} in list {which}"
                        );
                        assert_eq!(rt; lent.is_as(&before), refused.is_some());
                    }
                }
            }
        }
        Ok(())
    }

    // Bare mode knows the same, though it keeps no list: of the written circuit three entries, all plain.
    #[test]
    fn bare_constraints_name_what_is_known(rt: HostRuntime) -> Result<(), Fail> {
        for (variable, refused) in [
            (zero(), None),
            (one(), None),
            (i(1), None),
            (i(2), Some(15u8)),
            (w(1), None),
            (w(2), Some(15)),
            (s(0), None),
            (s(2), None),
            (s(3), Some(15)),
            (s(4), Some(15)),
        ] {
            for at in 0..2usize {
                for which in 0..3usize {
                    let mut lent = residues(rt.alloc(), 4, 4, 2, 2)?;
                    let mut circuit = written(BARE, &mut lent)?;
                    let mut lists = [[term(1, one()), term(1, one())]; 3];
                    lists[which][at] = term(0, variable);
                    let before = lent.copy(rt.alloc())?;
                    let answer = circuit
                        .enforce_constraint(&mut lent.lend(), &lists[0], &lists[1], &lists[2])
                        .err();
                    assert_eq!(rt; answer, due(refused, which, at), "{variable} in {which}");
                    assert!(rt; lent.is_as(&before));
                    let constraints = if refused.is_none() { 2 } else { 1 };
                    assert_eq!(rt; counts(&circuit), (2, 2, constraints, 3));
                }
            }
        }
        Ok(())
    }

    // The first refused term of a, then of b, then of c decides, whichever of the two refusals it is.
    #[test]
    fn first_refused_term_decides(rt: HostRuntime) -> Result<(), Fail> {
        for (named, refusal) in [
            ([s(1), w(9), one(), one(), one(), one()], own_list(0, 0)),
            ([w(9), s(1), one(), one(), one(), one()], unknown(0, 0)),
            ([one(), w(9), s(1), one(), s(2), one()], unknown(0, 1)),
            ([one(), s(3), w(9), one(), one(), one()], own_list(0, 1)),
            ([one(), one(), s(6), s(1), s(1), one()], unknown(1, 0)),
            ([one(), one(), one(), s(1), i(2), one()], own_list(1, 1)),
            ([one(), one(), one(), one(), s(7), s(2)], unknown(2, 0)),
            ([one(), one(), one(), one(), one(), s(8)], unknown(2, 1)),
        ] {
            let mut lent = residues(rt.alloc(), 20, 9, 2, 2)?;
            let mut circuit = written(PROVE, &mut lent)?;
            let before = lent.copy(rt.alloc())?;
            assert_eq!(rt;
                circuit.enforce_constraint(
                    &mut lent.lend(),
                    &[term(1, named[0]), term(1, named[1])],
                    &[term(1, named[2]), term(1, named[3])],
                    &[term(1, named[4]), term(1, named[5])],
                ),
                Err(refusal)
            );
            assert!(rt; lent.is_as(&before));
            assert_eq!(rt; counts(&circuit), (2, 2, 1, 6));
        }
        Ok(())
    }

    // A known symbol is plain in the index that is lent now: one entry marked otherwise makes it a constraint's own, and none unknown.
    #[test]
    fn symbols_go_by_the_lent_index(rt: HostRuntime) -> Result<(), Fail> {
        for (length, mark, refusal) in [
            (3usize, Mark::Plain, None),
            (3, Mark::A, Some(own_list(1, 0))),
            (3, Mark::B, Some(own_list(1, 0))),
            (3, Mark::C, Some(own_list(1, 0))),
            (1, Mark::Plain, None),
            (1, Mark::A, Some(own_list(1, 0))),
            (0, Mark::Plain, Some(unknown(1, 0))),
        ] {
            let mut lent = residues(rt.alloc(), 3, 3, 2, 2)?;
            let mut circuit = written(BARE, &mut lent)?;
            if let Some(first) = lent.index.get_mut(0) {
                first.mark = mark;
            }
            lent.index.truncate(length);
            assert_eq!(rt;
                circuit
                    .enforce_constraint(&mut lent.lend(), &[], &[term(1, s(0))], &[])
                    .err(),
                refusal,
                "{mark:?} of {length}"
            );
        }
        Ok(())
    }

    // A call that meets several causes is refused by the first: too few entries, then too few term places, then what its terms name.
    #[test]
    fn first_cause_decides(rt: HostRuntime) -> Result<(), Fail> {
        let unknowns = [term(1, w(9)), term(1, w(9))];
        for (terms, index, refusal) in [
            (1usize, 0usize, Refusal::IndexFull),
            (2, 0, Refusal::IndexFull),
            (1, 1, Refusal::TermsFull),
            (2, 1, unknown(0, 0)),
        ] {
            let mut lent = residues(rt.alloc(), terms, index, 1, 0)?;
            let mut circuit = opened(PROVE, &mut lent)?;
            assert_eq!(rt; circuit.new_lc(&mut lent.lend(), &unknowns), Err(refusal));
        }
        for (terms, index, refusal) in [
            (1usize, 2usize, Refusal::IndexFull),
            (2, 2, Refusal::IndexFull),
            (1, 3, Refusal::TermsFull),
            (2, 3, unknown(1, 0)),
        ] {
            let mut lent = residues(rt.alloc(), terms, index, 1, 0)?;
            let mut circuit = opened(PROVE, &mut lent)?;
            assert_eq!(rt;
                circuit.enforce_constraint(&mut lent.lend(), &[], &unknowns, &[]),
                Err(refusal)
            );
        }
        Ok(())
    }

    // What a lender can do to the tables between calls.
    #[derive(Clone, Copy, Debug)]
    enum Change {
        // a table is lent with so many places
        Terms(usize),
        Index(usize),
        Instances(usize),
        Witnesses(usize),
        // the term at a place names another variable
        Name(usize, Variable),
        // the entry at a place has another mark, given span or finished span
        Mark(usize, Mark),
        Span(usize, usize, usize),
        Finished(usize, usize, usize),
        // instance 0 has another value
        Constant(u32),
    }

    fn alter(lent: &mut Places<P31>, change: Change) {
        match change {
            Change::Terms(length) => lent.terms.truncate(length),
            Change::Index(length) => lent.index.truncate(length),
            Change::Instances(length) => lent.instances.truncate(length),
            Change::Witnesses(length) => lent.witnesses.truncate(length),
            Change::Name(at, variable) => {
                if let Some(term) = lent.terms.get_mut(at) {
                    term.variable = variable;
                }
            }
            Change::Mark(at, mark) => {
                if let Some(entry) = lent.index.get_mut(at) {
                    entry.mark = mark;
                }
            }
            Change::Span(at, start, len) => {
                if let Some(entry) = lent.index.get_mut(at) {
                    entry.given_start = start;
                    entry.given_len = len;
                }
            }
            Change::Finished(at, start, len) => {
                if let Some(entry) = lent.index.get_mut(at) {
                    entry.finished_start = start;
                    entry.finished_len = len;
                }
            }
            Change::Constant(value) => {
                if let Some(first) = lent.instances.get_mut(0) {
                    first.value = value;
                }
            }
        }
    }

    // A call reads the tables that it is lent: the written circuit with six entries and six terms in use needs more of each for one list
    // more, an empty one too; its s0 is a constraint's own where its mark says so, and s1 is none where it does not.
    #[test]
    fn tables_lent_otherwise(rt: HostRuntime) -> Result<(), Fail> {
        for (altered, variable, refusal) in [
            (Change::Terms(6), None, None),
            (Change::Terms(5), None, Some(Refusal::TermsFull)),
            (Change::Terms(0), None, Some(Refusal::TermsFull)),
            (Change::Index(7), None, None),
            (Change::Index(6), None, Some(Refusal::IndexFull)),
            (Change::Index(0), None, Some(Refusal::IndexFull)),
            (Change::Instances(0), Some(i(1)), None),
            (Change::Mark(0, Mark::A), Some(s(0)), Some(own_list(0, 0))),
            (Change::Mark(1, Mark::Plain), Some(s(1)), None),
            (
                Change::Mark(2, Mark::Plain),
                Some(s(1)),
                Some(own_list(0, 0)),
            ),
        ] {
            let mut lent = residues(rt.alloc(), 7, 9, 3, 3)?;
            let mut circuit = written(PROVE, &mut lent)?;
            alter(&mut lent, altered);
            let before = lent.copy(rt.alloc())?;
            let answer = match variable {
                None => circuit.new_lc(&mut lent.lend(), &[]),
                Some(variable) => circuit.new_lc(&mut lent.lend(), &[term(1, variable)]),
            };
            match refusal {
                None => assert_eq!(rt; answer, Ok(s(6)), "{altered:?}"),
                Some(refusal) => {
                    assert_eq!(rt; answer, Err(refusal), "{altered:?}");
                    assert!(rt; lent.is_as(&before));
                }
            }
        }
        Ok(())
    }

    // How each call that asks for sound tables is refused: the two checks, and the question of a variable that is always known.
    fn refusals(
        circuit: &ConstraintSystem,
        lent: &mut Places<P31>,
        work: &mut [Option<P31>],
    ) -> (Option<Refusal>, Option<Refusal>, Option<Refusal>) {
        (
            circuit.which_is_unsatisfied(&lent.lend(), work).err(),
            circuit.is_satisfied(&lent.lend(), work).err(),
            circuit.assigned_value(&lent.lend(), one(), work).err(),
        )
    }

    const UNSOUND: Option<Refusal> = Some(Refusal::TablesUnsound);

    // Each changes the tables of the written circuit, whose six terms lie at 0 to 5 and whose marks are plain, A, B, C, plain, plain.
    #[test]
    fn unsound_tables(rt: HostRuntime) -> Result<(), Fail> {
        for altered in [
            Change::Terms(5),
            Change::Terms(0),
            Change::Index(5),
            Change::Instances(1),
            Change::Witnesses(1),
            // a span past the used terms, also of length 0
            Change::Span(0, 0, 7),
            Change::Span(0, 6, 1),
            Change::Span(4, 5, 2),
            Change::Span(5, 7, 0),
            Change::Span(5, 6, 1),
            Change::Span(5, usize::MAX, 0),
            Change::Span(5, usize::MAX, 1),
            Change::Span(5, 1, usize::MAX),
            Change::Span(5, usize::MAX, usize::MAX),
            // a variable that is not named
            Change::Name(0, i(2)),
            Change::Name(0, w(2)),
            Change::Name(5, w(usize::MAX)),
            // an entry of itself, a later one, none, a constraint's own
            Change::Name(0, s(0)),
            Change::Name(0, s(4)),
            Change::Name(5, s(4)),
            Change::Name(5, s(5)),
            Change::Name(5, s(6)),
            Change::Name(5, s(usize::MAX)),
            Change::Name(2, s(1)),
            Change::Name(3, s(1)),
            Change::Name(4, s(2)),
            Change::Name(5, s(1)),
            Change::Name(5, s(2)),
            Change::Name(5, s(3)),
            // the span of s0 takes in a term that names s0
            Change::Span(0, 2, 1),
            // marks that make no triples
            Change::Mark(0, Mark::A),
            Change::Mark(0, Mark::B),
            Change::Mark(0, Mark::C),
            Change::Mark(1, Mark::Plain),
            Change::Mark(1, Mark::B),
            Change::Mark(1, Mark::C),
            Change::Mark(2, Mark::Plain),
            Change::Mark(2, Mark::A),
            Change::Mark(2, Mark::C),
            Change::Mark(3, Mark::Plain),
            Change::Mark(3, Mark::A),
            Change::Mark(3, Mark::B),
            Change::Mark(4, Mark::A),
            Change::Mark(5, Mark::A),
            Change::Mark(5, Mark::B),
            Change::Mark(5, Mark::C),
        ] {
            let mut lent = residues(rt.alloc(), 7, 7, 3, 3)?;
            let circuit = written(PROVE, &mut lent)?;
            alter(&mut lent, altered);
            let before = lent.copy(rt.alloc())?;
            for length in [0usize, 7] {
                let mut work = vec![in rt.alloc(); HELD_WORK; length]?;
                assert_eq!(rt;
                    refusals(&circuit, &mut lent, work.as_mut_slice()),
                    (UNSOUND, UNSOUND, UNSOUND),
                    "{altered:?}"
                );
                assert!(rt; work.iter().all(|value| maybe(value) == Some(HELD)));
            }
            assert!(rt; lent.is_as(&before));
        }
        Ok(())
    }

    // Changes that soundness does not forbid: free places, finished columns, the constant's value, and lists that name only what is known.
    #[test]
    fn changed_and_sound_tables(rt: HostRuntime) -> Result<(), Fail> {
        for altered in [
            Change::Terms(6),
            Change::Index(6),
            Change::Instances(2),
            Change::Witnesses(2),
            Change::Span(5, 0, 6),
            Change::Span(5, 6, 0),
            Change::Name(5, s(0)),
            Change::Name(5, i(1)),
            Change::Name(6, w(9)),
            Change::Mark(6, Mark::A),
            Change::Span(6, 9, 9),
            Change::Finished(0, usize::MAX, usize::MAX),
            Change::Constant(5),
        ] {
            let mut lent = residues(rt.alloc(), 7, 7, 3, 3)?;
            let circuit = written(PROVE, &mut lent)?;
            alter(&mut lent, altered);
            let before = lent.copy(rt.alloc())?;
            let mut work = [HELD_WORK; 6];
            assert_eq!(rt;
                circuit.which_is_unsatisfied(&lent.lend(), &mut work),
                Ok(None),
                "{altered:?}"
            );
            assert!(rt; lent.is_as(&before));
        }
        Ok(())
    }

    // Marks come in triples A, B, C, as many as the constraints counted, and nothing else is asked of them. The last entry of the seven is
    // one more empty list.
    #[test]
    fn marks_in_triples(rt: HostRuntime) -> Result<(), Fail> {
        let p = Mark::Plain;
        let (a, b, c) = (Mark::A, Mark::B, Mark::C);
        for (marks, answer) in [
            ([p, a, b, c, p, p, p], Ok(None)),
            // entries 3, 4 and 5 are worth 7, 14 and 0
            ([p, p, p, a, b, c, p], Ok(Some(0usize))),
            // entries 4, 5 and 6 are worth 14, 0 and 0
            ([p, p, p, p, a, b, c], Ok(None)),
            ([p, p, p, p, p, p, p], Err(Refusal::TablesUnsound)),
            ([p, a, b, c, a, b, c], Err(Refusal::TablesUnsound)),
            ([p, a, b, c, a, b, p], Err(Refusal::TablesUnsound)),
            ([p, a, b, c, p, p, a], Err(Refusal::TablesUnsound)),
            ([p, a, c, b, p, p, p], Err(Refusal::TablesUnsound)),
            ([p, b, a, c, p, p, p], Err(Refusal::TablesUnsound)),
            ([p, b, c, a, p, p, p], Err(Refusal::TablesUnsound)),
            ([p, a, b, p, c, p, p], Err(Refusal::TablesUnsound)),
            ([p, a, p, b, c, p, p], Err(Refusal::TablesUnsound)),
            // the list of entry 1 names s0
            ([a, b, c, p, p, p, p], Err(Refusal::TablesUnsound)),
        ] {
            let mut lent = residues(rt.alloc(), 6, 7, 2, 2)?;
            let mut circuit = written(PROVE, &mut lent)?;
            circuit.new_lc(&mut lent.lend(), &[])?;
            for at in 0..7usize {
                alter(&mut lent, Change::Mark(at, marks[at]));
            }
            let mut work = [HELD_WORK; 7];
            assert_eq!(rt;
                circuit.which_is_unsatisfied(&lent.lend(), &mut work),
                answer,
                "{marks:?}"
            );
        }
        Ok(())
    }

    // In Setup a check is refused by 2 where the tables are sound, however short the work table, and for all that no value needs a place.
    #[test]
    fn checks_in_setup(rt: HostRuntime) -> Result<(), Fail> {
        let missing = Some(Refusal::Synthesis(SynthesisError::AssignmentMissing));
        for (altered, check, question) in [
            (Change::Terms(6), missing, None),
            (Change::Instances(1), missing, None),
            (Change::Witnesses(0), missing, None),
            (Change::Instances(0), UNSOUND, UNSOUND),
            (Change::Terms(5), UNSOUND, UNSOUND),
            (Change::Index(5), UNSOUND, UNSOUND),
            (Change::Name(0, w(2)), UNSOUND, UNSOUND),
            (Change::Name(0, w(1)), missing, None),
            (Change::Mark(2, Mark::Plain), UNSOUND, UNSOUND),
            (Change::Span(5, 7, 0), UNSOUND, UNSOUND),
        ] {
            let mut lent = residues(rt.alloc(), 7, 7, 3, 3)?;
            let circuit = written(SETUP, &mut lent)?;
            alter(&mut lent, altered);
            for length in [0usize, 5, 6, 7] {
                let mut work = vec![in rt.alloc(); HELD_WORK; length]?;
                assert_eq!(rt;
                    refusals(&circuit, &mut lent, work.as_mut_slice()),
                    (check, check, question),
                    "{altered:?}"
                );
                assert!(rt; work.iter().all(|value| maybe(value) == Some(HELD)));
            }
        }
        Ok(())
    }

    // In bare mode a check is refused by 18 once a constraint is counted, and no entry may have a mark other than plain.
    #[test]
    fn checks_in_bare_mode(rt: HostRuntime) -> Result<(), Fail> {
        let not_kept = Some(Refusal::ConstraintsNotKept);
        for (altered, check, question) in [
            (Change::Terms(3), not_kept, None),
            (Change::Terms(2), UNSOUND, UNSOUND),
            (Change::Index(3), not_kept, None),
            (Change::Index(2), UNSOUND, UNSOUND),
            (Change::Instances(2), not_kept, None),
            (Change::Instances(1), UNSOUND, UNSOUND),
            (Change::Witnesses(1), UNSOUND, UNSOUND),
            (Change::Name(2, s(0)), not_kept, None),
            (Change::Name(2, s(1)), UNSOUND, UNSOUND),
            (Change::Mark(2, Mark::A), UNSOUND, UNSOUND),
            (Change::Mark(3, Mark::A), not_kept, None),
        ] {
            let mut lent = residues(rt.alloc(), 4, 4, 3, 3)?;
            let circuit = written(BARE, &mut lent)?;
            alter(&mut lent, altered);
            for length in [0usize, 2, 3, 4] {
                let mut work = vec![in rt.alloc(); HELD_WORK; length]?;
                assert_eq!(rt;
                    refusals(&circuit, &mut lent, work.as_mut_slice()),
                    (check, check, question),
                    "{altered:?}"
                );
                assert!(rt; work.iter().all(|value| maybe(value) == Some(HELD)));
            }
        }
        // a whole triple is none either
        let mut lent = residues(rt.alloc(), 4, 4, 3, 3)?;
        let circuit = written(BARE, &mut lent)?;
        alter(&mut lent, Change::Mark(0, Mark::A));
        alter(&mut lent, Change::Mark(1, Mark::B));
        alter(&mut lent, Change::Mark(2, Mark::C));
        let mut work = [HELD_WORK; 4];
        assert_eq!(rt;
            refusals(&circuit, &mut lent, &mut work),
            (UNSOUND, UNSOUND, UNSOUND)
        );
        Ok(())
    }

    // With no constraint counted a check in bare mode answers none, and fills the work table: w0 of 3 gives 6 and, less 1, 5.
    #[test]
    fn bare_combinations_are_worked_out(rt: HostRuntime) -> Result<(), Fail> {
        let mut lent = residues(rt.alloc(), 3, 2, 1, 1)?;
        let mut circuit = opened(BARE, &mut lent)?;
        circuit.new_witness_variable(&mut lent.lend(), Ok(residue(3)))?;
        circuit.new_lc(&mut lent.lend(), &[term(2, w(0))])?;
        circuit.new_lc(&mut lent.lend(), &[term(1, s(0)), term(2147483646, one())])?;
        let mut short = [HELD_WORK; 1];
        assert_eq!(rt;
            circuit.which_is_unsatisfied(&lent.lend(), &mut short),
            Err(Refusal::TableTooShort)
        );
        assert!(rt; are_maybe(&short, &[Some(77)]));
        let mut work = [HELD_WORK; 3];
        assert_eq!(rt;
            circuit.which_is_unsatisfied(&lent.lend(), &mut work),
            Ok(None)
        );
        assert!(rt; are_maybe(&work, &[Some(6), Some(5), Some(77)]));
        let mut other = [None; 3];
        assert_eq!(rt; circuit.is_satisfied(&lent.lend(), &mut other), Ok(true));
        assert!(rt; are_maybe(&other, &[Some(6), Some(5), None]));
        Ok(())
    }

    // The work table takes a place for each entry: one short is refused and left alone; places past the entries stay.
    #[test]
    fn work_takes_a_place_for_each_entry(rt: HostRuntime) -> Result<(), Fail> {
        let mut lent = residues(rt.alloc(), 7, 7, 3, 3)?;
        let circuit = written(PROVE, &mut lent)?;
        let before = lent.copy(rt.alloc())?;
        let mut short = [HELD_WORK; 5];
        let too_short = Some(Refusal::TableTooShort);
        assert_eq!(rt;
            refusals(&circuit, &mut lent, &mut short),
            (too_short, too_short, None)
        );
        assert_eq!(rt;
            asked(&circuit, &mut lent, s(0), &mut short),
            Err(Refusal::TableTooShort)
        );
        assert!(rt; are_maybe(&short, &[Some(77); 5]));
        let worth = [Some(7), Some(7), Some(1), Some(7), Some(14), Some(0)];
        let mut exact = [HELD_WORK; 6];
        assert_eq!(rt;
            circuit.which_is_unsatisfied(&lent.lend(), &mut exact),
            Ok(None)
        );
        assert!(rt; are_maybe(&exact, &worth));
        let mut again = [None; 6];
        assert_eq!(rt; circuit.is_satisfied(&lent.lend(), &mut again), Ok(true));
        assert!(rt; are_maybe(&again, &worth));
        let mut long = [HELD_WORK; 8];
        assert_eq!(rt; asked(&circuit, &mut lent, s(4), &mut long), Ok(Some(14)));
        assert!(rt;
            are_maybe(
                &long,
                &[
                    Some(7),
                    Some(7),
                    Some(1),
                    Some(7),
                    Some(14),
                    Some(0),
                    Some(77),
                    Some(77),
                ],
            )
        );
        assert!(rt; lent.is_as(&before));
        Ok(())
    }

    // Where nothing is in use an empty work table is long enough.
    #[test]
    fn nothing_to_check(rt: HostRuntime) -> Result<(), Fail> {
        for mode in [PROVE, BARE] {
            let mut lent = residues(rt.alloc(), 0, 0, 1, 0)?;
            let circuit = opened(mode, &mut lent)?;
            assert_eq!(rt;
                circuit.which_is_unsatisfied(&lent.lend(), &mut []),
                Ok(None)
            );
            assert_eq!(rt; circuit.is_satisfied(&lent.lend(), &mut []), Ok(true));
        }
        Ok(())
    }

    // Constraint j is `1*wj` times one is one, so it holds where witness j is 1. The lists of s0 and s7 stand between, and constraints 0 and 2
    // go by them.
    #[test]
    fn first_failing_constraint(rt: HostRuntime) -> Result<(), Fail> {
        for (values, answer) in [
            ([1u32, 1, 1], None),
            ([2, 1, 1], Some(0usize)),
            ([1, 2, 1], Some(1)),
            ([1, 1, 2], Some(2)),
            ([2, 2, 1], Some(0)),
            ([2, 1, 2], Some(0)),
            ([1, 2, 2], Some(1)),
            ([2, 2, 2], Some(0)),
            ([2147483648, 4294967295, 1], None),
            ([1, 1, 2147483647], Some(2)),
        ] {
            let mut lent = residues(rt.alloc(), 11, 11, 1, 3)?;
            let mut circuit = opened(PROVE, &mut lent)?;
            for value in values {
                circuit.new_witness_variable(&mut lent.lend(), Ok(residue(value)))?;
            }
            let once = [term(1, one())];
            circuit.new_lc(&mut lent.lend(), &[term(1, w(0))])?;
            circuit.enforce_constraint(&mut lent.lend(), &[term(1, s(0))], &once, &once)?;
            circuit.enforce_constraint(&mut lent.lend(), &[term(1, w(1))], &once, &once)?;
            circuit.new_lc(&mut lent.lend(), &[term(1, w(2))])?;
            circuit.enforce_constraint(&mut lent.lend(), &[term(1, s(7))], &once, &once)?;
            let mut work = [HELD_WORK; 12];
            assert_eq!(rt;
                circuit.which_is_unsatisfied(&lent.lend(), &mut work),
                Ok(answer),
                "at {values:?}"
            );
            // the work table is filled past the constraint that fails
            assert_eq!(rt; maybe(&work[10]), Some(1));
            assert_eq!(rt; maybe(&work[11]), Some(77));
            assert_eq!(rt;
                circuit.is_satisfied(&lent.lend(), &mut work),
                Ok(answer.is_none())
            );
        }
        Ok(())
    }

    // 3 + 4 + 1 is 8, and 8 times 8 is 64. The tables are as long as the circuit needs.
    #[test]
    fn worked_circuit(rt: HostRuntime) -> Result<(), Fail> {
        for (product, answer) in [(64u32, None), (2147483647 + 64, None), (65, Some(0usize))] {
            let mut lent = residues(rt.alloc(), 6, 4, 2, 2)?;
            let mut circuit = opened(PROVE, &mut lent)?;
            circuit.new_input_variable(&mut lent.lend(), Ok(residue(product)))?;
            circuit.new_witness_variable(&mut lent.lend(), Ok(residue(3)))?;
            circuit.new_witness_variable(&mut lent.lend(), Ok(residue(4)))?;
            let sum = [term(1, w(0)), term(1, w(1)), term(1, one())];
            assert_eq!(rt; circuit.new_lc(&mut lent.lend(), &sum), Ok(s(0)));
            assert_eq!(rt;
                circuit.enforce_constraint(
                    &mut lent.lend(),
                    &[term(1, s(0))],
                    &[term(1, s(0))],
                    &[term(1, i(1))],
                ),
                Ok(())
            );
            let mut work = [None; 4];
            assert_eq!(rt;
                circuit.which_is_unsatisfied(&lent.lend(), &mut work),
                Ok(answer)
            );
            let third = Some(product % 2147483647);
            assert!(rt; are_maybe(&work, &[Some(8), Some(8), Some(8), third]));
        }
        Ok(())
    }

    // 0x57 times 0x83 is 0xc1; 0x57 times 0x02 is 0xae, which with 0x03 gives 0xad. Of every entry the work table has the byte.
    #[test]
    fn worked_bytes(rt: HostRuntime) -> Result<(), Fail> {
        for (product, answer) in [(0xc1u8, None), (0xc0, Some(0usize))] {
            let mut lent = Places::new(rt.alloc(), byte(77), 5, 4, 1, 3)?;
            let mut circuit = opened(PROVE, &mut lent)?;
            for value in [0x57u8, 0x83, product] {
                circuit.new_witness_variable(&mut lent.lend(), Ok(byte(value)))?;
            }
            circuit.new_lc(
                &mut lent.lend(),
                &[
                    Term::from((byte(0x02), w(0))),
                    Term::from((byte(0x03), one())),
                ],
            )?;
            circuit.enforce_constraint(
                &mut lent.lend(),
                &[Term::from(w(0))],
                &[Term::from(w(1))],
                &[Term::from(w(2))],
            )?;
            let mut work = [Some(byte(77)); 5];
            assert_eq!(rt;
                circuit.which_is_unsatisfied(&lent.lend(), &mut work),
                Ok(answer)
            );
            let found = work.map(|value| value.map(|value| value.value));
            let expected = [Some(0xad), Some(0x57), Some(0x83), Some(product), Some(77)];
            assert_eq!(rt; found.as_slice(), expected.as_slice());
            let value = circuit.assigned_value(&lent.lend(), s(0), &mut work)?;
            assert_eq!(rt; value.map(|value| value.value), Some(0xad));
            let kept = circuit.assigned_value(&lent.lend(), w(1), &mut [])?;
            assert_eq!(rt; kept.map(|value| value.value), Some(0x83));
        }
        Ok(())
    }

    // A value that is not below the modulus is kept and answered as it is, and worked out by its remainder: 2147483647 as 0, 4294967295 as 1.
    #[test]
    fn values_not_below_the_modulus(rt: HostRuntime) -> Result<(), Fail> {
        let mut lent = residues(rt.alloc(), 4, 4, 2, 1)?;
        let mut circuit = opened(PROVE, &mut lent)?;
        circuit.new_input_variable(&mut lent.lend(), Ok(residue(2147483647)))?;
        circuit.new_witness_variable(&mut lent.lend(), Ok(residue(4294967295)))?;
        assert!(rt; is_at(&lent, &[1, 2147483647], &[4294967295]));
        circuit.new_lc(&mut lent.lend(), &[term(1, i(1))])?;
        circuit.new_lc(&mut lent.lend(), &[term(5, w(0))])?;
        circuit.new_lc(&mut lent.lend(), &[term(4294967295, one())])?;
        circuit.new_lc(&mut lent.lend(), &[term(2147483647, w(0))])?;
        let mut work = [HELD_WORK; 4];
        for (variable, value) in [
            (i(1), 2147483647u32),
            (w(0), 4294967295),
            (s(0), 0),
            (s(1), 5),
            (s(2), 1),
            (s(3), 0),
        ] {
            assert_eq!(rt;
                asked(&circuit, &mut lent, variable, &mut work),
                Ok(Some(value)),
                "{variable}"
            );
        }
        assert!(rt; are_maybe(&work, &[Some(0), Some(5), Some(1), Some(0)]));
        Ok(())
    }

    // Each kind of variable of the written circuit. The work table is needed, and filled, for a known symbol alone.
    #[test]
    fn values_of_variables(rt: HostRuntime) -> Result<(), Fail> {
        let worth = [Some(7), Some(7), Some(1), Some(7), Some(14), Some(0)];
        let held = [Some(77); 6];
        let mut lent = residues(rt.alloc(), 7, 7, 3, 3)?;
        let circuit = written(PROVE, &mut lent)?;
        let before = lent.copy(rt.alloc())?;
        for (variable, value) in [
            (zero(), Some(0u32)),
            (one(), Some(1)),
            (i(0), Some(1)),
            (i(1), Some(4)),
            (i(2), None),
            (i(usize::MAX), None),
            (w(0), Some(3)),
            (w(1), Some(7)),
            (w(2), None),
            (w(usize::MAX), None),
            (s(1), None),
            (s(2), None),
            (s(3), None),
            (s(6), None),
            (s(usize::MAX), None),
        ] {
            let mut work = [HELD_WORK; 6];
            assert_eq!(rt;
                asked(&circuit, &mut lent, variable, &mut work),
                Ok(value),
                "{variable}"
            );
            assert!(rt; are_maybe(&work, &held));
            assert_eq!(rt; asked(&circuit, &mut lent, variable, &mut []), Ok(value));
        }
        for (variable, value) in [(s(0), 7u32), (s(4), 14), (s(5), 0)] {
            let mut work = [HELD_WORK; 6];
            assert_eq!(rt;
                asked(&circuit, &mut lent, variable, &mut []),
                Err(Refusal::TableTooShort)
            );
            assert_eq!(rt;
                asked(&circuit, &mut lent, variable, &mut work),
                Ok(Some(value)),
                "{variable}"
            );
            assert!(rt; are_maybe(&work, &worth));
        }
        assert!(rt; lent.is_as(&before));
        Ok(())
    }

    // In bare mode, with a constraint counted, values are answered all the same: s0 is 3 + 4, s1 twice 7, s2 the empty list.
    #[test]
    fn values_in_bare_mode(rt: HostRuntime) -> Result<(), Fail> {
        let mut lent = residues(rt.alloc(), 4, 4, 3, 3)?;
        let circuit = written(BARE, &mut lent)?;
        let mut work = [HELD_WORK; 3];
        for (variable, value) in [
            (i(1), Some(4u32)),
            (i(2), None),
            (w(1), Some(7)),
            (s(0), Some(7)),
            (s(1), Some(14)),
            (s(2), Some(0)),
            (s(3), None),
        ] {
            assert_eq!(rt;
                asked(&circuit, &mut lent, variable, &mut work),
                Ok(value),
                "{variable}"
            );
        }
        Ok(())
    }

    // In Setup Instance(0) alone has a value, as it lies in its place: here 5. s0 rests on it, on Zero and on One: 3 + 4 × 5 is 23. s2 rests
    // on s0, s6 is empty; the others rest on what is not kept, s5 by a term of number zero.
    #[test]
    fn values_in_setup(rt: HostRuntime) -> Result<(), Fail> {
        let mut lent = residues(rt.alloc(), 9, 7, 2, 1)?;
        let mut circuit = opened(SETUP, &mut lent)?;
        circuit.new_input_variable(&mut lent.lend(), Ok(residue(8)))?;
        circuit.new_witness_variable(&mut lent.lend(), Ok(residue(9)))?;
        let rests = [term(2, zero()), term(3, one()), term(4, i(0))];
        circuit.new_lc(&mut lent.lend(), &rests)?;
        circuit.new_lc(&mut lent.lend(), &[term(1, w(0))])?;
        circuit.new_lc(&mut lent.lend(), &[term(1, s(0))])?;
        circuit.new_lc(&mut lent.lend(), &[term(1, one()), term(1, s(1))])?;
        circuit.new_lc(&mut lent.lend(), &[term(1, i(1))])?;
        circuit.new_lc(&mut lent.lend(), &[term(0, w(0))])?;
        circuit.new_lc(&mut lent.lend(), &[])?;
        alter(&mut lent, Change::Constant(5));
        for (variable, value) in [
            (zero(), Some(0u32)),
            (one(), Some(1)),
            (i(0), Some(5)),
            (i(1), None),
            (w(0), None),
            (s(7), None),
        ] {
            assert_eq!(rt;
                asked(&circuit, &mut lent, variable, &mut []),
                Ok(value),
                "{variable}"
            );
        }
        let worth = [Some(23), None, Some(23), None, None, None, Some(0)];
        for k in 0..7usize {
            let mut work = [HELD_WORK; 8];
            assert_eq!(rt;
                asked(&circuit, &mut lent, s(k), &mut work),
                Ok(worth[k]),
                "s{k}"
            );
            assert!(rt;
                are_maybe(
                    &work,
                    &[
                        Some(23),
                        None,
                        Some(23),
                        None,
                        None,
                        None,
                        Some(0),
                        Some(77),
                    ],
                )
            );
            let mut short = [HELD_WORK; 6];
            assert_eq!(rt;
                asked(&circuit, &mut lent, s(k), &mut short),
                Err(Refusal::TableTooShort)
            );
            assert!(rt; are_maybe(&short, &[Some(77); 6]));
        }
        Ok(())
    }

    // In bare mode alone so many constraints can be counted. The last is refused whatever its lists name.
    #[test]
    fn constraints_are_counted_to_the_limit(rt: HostRuntime) -> Result<(), Fail> {
        let mut lent = residues(rt.alloc(), 0, 0, 1, 0)?;
        let mut circuit = opened(BARE, &mut lent)?;
        for _ in 0..LIMIT {
            circuit.enforce_constraint(&mut lent.lend(), &[], &[], &[])?;
        }
        assert_eq!(rt; counts(&circuit), (1, 0, 1048576, 0));
        assert_eq!(rt;
            circuit.enforce_constraint(&mut lent.lend(), &[], &[], &[]),
            Err(Refusal::ConstraintsFull)
        );
        assert_eq!(rt;
            circuit.enforce_constraint(&mut lent.lend(), &[term(1, w(0))], &[], &[]),
            Err(Refusal::ConstraintsFull)
        );
        assert_eq!(rt; counts(&circuit), (1, 0, 1048576, 0));
        Ok(())
    }

    // Of a longer index 1048576 places count: a constraint that would take one more is refused, and so is a combination once they are in use.
    #[test]
    fn index_counts_to_the_limit(rt: HostRuntime) -> Result<(), Fail> {
        let mut lent = residues(rt.alloc(), 0, LIMIT + 1, 1, 0)?;
        let mut circuit = opened(PROVE, &mut lent)?;
        for _ in 0..LIMIT - 2 {
            circuit.new_lc(&mut lent.lend(), &[])?;
        }
        assert_eq!(rt;
            circuit.enforce_constraint(&mut lent.lend(), &[], &[], &[]),
            Err(Refusal::IndexFull)
        );
        assert_eq!(rt; circuit.new_lc(&mut lent.lend(), &[]), Ok(s(1048574)));
        assert_eq!(rt; circuit.new_lc(&mut lent.lend(), &[]), Ok(s(1048575)));
        assert_eq!(rt;
            circuit.new_lc(&mut lent.lend(), &[]),
            Err(Refusal::IndexFull)
        );
        assert_eq!(rt;
            lent.index.get(1048575).copied(),
            Some(entry(Mark::Plain, 0, 0))
        );
        assert_eq!(rt; lent.index.get(1048576).copied(), Some(HELD_ENTRY));
        assert_eq!(rt; counts(&circuit), (1, 0, 0, 1048576));
        // the work table takes a place for each
        let mut work = vec![in rt.alloc(); HELD_WORK; LIMIT - 1]?;
        assert_eq!(rt;
            circuit.which_is_unsatisfied(&lent.lend(), work.as_mut_slice()),
            Err(Refusal::TableTooShort)
        );
        work.push(HELD_WORK)?;
        assert_eq!(rt;
            circuit.which_is_unsatisfied(&lent.lend(), work.as_mut_slice()),
            Ok(None)
        );
        assert_eq!(rt; work.get(1048575).map(maybe), Some(Some(0)));
        Ok(())
    }

    // The last of 1048576 entries is known, and the place past them no entry.
    #[test]
    fn last_entry_is_known(rt: HostRuntime) -> Result<(), Fail> {
        let mut lent = residues(rt.alloc(), 0, LIMIT + 1, 1, 0)?;
        let mut circuit = opened(BARE, &mut lent)?;
        for _ in 0..LIMIT {
            circuit.new_lc(&mut lent.lend(), &[])?;
        }
        alter(&mut lent, Change::Mark(1048576, Mark::Plain));
        assert_eq!(rt;
            circuit.enforce_constraint(&mut lent.lend(), &[], &[term(1, s(1048575))], &[]),
            Ok(())
        );
        assert_eq!(rt;
            circuit.enforce_constraint(&mut lent.lend(), &[], &[term(1, s(1048576))], &[]),
            Err(unknown(1, 0))
        );
        Ok(())
    }

    // 1048576 bytes are kept of instances and of witnesses, however long the tables are; the place past them keeps what it held.
    #[test]
    fn values_count_to_the_limit(rt: HostRuntime) -> Result<(), Fail> {
        let mut lent = Places::new(rt.alloc(), byte(77), 0, 0, LIMIT + 1, LIMIT + 1)?;
        let mut circuit = opened(PROVE, &mut lent)?;
        for n in 1..LIMIT {
            let named = circuit.new_input_variable(&mut lent.lend(), Ok(byte(5)))?;
            assert_eq!(rt; named, i(n));
        }
        for n in 0..LIMIT {
            let named = circuit.new_witness_variable(&mut lent.lend(), Ok(byte(6)))?;
            assert_eq!(rt; named, w(n));
        }
        assert_eq!(rt;
            circuit.new_input_variable(&mut lent.lend(), Ok(byte(7))),
            Err(Refusal::InstancesFull)
        );
        assert_eq!(rt;
            circuit.new_witness_variable(&mut lent.lend(), Ok(byte(8))),
            Err(Refusal::WitnessesFull)
        );
        assert_eq!(rt; counts(&circuit), (1048576, 1048576, 0, 0));
        for (at, instance, witness) in [(1048575usize, 5u8, 6u8), (1048576, 77, 77)] {
            assert_eq!(rt;
                lent.instances.get(at).map(|value| value.value),
                Some(instance)
            );
            assert_eq!(rt;
                lent.witnesses.get(at).map(|value| value.value),
                Some(witness)
            );
        }
        // the last of each is kept, and past them there is none
        let last = circuit.assigned_value(&lent.lend(), w(1048575), &mut [])?;
        assert_eq!(rt; last.map(|value| value.value), Some(6));
        let past = circuit.assigned_value(&lent.lend(), i(1048576), &mut [])?;
        assert!(rt; past.is_none());
        Ok(())
    }

    // Setup, which needs no place for them, names no more.
    #[test]
    fn setup_counts_to_the_limit(rt: HostRuntime) -> Result<(), Fail> {
        let mut lent = residues(rt.alloc(), 0, 0, 1, 0)?;
        let mut circuit = opened(SETUP, &mut lent)?;
        for _ in 1..LIMIT {
            circuit.new_input_variable(&mut lent.lend(), Ok(residue(5)))?;
        }
        for _ in 0..LIMIT {
            circuit.new_witness_variable(&mut lent.lend(), Ok(residue(6)))?;
        }
        assert_eq!(rt;
            circuit.new_input_variable(&mut lent.lend(), Ok(residue(7))),
            Err(Refusal::InstancesFull)
        );
        assert_eq!(rt;
            circuit.new_witness_variable(&mut lent.lend(), Err(SynthesisError::Unsatisfiable)),
            Err(Refusal::WitnessesFull)
        );
        assert_eq!(rt; counts(&circuit), (1048576, 1048576, 0, 0));
        Ok(())
    }

    // One list of 1048576 terms fits, one of a term more does not, and once they are in use not one term more. A list by itself may be longer:
    // in bare mode a constraint only reads it.
    #[test]
    fn terms_count_to_the_limit(rt: HostRuntime) -> Result<(), Fail> {
        let mut lent = residues(rt.alloc(), LIMIT + 1, 9, 1, 0)?;
        let mut circuit = opened(PROVE, &mut lent)?;
        let mut list = vec![in rt.alloc(); term(1, one()); LIMIT + 1]?;
        assert_eq!(rt;
            circuit.new_lc(&mut lent.lend(), list.as_slice()),
            Err(Refusal::TermsFull)
        );
        assert_eq!(rt; lent.terms.get(0).map(plain), Some((77, w(77))));
        let mut bare = residues(rt.alloc(), 0, 0, 1, 0)?;
        let mut other = opened(BARE, &mut bare)?;
        assert_eq!(rt;
            other.enforce_constraint(&mut bare.lend(), &[], &[], list.as_slice()),
            Ok(())
        );
        list.truncate(LIMIT);
        assert_eq!(rt; circuit.new_lc(&mut lent.lend(), list.as_slice()), Ok(s(0)));
        assert_eq!(rt;
            circuit.new_lc(&mut lent.lend(), &[term(2, one())]),
            Err(Refusal::TermsFull)
        );
        assert_eq!(rt;
            circuit.enforce_constraint(&mut lent.lend(), &[], &[], &[term(2, one())]),
            Err(Refusal::TermsFull)
        );
        assert_eq!(rt; lent.terms.get(1048575).map(plain), Some((1, one())));
        assert_eq!(rt; lent.terms.get(1048576).map(plain), Some((77, w(77))));
        assert_eq!(rt; circuit.new_lc(&mut lent.lend(), &[]), Ok(s(1)));
        let mut work = [HELD_WORK; 2];
        assert_eq!(rt;
            asked(&circuit, &mut lent, s(0), &mut work),
            Ok(Some(1048576))
        );
        Ok(())
    }
}
