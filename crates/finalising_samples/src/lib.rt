#![tactic(auto)]

// Worked samples and boundaries of finalising and of the finished circuit, as tests: what is due is worked out from the rules. Lists are
// written in comments as N*V, with z for Zero, o for One, and i, w and s for instances, witnesses and symbols.

#[cfg(test)]
mod tests {
    use constraint_system::{
        ConstraintSystem, Entry, FinishedSystem, LcIndex, Mark, OptimizationGoal, Refusal,
        SynthesisError, SynthesisMode, Tables, Term, Variable,
    };
    use field::Field;
    use gf8::Gf8;
    use p31::P31;
    use std::alloc::{AllocError, Global};
    use std::test::Fail;

    // how many places of a table count
    const LIMIT: usize = 1048576;

    const SETUP: SynthesisMode = SynthesisMode::Setup;

    const PROVE: SynthesisMode = SynthesisMode::Prove {
        construct_matrices: true,
    };

    const BARE: SynthesisMode = SynthesisMode::Prove {
        construct_matrices: false,
    };

    const NONE: OptimizationGoal = OptimizationGoal::None;

    const CONSTRAINTS: OptimizationGoal = OptimizationGoal::Constraints;

    const WEIGHT: OptimizationGoal = OptimizationGoal::Weight;

    // what lies in a place before a circuit is opened
    const HELD: u32 = 77;

    const HELD_ENTRY: Entry = Entry {
        mark: Mark::B,
        given_start: 77,
        given_len: 77,
        finished_start: 77,
        finished_len: 77,
    };

    const HELD_WORK: Option<P31> = Some(P31 { value: 77 });

    const UNSOUND: Option<Refusal> = Some(Refusal::TablesUnsound);

    fn byte(value: u8) -> Gf8 {
        Gf8 { value }
    }

    fn residue(value: u32) -> P31 {
        P31 { value }
    }

    fn term(number: u32, variable: Variable) -> Term<P31> {
        Term {
            number: residue(number),
            variable,
        }
    }

    fn byte_term(number: u8, variable: Variable) -> Term<Gf8> {
        Term {
            number: byte(number),
            variable,
        }
    }

    fn zero() -> Variable {
        Variable::Zero
    }

    fn one() -> Variable {
        Variable::One
    }

    fn i(number: usize) -> Variable {
        Variable::Instance(number)
    }

    fn w(number: usize) -> Variable {
        Variable::Witness(number)
    }

    fn s(number: usize) -> Variable {
        Variable::SymbolicLc(LcIndex(number))
    }

    // an index entry by all of its five fields
    fn row(
        mark: Mark,
        given_start: usize,
        given_len: usize,
        finished_start: usize,
        finished_len: usize,
    ) -> Entry {
        Entry {
            mark,
            given_start,
            given_len,
            finished_start,
            finished_len,
        }
    }

    // Values and terms are compared by the numbers as they lie: P31 has no `==`, since two of them may stand for one member.
    fn number(value: &P31) -> u32 {
        value.value
    }

    fn plain(term: &Term<P31>) -> (u32, Variable) {
        (term.number.value, term.variable)
    }

    fn plain_byte(term: &Term<Gf8>) -> (u8, Variable) {
        (term.number.value, term.variable)
    }

    fn given(entry: &Entry) -> (Mark, usize, usize) {
        (entry.mark, entry.given_start, entry.given_len)
    }

    // Whether the values of a table begin with these; places past them are not looked at.
    fn begins(found: &[P31], expected: &[u32]) -> bool {
        found
            .iter()
            .take(expected.len())
            .map(number)
            .eq(expected.iter().copied())
    }

    // Whether these terms lie in the places from `start` on.
    fn lie_at(found: &[Term<P31>], start: usize, expected: &[Term<P31>]) -> bool {
        found
            .iter()
            .skip(start)
            .take(expected.len())
            .map(plain)
            .eq(expected.iter().map(plain))
    }

    fn bytes_lie_at(found: &[Term<Gf8>], start: usize, expected: &[Term<Gf8>]) -> bool {
        found
            .iter()
            .skip(start)
            .take(expected.len())
            .map(plain_byte)
            .eq(expected.iter().map(plain_byte))
    }

    fn entries_begin(found: &[Entry], expected: &[Entry]) -> bool {
        found
            .iter()
            .copied()
            .take(expected.len())
            .eq(expected.iter().copied())
    }

    // Four tables of one's own, to be lent.
    #[derive(Drop)]
    struct Places<F> {
        terms: Vec<Term<F>>,
        index: Vec<Entry>,
        instances: Vec<F>,
        witnesses: Vec<F>,
    }

    impl<F: Field> Places<F> {
        // Tables of these lengths, whose places hold what they held before.
        fn new(
            heap: Global,
            held: F,
            terms: usize,
            index: usize,
            instances: usize,
            witnesses: usize,
        ) -> Result<Places<F>, AllocError> {
            let held_term = Term {
                number: held,
                variable: Variable::Witness(77),
            };
            Ok(Places {
                terms: vec![in heap; held_term; terms]?,
                index: vec![in heap; HELD_ENTRY; index]?,
                instances: vec![in heap; held; instances]?,
                witnesses: vec![in heap; held; witnesses]?,
            })
        }

        fn lend(&mut self) -> Tables<'_, F> {
            Tables {
                terms: self.terms.as_mut_slice(),
                index: self.index.as_mut_slice(),
                instances: self.instances.as_mut_slice(),
                witnesses: self.witnesses.as_mut_slice(),
            }
        }

        fn copy(&self, heap: Global) -> Result<Places<F>, AllocError> {
            Ok(Places {
                terms: self.terms.as_slice().to_vec(heap)?,
                index: self.index.as_slice().to_vec(heap)?,
                instances: self.instances.as_slice().to_vec(heap)?,
                witnesses: self.witnesses.as_slice().to_vec(heap)?,
            })
        }
    }

    impl Places<P31> {
        // Whether every place of every table holds the same.
        fn is_as(&self, other: &Places<P31>) -> bool {
            self.terms
                .iter()
                .map(plain)
                .eq(other.terms.iter().map(plain))
                && self.index.as_slice() == other.index.as_slice()
                && self
                    .instances
                    .iter()
                    .map(number)
                    .eq(other.instances.iter().map(number))
                && self
                    .witnesses
                    .iter()
                    .map(number)
                    .eq(other.witnesses.iter().map(number))
        }

        // Whether the places in use hold the same, so many of each: of entries the mark and the given span, since the finished columns of an
        // open circuit count as free.
        fn keeps(&self, other: &Places<P31>, used: Used) -> bool {
            let terms = self.terms.iter().take(used.terms).map(plain);
            let index = self.index.iter().take(used.entries).map(given);
            let instances = self.instances.iter().take(used.instances).map(number);
            let witnesses = self.witnesses.iter().take(used.witnesses).map(number);
            terms.eq(other.terms.iter().take(used.terms).map(plain))
                && index.eq(other.index.iter().take(used.entries).map(given))
                && instances.eq(other.instances.iter().take(used.instances).map(number))
                && witnesses.eq(other.witnesses.iter().take(used.witnesses).map(number))
        }

        // So many places more of each.
        fn grow(&mut self, terms: usize, index: usize) -> Result<(), AllocError> {
            for _ in 0..terms {
                self.terms.push(term(HELD, w(77)))?;
            }
            for _ in 0..index {
                self.index.push(HELD_ENTRY)?;
            }
            Ok(())
        }
    }

    // How many places are in use.
    #[derive(Clone, Copy)]
    struct Used {
        terms: usize,
        entries: usize,
        instances: usize,
        witnesses: usize,
    }

    // Other tables of these lengths, which hold what is in use here, and else what they held before.
    fn moved(
        heap: Global,
        lent: &Places<P31>,
        used: Used,
        terms: usize,
        index: usize,
        witnesses: usize,
    ) -> Result<Places<P31>, AllocError> {
        let mut other = residues(heap, terms, index, used.instances, witnesses)?;
        for (to, from) in other
            .terms
            .iter_mut()
            .zip(lent.terms.iter().take(used.terms))
        {
            *to = *from;
        }
        for (to, from) in other
            .index
            .iter_mut()
            .zip(lent.index.iter().take(used.entries))
        {
            *to = *from;
        }
        for (to, from) in other.instances.iter_mut().zip(lent.instances.iter()) {
            *to = *from;
        }
        for (to, from) in other
            .witnesses
            .iter_mut()
            .zip(lent.witnesses.iter().take(used.witnesses))
        {
            *to = *from;
        }
        Ok(other)
    }

    fn residues(
        heap: Global,
        terms: usize,
        index: usize,
        instances: usize,
        witnesses: usize,
    ) -> Result<Places<P31>, AllocError> {
        Places::new(heap, residue(HELD), terms, index, instances, witnesses)
    }

    fn opened<F: Field>(
        mode: SynthesisMode,
        goal: OptimizationGoal,
        lent: &mut Places<F>,
    ) -> Result<ConstraintSystem, Refusal> {
        let mut circuit = ConstraintSystem::new(&mut lent.lend())?;
        circuit.set_mode(mode)?;
        circuit.set_optimization_goal(goal)?;
        Ok(circuit)
    }

    // A circuit with witnesses of these values.
    fn with_witnesses(
        mode: SynthesisMode,
        goal: OptimizationGoal,
        lent: &mut Places<P31>,
        values: &[u32],
    ) -> Result<ConstraintSystem, Refusal> {
        let mut circuit = opened(mode, goal, lent)?;
        for value in values {
            circuit.new_witness_variable(&mut lent.lend(), Ok(residue(*value)))?;
        }
        Ok(circuit)
    }

    // instances, witnesses, constraints, entries
    fn counts(circuit: &ConstraintSystem) -> (usize, usize, usize, usize) {
        (
            circuit.num_instance_variables(),
            circuit.num_witness_variables(),
            circuit.num_constraints(),
            circuit.num_linear_combinations(),
        )
    }

    fn counts_of(finished: &FinishedSystem) -> (usize, usize, usize, usize) {
        (
            finished.num_instance_variables(),
            finished.num_witness_variables(),
            finished.num_constraints(),
            finished.num_linear_combinations(),
        )
    }

    // The finished circuit, or the refusal alone.
    fn finish<F: Field>(
        circuit: ConstraintSystem,
        lent: &mut Places<F>,
    ) -> Result<FinishedSystem, Refusal> {
        match circuit.finalize(&mut lent.lend()) {
            Ok(finished) => Ok(finished),
            Err((_, refusal)) => Err(refusal),
        }
    }

    // A circuit was finalised where a refusal is due.
    #[derive(Drop, Debug)]
    struct Finalised;

    // The circuit that a refused call hands back, with the refusal.
    fn handed_back<F: Field>(
        circuit: ConstraintSystem,
        lent: &mut Places<F>,
    ) -> Result<(ConstraintSystem, Refusal), Finalised> {
        match circuit.finalize(&mut lent.lend()) {
            Ok(_) => Err(Finalised),
            Err(back) => Ok(back),
        }
    }

    // Instance 1 of 64, witnesses 0 and 1 of 3 and 4; s0 is `1*w0 1*w1 1*o`; `1*s0` times `1*s0` is `1*i1`: 8 times 8 is 64.
    fn worked(
        mode: SynthesisMode,
        goal: OptimizationGoal,
        lent: &mut Places<P31>,
    ) -> Result<ConstraintSystem, Refusal> {
        let mut circuit = opened(mode, goal, lent)?;
        circuit.new_input_variable(&mut lent.lend(), Ok(residue(64)))?;
        circuit.new_witness_variable(&mut lent.lend(), Ok(residue(3)))?;
        circuit.new_witness_variable(&mut lent.lend(), Ok(residue(4)))?;
        circuit.new_lc(
            &mut lent.lend(),
            &[term(1, w(0)), term(1, w(1)), term(1, one())],
        )?;
        circuit.enforce_constraint(
            &mut lent.lend(),
            &[term(1, s(0))],
            &[term(1, s(0))],
            &[term(1, i(1))],
        )?;
        Ok(circuit)
    }

    // What the worked circuit has in use while it is open, outside bare mode.
    const WORKED: Used = Used {
        terms: 6,
        entries: 4,
        instances: 2,
        witnesses: 2,
    };

    // Whether the lists of the worked circuit lie as they finish under Weight: s0 is used twice and has three terms, and 3 × 3 is above
    // 3 + 2 + 3, so it is outlined.
    fn lists_are_outlined(lent: &Places<P31>) -> bool {
        lie_at(
            lent.terms.as_slice(),
            0,
            &[
                term(1, w(0)),
                term(1, w(1)),
                term(1, one()),
                term(1, s(0)),
                term(1, s(0)),
                term(1, i(1)),
                // the merged list of s0, and the two places of its added row
                term(1, one()),
                term(1, w(0)),
                term(1, w(1)),
                term(1, one()),
                term(1, w(2)),
                // the constraint's lists
                term(1, w(2)),
                term(1, w(2)),
                term(1, i(1)),
            ],
        ) && entries_begin(
            lent.index.as_slice(),
            &[
                row(Mark::Plain, 0, 3, 10, 1),
                row(Mark::A, 3, 1, 11, 1),
                row(Mark::B, 4, 1, 12, 1),
                row(Mark::C, 5, 1, 13, 1),
                row(Mark::A, 6, 3, 6, 3),
                row(Mark::B, 9, 1, 9, 1),
                row(Mark::C, 10, 1, 10, 1),
            ],
        )
    }

    fn values_are_kept(lent: &Places<P31>) -> bool {
        begins(lent.instances.as_slice(), &[1, 64]) && begins(lent.witnesses.as_slice(), &[3, 4, 8])
    }

    // It takes exactly 14 term places, 7 entries and 3 witness places; where there are more it lies the same.
    #[test]
    fn worked_circuit(rt: HostRuntime) -> Result<(), Fail> {
        for (terms, index, instances, witnesses) in [
            (14usize, 7usize, 2usize, 3usize),
            (20, 10, 4, 5),
        ] {
            let mut lent = residues(rt.alloc(), terms, index, instances, witnesses)?;
            let circuit = worked(PROVE, WEIGHT, &mut lent)?;
            let finished = finish(circuit, &mut lent)?;
            assert!(rt; lists_are_outlined(&lent));
            assert!(rt; values_are_kept(&lent));
            assert_eq!(rt; counts_of(&finished), (2, 3, 2, 7));
            let before = lent.copy(rt.alloc())?;
            assert_eq!(rt; finished.which_is_unsatisfied(&lent.lend()), Ok(None));
            assert_eq!(rt; finished.is_satisfied(&lent.lend()), Ok(true));
            assert!(rt; lent.is_as(&before));
        }
        Ok(())
    }

    // One place fewer is refused, and the circuit comes back as it was. In tables longer by that place it is finalised.
    #[test]
    fn one_place_fewer(rt: HostRuntime) -> Result<(), Fail> {
        for (terms, index, witnesses, refusal) in [
            (13usize, 7usize, 3usize, Refusal::TermsFull),
            (14, 6, 3, Refusal::IndexFull),
            (14, 7, 2, Refusal::WitnessesFull),
        ] {
            let mut lent = residues(rt.alloc(), terms, index, 2, witnesses)?;
            let circuit = worked(PROVE, WEIGHT, &mut lent)?;
            let before = lent.copy(rt.alloc())?;
            let (again, cause) = handed_back(circuit, &mut lent)?;
            assert_eq!(rt; cause, refusal);
            assert!(rt; lent.keeps(&before, WORKED));
            assert_eq!(rt; counts(&again), (2, 2, 1, 4));
            assert_eq!(rt; again.mode(), PROVE);
            assert_eq!(rt; again.optimization_goal(), WEIGHT);
            // once more, and the same
            let (back, cause) = handed_back(again, &mut lent)?;
            assert_eq!(rt; cause, refusal);
            assert!(rt; lent.keeps(&before, WORKED));
            let mut longer = moved(rt.alloc(), &lent, WORKED, 14, 7, 3)?;
            let finished = finish(back, &mut longer)?;
            assert!(rt; lists_are_outlined(&longer));
            assert!(rt; values_are_kept(&longer));
            assert_eq!(rt; counts_of(&finished), (2, 3, 2, 7));
        }
        Ok(())
    }

    // The first step that finds no space decides, whatever the steps after it would lack.
    #[test]
    fn first_step_decides(rt: HostRuntime) -> Result<(), Fail> {
        for (terms, index, witnesses, number) in [
            // s0 is written out into places 6 to 8, and its row takes places 9 and 10
            (6usize, 4usize, 2usize, 14u8),
            (8, 6, 2, 14),
            (9, 6, 2, 14),
            (10, 6, 2, 14),
            (10, 7, 2, 14),
            (10, 6, 3, 14),
            // then its witness is asked for, then its entries
            (11, 6, 2, 12),
            (11, 7, 2, 12),
            (14, 6, 2, 12),
            (11, 6, 3, 13),
            (14, 4, 3, 13),
            (14, 5, 3, 13),
            // then the constraint's lists are written out
            (11, 7, 3, 14),
            (12, 7, 3, 14),
            (13, 7, 3, 14),
        ] {
            let mut lent = residues(rt.alloc(), terms, index, 2, witnesses)?;
            let circuit = worked(PROVE, WEIGHT, &mut lent)?;
            let before = lent.copy(rt.alloc())?;
            let (back, cause) = handed_back(circuit, &mut lent)?;
            assert_eq!(rt;
                cause.number(),
                number,
                "{terms} terms, {index} entries, {witnesses} witnesses"
            );
            assert!(rt; lent.keeps(&before, WORKED));
            assert_eq!(rt; counts(&back), (2, 2, 1, 4));
        }
        Ok(())
    }

    // Whether the lists of the worked circuit, and `2*s0` behind them, lie as they finish under Weight.
    fn lists_are_outlined_for_three(lent: &Places<P31>) -> bool {
        let lists = [
            term(2, s(0)),
            term(1, one()),
            term(1, w(0)),
            term(1, w(1)),
            term(1, one()),
            term(1, w(2)),
            term(1, w(2)),
            term(1, w(2)),
            term(1, i(1)),
            term(2, w(2)),
        ];
        let index = [
            row(Mark::Plain, 0, 3, 11, 1),
            row(Mark::A, 3, 1, 12, 1),
            row(Mark::B, 4, 1, 13, 1),
            row(Mark::C, 5, 1, 14, 1),
            row(Mark::Plain, 6, 1, 15, 1),
            row(Mark::A, 7, 3, 7, 3),
            row(Mark::B, 10, 1, 10, 1),
            row(Mark::C, 11, 1, 11, 1),
        ];
        lie_at(lent.terms.as_slice(), 6, &lists) && entries_begin(lent.index.as_slice(), &index)
    }

    // A circuit that was handed back goes on: it is checked, and a list is named. Then s0 is used three times.
    #[test]
    fn handed_back_and_gone_on_with(rt: HostRuntime) -> Result<(), Fail> {
        let mut lent = residues(rt.alloc(), 16, 6, 2, 3)?;
        let circuit = worked(PROVE, WEIGHT, &mut lent)?;
        let (mut back, cause) = handed_back(circuit, &mut lent)?;
        assert_eq!(rt; cause, Refusal::IndexFull);
        let mut work = [HELD_WORK; 4];
        assert_eq!(rt;
            back.which_is_unsatisfied(&lent.lend(), &mut work),
            Ok(None)
        );
        assert_eq!(rt; back.new_lc(&mut lent.lend(), &[term(2, s(0))]), Ok(s(4)));
        assert_eq!(rt; counts(&back), (2, 2, 1, 5));
        assert_eq!(rt;
            lent.index.get(4).copied(),
            Some(row(Mark::Plain, 6, 1, 0, 0))
        );
        lent.grow(0, 2)?;
        let finished = finish(back, &mut lent)?;
        assert!(rt; lists_are_outlined_for_three(&lent));
        assert!(rt; values_are_kept(&lent));
        assert_eq!(rt; counts_of(&finished), (2, 3, 2, 8));
        Ok(())
    }

    // Under the other goals nothing is outlined: s0 is written out into both lists that name it. It takes 16 term places, and no entry and no
    // witness more.
    #[test]
    fn goals_that_outline_nothing(rt: HostRuntime) -> Result<(), Fail> {
        for goal in [NONE, CONSTRAINTS] {
            let mut lent = residues(rt.alloc(), 15, 4, 2, 2)?;
            let circuit = worked(PROVE, goal, &mut lent)?;
            let before = lent.copy(rt.alloc())?;
            let (back, cause) = handed_back(circuit, &mut lent)?;
            assert_eq!(rt; cause, Refusal::TermsFull);
            assert!(rt; lent.keeps(&before, WORKED));
            lent.grow(1, 0)?;
            let finished = finish(back, &mut lent)?;
            assert!(rt; lent.keeps(&before, WORKED));
            let lists = [
                term(1, one()),
                term(1, w(0)),
                term(1, w(1)),
                term(1, one()),
                term(1, w(0)),
                term(1, w(1)),
                term(1, one()),
                term(1, w(0)),
                term(1, w(1)),
                term(1, i(1)),
            ];
            assert!(rt; lie_at(lent.terms.as_slice(), 6, &lists));
            let index = [
                row(Mark::Plain, 0, 3, 6, 3),
                row(Mark::A, 3, 1, 9, 3),
                row(Mark::B, 4, 1, 12, 3),
                row(Mark::C, 5, 1, 15, 1),
            ];
            assert_eq!(rt; lent.index.as_slice(), index.as_slice());
            assert_eq!(rt; counts_of(&finished), (2, 2, 1, 4));
            assert_eq!(rt; finished.which_is_unsatisfied(&lent.lend()), Ok(None));
        }
        Ok(())
    }

    // How many witnesses are there once a circuit is finalised under Weight that names nine, this list as s0, then so many lists `1*s0`, and
    // so many `1*s0 1*s0`. None of these is used, so there are ten where s0 is outlined.
    fn witnesses_with(
        heap: Global,
        list: &[Term<P31>],
        single: usize,
        twice: usize,
    ) -> Result<usize, Fail> {
        let mut lent = residues(heap, 500, 50, 1, 20)?;
        let mut circuit = with_witnesses(PROVE, WEIGHT, &mut lent, &[1; 9])?;
        circuit.new_lc(&mut lent.lend(), list)?;
        for _ in 0..single {
            circuit.new_lc(&mut lent.lend(), &[term(1, s(0))])?;
        }
        for _ in 0..twice {
            circuit.new_lc(&mut lent.lend(), &[term(1, s(0)), term(1, s(0))])?;
        }
        let finished = finish(circuit, &mut lent)?;
        Ok(finished.num_witness_variables())
    }

    // The list `1*w0 1*w1 ..` of so many terms.
    fn rising(heap: Global, length: usize) -> Result<Vec<Term<P31>>, AllocError> {
        let mut list = vec![in heap; term(1, w(0)); 0]?;
        for n in 0..length {
            list.push(term(1, w(n)))?;
        }
        Ok(list)
    }

    // With u the uses plus 1 and n terms, s0 is outlined where u × n is above u + 2 + n; a list that names it twice uses it twice.
    #[test]
    fn outlined_by_uses_and_length(rt: HostRuntime) -> Result<(), Fail> {
        for (length, single, twice, witnesses) in [
            (5usize, 1usize, 0usize, 10usize),
            (4, 1, 0, 9),
            (3, 2, 0, 10),
            (2, 2, 0, 9),
            (2, 3, 0, 9),
            (2, 4, 0, 10),
            (3, 0, 1, 10),
            (2, 0, 1, 9),
            (2, 1, 1, 9),
            (2, 2, 1, 10),
            (2, 0, 2, 10),
            // a list of one term, an empty one, and one without uses
            (1, 20, 10, 9),
            (0, 20, 10, 9),
            (9, 0, 0, 9),
        ] {
            let list = rising(rt.alloc(), length)?;
            assert_eq!(rt;
                witnesses_with(rt.alloc(), list.as_slice(), single, twice)?,
                witnesses,
                "{length} terms, {single} and {twice} lists"
            );
        }
        Ok(())
    }

    // Its length is that of the merged list, in which every term counts, with Zero and with number zero too. Each is used once: five terms are
    // outlined, and four are not.
    #[test]
    fn outlined_by_merged_terms(rt: HostRuntime) -> Result<(), Fail> {
        let (z, o) = (term(0, zero()), term(1, one()));
        let (i0, w0, w1, w2) = (term(0, i(0)), term(0, w(0)), term(1, w(1)), term(1, w(2)));
        // these two are 0 together
        let (two, rest) = (term(2, w(3)), term(2147483645, w(3)));
        for (list, witnesses) in [
            ([o, w0, z, i0, w2, w2], 10usize),
            ([two, o, rest, w0, w1, w2], 10),
            ([o, two, rest, w1, w2, w2], 9),
            ([z, z, o, o, w1, w2], 9),
        ] {
            assert_eq!(rt; witnesses_with(rt.alloc(), &list, 1, 0)?, witnesses);
        }
        Ok(())
    }

    // How many witnesses are there once a circuit is finalised under Weight that names nine, `length` terms as s0, and a constraint.
    fn witnesses_beside(
        heap: Global,
        length: usize,
        a: &[Term<P31>],
        b: &[Term<P31>],
        c: &[Term<P31>],
    ) -> Result<usize, Fail> {
        let mut lent = residues(heap, 500, 50, 1, 20)?;
        let mut circuit = with_witnesses(PROVE, WEIGHT, &mut lent, &[1; 9])?;
        let list = rising(heap, length)?;
        circuit.new_lc(&mut lent.lend(), list.as_slice())?;
        circuit.enforce_constraint(&mut lent.lend(), a, b, c)?;
        let finished = finish(circuit, &mut lent)?;
        Ok(finished.num_witness_variables())
    }

    // Uses are counted over the lists of constraints too, a term of number zero as any other.
    #[test]
    fn constraints_use_what_they_name(rt: HostRuntime) -> Result<(), Fail> {
        let once = [term(1, s(0))];
        let none = [term(0, s(0))];
        let twice = [term(1, s(0)), term(1, one()), term(2147483646, s(0))];
        for (length, few, many) in [(5usize, 9usize, 10usize), (4, 9, 9)] {
            let heap = rt.alloc();
            assert_eq!(rt; witnesses_beside(heap, length, &[], &[], &[])?, few);
            assert_eq!(rt; witnesses_beside(heap, length, &once, &[], &[])?, many);
            assert_eq!(rt; witnesses_beside(heap, length, &[], &once, &[])?, many);
            assert_eq!(rt; witnesses_beside(heap, length, &[], &[], &once)?, many);
            assert_eq!(rt; witnesses_beside(heap, length, &none, &[], &[])?, many);
        }
        let heap = rt.alloc();
        assert_eq!(rt; witnesses_beside(heap, 3, &once, &[], &once)?, 10);
        assert_eq!(rt; witnesses_beside(heap, 3, &[], &twice, &[])?, 10);
        assert_eq!(rt; witnesses_beside(heap, 2, &once, &once, &once)?, 9);
        assert_eq!(rt; witnesses_beside(heap, 2, &once, &twice, &none)?, 10);
        Ok(())
    }

    // A list is as long as it is once the symbols that it names have given way: s1 is `1*s0 1*w3 1*w4`, and five terms long where s0 has three,
    // used once; where s0 is outlined, s1 has three, and is not.
    #[test]
    fn outlined_after_substitution(rt: HostRuntime) -> Result<(), Fail> {
        for (length, first, second) in [
            (3usize, None, Some(Some(9usize))),
            (5, Some(Some(9usize)), None),
        ] {
            let mut lent = residues(rt.alloc(), 100, 20, 1, 20)?;
            let mut circuit = with_witnesses(PROVE, WEIGHT, &mut lent, &[1; 9])?;
            let list = rising(rt.alloc(), length)?;
            circuit.new_lc(&mut lent.lend(), list.as_slice())?;
            circuit.new_lc(
                &mut lent.lend(),
                &[term(1, s(0)), term(1, w(7)), term(1, w(8))],
            )?;
            circuit.new_lc(&mut lent.lend(), &[term(1, s(1))])?;
            let finished = finish(circuit, &mut lent)?;
            assert_eq!(rt; counts_of(&finished), (1, 10, 1, 6));
            assert_eq!(rt; witness_for(&lent, 0), first, "{length} terms");
            assert_eq!(rt; witness_for(&lent, 1), second, "{length} terms");
        }
        Ok(())
    }

    // Where the finished list of an entry has one term: the number of the witness that it names.
    fn witness_for(lent: &Places<P31>, entry: usize) -> Option<Option<usize>> {
        let at = lent.index.get(entry)?;
        if at.finished_len != 1 {
            return None;
        }
        let named = lent.terms.get(at.finished_start)?;
        Some(match named.variable {
            Variable::Witness(number) => Some(number),
            _ => None,
        })
    }

    // Two outlined lists: s0 is `1*w0 1*w1 1*w2 1*w3 1*o`, worth 18, and s1 is `2*s0 1*w0 1*w1 1*w2 3*o`, worth 49 by way of the witness that
    // stands for s0. The constraint asks that s1 is 49.
    fn nested(lent: &mut Places<P31>) -> Result<ConstraintSystem, Refusal> {
        let mut circuit = with_witnesses(PROVE, WEIGHT, lent, &[2, 3, 5, 7])?;
        circuit.new_lc(
            &mut lent.lend(),
            &[
                term(1, w(0)),
                term(1, w(1)),
                term(1, w(2)),
                term(1, w(3)),
                term(1, one()),
            ],
        )?;
        circuit.new_lc(
            &mut lent.lend(),
            &[
                term(2, s(0)),
                term(1, w(0)),
                term(1, w(1)),
                term(1, w(2)),
                term(3, one()),
            ],
        )?;
        circuit.enforce_constraint(
            &mut lent.lend(),
            &[term(1, s(1))],
            &[term(1, one())],
            &[term(49, one())],
        )?;
        Ok(circuit)
    }

    // Whether its lists lie as they finish.
    fn both_are_outlined(lent: &Places<P31>) -> bool {
        let lists = [
            term(1, one()),
            term(1, w(0)),
            term(1, w(1)),
            term(1, w(2)),
            term(1, w(3)),
            term(1, one()),
            term(1, w(4)),
            term(3, one()),
            term(1, w(0)),
            term(1, w(1)),
            term(1, w(2)),
            term(2, w(4)),
            term(1, one()),
            term(1, w(5)),
            term(1, w(5)),
            term(1, one()),
            term(49, one()),
        ];
        let index = [
            row(Mark::Plain, 0, 5, 19, 1),
            row(Mark::Plain, 5, 5, 26, 1),
            row(Mark::A, 10, 1, 27, 1),
            row(Mark::B, 11, 1, 28, 1),
            row(Mark::C, 12, 1, 29, 1),
            row(Mark::A, 13, 5, 13, 5),
            row(Mark::B, 18, 1, 18, 1),
            row(Mark::C, 19, 1, 19, 1),
            row(Mark::A, 20, 5, 20, 5),
            row(Mark::B, 25, 1, 25, 1),
            row(Mark::C, 26, 1, 26, 1),
        ];
        lie_at(lent.terms.as_slice(), 13, &lists) && entries_begin(lent.index.as_slice(), &index)
    }

    #[test]
    fn outlined_list_names_an_outlined_one(rt: HostRuntime) -> Result<(), Fail> {
        let mut lent = residues(rt.alloc(), 30, 11, 1, 6)?;
        let circuit = nested(&mut lent)?;
        let finished = finish(circuit, &mut lent)?;
        assert!(rt; begins(lent.witnesses.as_slice(), &[2, 3, 5, 7, 18, 49]));
        assert!(rt; both_are_outlined(&lent));
        assert_eq!(rt; counts_of(&finished), (1, 6, 3, 11));
        assert_eq!(rt; finished.which_is_unsatisfied(&lent.lend()), Ok(None));
        Ok(())
    }

    // It takes 30 term places, 11 entries and 6 witnesses. Where the second row lacks them the first one is given up too.
    #[test]
    fn second_outlined_list_finds_no_place(rt: HostRuntime) -> Result<(), Fail> {
        let used = Used {
            terms: 13,
            entries: 5,
            instances: 1,
            witnesses: 4,
        };
        for (terms, index, witnesses, refusal) in [
            (29usize, 11usize, 6usize, Refusal::TermsFull),
            // s1 is written out into places 20 to 24, and its row takes places 25 and 26
            (24, 10, 5, Refusal::TermsFull),
            (26, 10, 5, Refusal::TermsFull),
            (27, 10, 5, Refusal::WitnessesFull),
            (27, 11, 5, Refusal::WitnessesFull),
            (30, 10, 5, Refusal::WitnessesFull),
            (30, 10, 4, Refusal::WitnessesFull),
            (27, 10, 6, Refusal::IndexFull),
            (30, 8, 6, Refusal::IndexFull),
            (30, 7, 6, Refusal::IndexFull),
            (30, 7, 5, Refusal::IndexFull),
            (27, 11, 6, Refusal::TermsFull),
        ] {
            let mut lent = residues(rt.alloc(), terms, index, 1, witnesses)?;
            let circuit = nested(&mut lent)?;
            let before = lent.copy(rt.alloc())?;
            let (back, cause) = handed_back(circuit, &mut lent)?;
            assert_eq!(rt;
                cause,
                refusal,
                "{terms} terms, {index} entries, {witnesses} witnesses"
            );
            assert!(rt; lent.keeps(&before, used));
            assert_eq!(rt; counts(&back), (1, 4, 1, 5));
        }
        Ok(())
    }

    // A symbol gives way to its finished list times the number of its term: s0 is `2*w0 3*o`, s1 `5*s0 1*w0`, s2 `7*s1 11*s0`, and s3 is
    // s0 times −1 plus `2*w0`.
    #[test]
    fn symbols_give_way(rt: HostRuntime) -> Result<(), Fail> {
        let mut lent = residues(rt.alloc(), 25, 4, 1, 1)?;
        let mut circuit = with_witnesses(PROVE, CONSTRAINTS, &mut lent, &[1])?;
        circuit.new_lc(&mut lent.lend(), &[term(2, w(0)), term(3, one())])?;
        circuit.new_lc(&mut lent.lend(), &[term(5, s(0)), term(1, w(0))])?;
        circuit.new_lc(&mut lent.lend(), &[term(7, s(1)), term(11, s(0))])?;
        circuit.new_lc(&mut lent.lend(), &[term(2147483646, s(0)), term(2, w(0))])?;
        finish(circuit, &mut lent)?;
        let lists = [
            // 7 × 15 + 11 × 3 and 7 × 11 + 11 × 2
            term(3, one()),
            term(2, w(0)),
            term(15, one()),
            term(11, w(0)),
            term(138, one()),
            term(99, w(0)),
            term(2147483644, one()),
            term(0, w(0)),
        ];
        assert!(rt; lie_at(lent.terms.as_slice(), 8, &lists));
        let index = [
            row(Mark::Plain, 0, 2, 8, 2),
            row(Mark::Plain, 2, 2, 10, 2),
            row(Mark::Plain, 4, 2, 12, 2),
            row(Mark::Plain, 6, 2, 14, 2),
        ];
        assert_eq!(rt; lent.index.as_slice(), index.as_slice());
        Ok(())
    }

    // Sums of zero stay, and give way as other terms do. A number that is not below the modulus is copied as it is, and is reduced where it is
    // added or multiplied: 4294967295 is 1, and 2147483647 is 0.
    #[test]
    fn sums_of_zero_and_numbers_as_they_lie(rt: HostRuntime) -> Result<(), Fail> {
        let mut lent = residues(rt.alloc(), 25, 6, 1, 1)?;
        let mut circuit = with_witnesses(PROVE, CONSTRAINTS, &mut lent, &[1])?;
        circuit.new_lc(&mut lent.lend(), &[term(2, w(0)), term(2147483645, w(0))])?;
        circuit.new_lc(&mut lent.lend(), &[term(3, s(0))])?;
        circuit.new_lc(&mut lent.lend(), &[term(4294967295, w(0))])?;
        circuit.new_lc(&mut lent.lend(), &[term(1, s(2))])?;
        circuit.new_lc(&mut lent.lend(), &[term(2147483647, w(0)), term(0, w(0))])?;
        circuit.new_lc(
            &mut lent.lend(),
            &[term(2147483647, s(2)), term(2147483647, one())],
        )?;
        finish(circuit, &mut lent)?;
        let lists = [
            term(0, w(0)),
            term(0, w(0)),
            term(4294967295, w(0)),
            term(1, w(0)),
            term(0, w(0)),
            term(2147483647, one()),
            term(0, w(0)),
        ];
        assert!(rt; lie_at(lent.terms.as_slice(), 9, &lists));
        let index = [
            row(Mark::Plain, 0, 2, 9, 1),
            row(Mark::Plain, 2, 1, 10, 1),
            row(Mark::Plain, 3, 1, 11, 1),
            row(Mark::Plain, 4, 1, 12, 1),
            row(Mark::Plain, 5, 2, 13, 1),
            row(Mark::Plain, 7, 2, 14, 2),
        ];
        assert_eq!(rt; lent.index.as_slice(), index.as_slice());
        Ok(())
    }

    // Zero, One, instances, witnesses, each by number; One and Instance(0) are two variables.
    #[test]
    fn finished_lists_rise(rt: HostRuntime) -> Result<(), Fail> {
        let mut lent = residues(rt.alloc(), 18, 1, 2, 2)?;
        let mut circuit = with_witnesses(PROVE, NONE, &mut lent, &[1, 1])?;
        circuit.new_input_variable(&mut lent.lend(), Ok(residue(1)))?;
        let list = [
            term(1, w(1)),
            term(4, i(1)),
            term(3, zero()),
            term(2, i(0)),
            term(1, w(0)),
            term(5, one()),
            term(6, w(1)),
            term(7, zero()),
            term(8, i(0)),
        ];
        circuit.new_lc(&mut lent.lend(), &list)?;
        finish(circuit, &mut lent)?;
        assert!(rt; lie_at(lent.terms.as_slice(), 0, &list));
        let risen = [
            term(10, zero()),
            term(5, one()),
            term(10, i(0)),
            term(4, i(1)),
            term(1, w(0)),
            term(7, w(1)),
        ];
        assert!(rt; lie_at(lent.terms.as_slice(), 9, &risen));
        assert_eq!(rt;
            lent.index.get(0).copied(),
            Some(row(Mark::Plain, 0, 9, 9, 6))
        );
        Ok(())
    }

    // 87 × 131 is 193 and 87 × 19 is 254; 19 × 131 is 118, 19 × 19 is 30, 87 × 87 is 165, and 165 + 87 is 242.
    #[test]
    fn bytes_give_way(rt: HostRuntime) -> Result<(), Fail> {
        let mut lent = Places::new(rt.alloc(), byte(77), 21, 6, 1, 1)?;
        let mut circuit = opened(PROVE, CONSTRAINTS, &mut lent)?;
        circuit.new_witness_variable(&mut lent.lend(), Ok(byte(1)))?;
        let given = [
            byte_term(87, w(0)),
            byte_term(19, one()),
            byte_term(131, s(0)),
            byte_term(19, s(0)),
            byte_term(87, w(0)),
            byte_term(1, w(0)),
            byte_term(87, s(0)),
            byte_term(87, w(0)),
            byte_term(87, w(0)),
            byte_term(87, w(0)),
        ];
        circuit.new_lc(&mut lent.lend(), &given[0..2])?;
        circuit.new_lc(&mut lent.lend(), &given[2..3])?;
        circuit.new_lc(&mut lent.lend(), &given[3..4])?;
        circuit.new_lc(&mut lent.lend(), &given[4..6])?;
        circuit.new_lc(&mut lent.lend(), &given[6..8])?;
        circuit.new_lc(&mut lent.lend(), &given[8..10])?;
        finish(circuit, &mut lent)?;
        assert!(rt; bytes_lie_at(lent.terms.as_slice(), 0, &given));
        let lists = [
            byte_term(19, one()),
            byte_term(87, w(0)),
            byte_term(118, one()),
            byte_term(193, w(0)),
            byte_term(30, one()),
            byte_term(254, w(0)),
            byte_term(86, w(0)),
            byte_term(254, one()),
            byte_term(242, w(0)),
            byte_term(0, w(0)),
        ];
        assert!(rt; bytes_lie_at(lent.terms.as_slice(), 10, &lists));
        Ok(())
    }

    // `1*w0 1*w0 1*w0` merges to one term, but is written out first: beside the four given terms it takes seven places. Two of them are free
    // again after, and `1*w1` finishes in the first of these.
    #[test]
    fn surplus_counts_while_it_is_written(rt: HostRuntime) -> Result<(), Fail> {
        let mut lent = residues(rt.alloc(), 6, 2, 1, 2)?;
        let mut circuit = with_witnesses(PROVE, CONSTRAINTS, &mut lent, &[1, 1])?;
        let list = [
            term(1, w(0)),
            term(1, w(0)),
            term(1, w(0)),
            term(1, w(1)),
            term(3, w(0)),
            term(1, w(1)),
        ];
        circuit.new_lc(&mut lent.lend(), &list[0..3])?;
        circuit.new_lc(&mut lent.lend(), &list[3..4])?;
        let (back, cause) = handed_back(circuit, &mut lent)?;
        assert_eq!(rt; cause, Refusal::TermsFull);
        lent.grow(1, 0)?;
        finish(back, &mut lent)?;
        assert!(rt; lie_at(lent.terms.as_slice(), 0, &list));
        let index = [row(Mark::Plain, 0, 3, 4, 1), row(Mark::Plain, 3, 1, 5, 1)];
        assert_eq!(rt; lent.index.as_slice(), index.as_slice());
        Ok(())
    }

    // A list more that uses s0 has it outlined, and less is written out then: with four uses 17 places are enough, with three 18 are needed.
    #[test]
    fn refused_and_accepted_after_more_calls(rt: HostRuntime) -> Result<(), Fail> {
        for (terms, first) in [(17usize, Some(Refusal::TermsFull)), (18, None)] {
            let mut lent = residues(rt.alloc(), terms, 7, 1, 3)?;
            let mut circuit = with_witnesses(PROVE, WEIGHT, &mut lent, &[1, 1])?;
            circuit.new_lc(&mut lent.lend(), &[term(1, w(0)), term(1, w(1))])?;
            let uses = [term(1, s(0)), term(2, s(0)), term(3, s(0))];
            circuit.new_lc(&mut lent.lend(), &uses)?;
            let thrice = [term(1, s(1)); 3];
            circuit.new_lc(&mut lent.lend(), &thrice)?;
            match circuit.finalize(&mut lent.lend()) {
                Ok(finished) => {
                    assert_eq!(rt; first, None);
                    assert_eq!(rt; counts_of(&finished), (1, 2, 0, 3));
                }
                Err((mut back, refusal)) => {
                    assert_eq!(rt; first, Some(refusal));
                    back.new_lc(&mut lent.lend(), &[term(5, s(0))])?;
                    let finished = finish(back, &mut lent)?;
                    assert_eq!(rt; counts_of(&finished), (1, 3, 1, 7));
                    assert!(rt; begins(lent.witnesses.as_slice(), &[1, 1, 2]));
                    let lists = [term(6, w(2)), term(18, w(2)), term(5, w(2))];
                    assert!(rt; lie_at(lent.terms.as_slice(), 13, &lists));
                }
            }
        }
        Ok(())
    }

    // The value of an added witness is worked out at the kept values as they lie, and lies reduced: with instance 0 of 5 and witness 0 of
    // 4294967295, which is 1, `1*o 1*i0 2*w0 3*z 0*w1` is worth 1 + 5 + 2.
    #[test]
    fn added_value_rests_on_kept_ones(rt: HostRuntime) -> Result<(), Fail> {
        let mut lent = residues(rt.alloc(), 14, 5, 1, 3)?;
        let mut circuit = with_witnesses(PROVE, WEIGHT, &mut lent, &[4294967295, 7])?;
        let list = [
            term(1, one()),
            term(1, i(0)),
            term(2, w(0)),
            term(3, zero()),
            term(0, w(1)),
        ];
        circuit.new_lc(&mut lent.lend(), &list)?;
        circuit.new_lc(&mut lent.lend(), &[term(1, s(0))])?;
        alter(&mut lent, Change::Constant(5));
        let finished = finish(circuit, &mut lent)?;
        assert_eq!(rt; counts_of(&finished), (1, 3, 1, 5));
        assert!(rt; begins(lent.instances.as_slice(), &[5]));
        assert!(rt; begins(lent.witnesses.as_slice(), &[4294967295, 7, 8]));
        assert_eq!(rt; finished.which_is_unsatisfied(&lent.lend()), Ok(None));
        Ok(())
    }

    // Setup outlines the same lists and needs no value: the witness table stays as it is, also where it is empty.
    #[test]
    fn worked_circuit_in_setup(rt: HostRuntime) -> Result<(), Fail> {
        for (instances, witnesses) in [(1usize, 0usize), (2, 2), (2, 3)] {
            let mut lent = residues(rt.alloc(), 14, 7, instances, witnesses)?;
            let circuit = worked(SETUP, WEIGHT, &mut lent)?;
            let finished = finish(circuit, &mut lent)?;
            assert!(rt; lists_are_outlined(&lent));
            assert_eq!(rt; lent.instances.get(0).map(number), Some(1));
            assert!(rt; lent.witnesses.iter().all(|value| value.value == HELD));
            assert_eq!(rt; counts_of(&finished), (2, 3, 2, 7));
            assert_eq!(rt; finished.mode(), SETUP);
        }
        for (terms, index, refusal) in [
            (13usize, 7usize, Refusal::TermsFull),
            (14, 6, Refusal::IndexFull),
            (10, 6, Refusal::TermsFull),
            (11, 6, Refusal::IndexFull),
        ] {
            let mut lent = residues(rt.alloc(), terms, index, 1, 0)?;
            let circuit = worked(SETUP, WEIGHT, &mut lent)?;
            let (back, cause) = handed_back(circuit, &mut lent)?;
            assert_eq!(rt; cause, refusal, "{terms} terms, {index} entries");
            assert_eq!(rt; counts(&back), (2, 2, 1, 4));
        }
        Ok(())
    }

    // In bare mode no place of any table changes, and all that is counted stays so: one combination, and a constraint that is not kept.
    #[test]
    fn worked_circuit_in_bare_mode(rt: HostRuntime) -> Result<(), Fail> {
        for goal in [NONE, CONSTRAINTS, WEIGHT] {
            for (terms, index, values) in [(3usize, 1usize, 2usize), (6, 4, 5)] {
                let mut lent = residues(rt.alloc(), terms, index, values, values)?;
                let circuit = worked(BARE, goal, &mut lent)?;
                let before = lent.copy(rt.alloc())?;
                let finished = finish(circuit, &mut lent)?;
                assert!(rt; lent.is_as(&before));
                assert_eq!(rt; counts_of(&finished), (2, 2, 1, 1));
                assert_eq!(rt; finished.mode(), BARE);
                assert_eq!(rt; finished.optimization_goal(), goal);
            }
        }
        Ok(())
    }

    // What a lender can do to the tables between calls.
    #[derive(Clone, Copy, Debug)]
    enum Change {
        // a table is lent with so many places
        Terms(usize),
        Index(usize),
        Instances(usize),
        Witnesses(usize),
        // the term at a place names another variable, or has another number
        Name(usize, Variable),
        Number(usize, u32),
        // the entry at a place has another mark, given span or finished span
        Mark(usize, Mark),
        Span(usize, usize, usize),
        Finished(usize, usize, usize),
        // instance 0 or a witness has another value
        Constant(u32),
        Value(usize, u32),
    }

    fn alter(lent: &mut Places<P31>, change: Change) {
        match change {
            Change::Terms(length) => lent.terms.truncate(length),
            Change::Index(length) => lent.index.truncate(length),
            Change::Instances(length) => lent.instances.truncate(length),
            Change::Witnesses(length) => lent.witnesses.truncate(length),
            Change::Name(at, variable) => {
                if let Some(term) = lent.terms.get_mut(at) {
                    term.variable = variable;
                }
            }
            Change::Number(at, value) => {
                if let Some(term) = lent.terms.get_mut(at) {
                    term.number = residue(value);
                }
            }
            Change::Constant(value) => {
                if let Some(first) = lent.instances.get_mut(0) {
                    first.value = value;
                }
            }
            Change::Value(at, value) => {
                if let Some(witness) = lent.witnesses.get_mut(at) {
                    witness.value = value;
                }
            }
            Change::Mark(at, _) | Change::Span(at, _, _) | Change::Finished(at, _, _) => {
                if let Some(entry) = lent.index.get_mut(at) {
                    alter_entry(entry, change);
                }
            }
        }
    }

    fn alter_entry(entry: &mut Entry, change: Change) {
        match change {
            Change::Mark(_, mark) => entry.mark = mark,
            Change::Span(_, start, len) => {
                entry.given_start = start;
                entry.given_len = len;
            }
            Change::Finished(_, start, len) => {
                entry.finished_start = start;
                entry.finished_len = len;
            }
            _ => {}
        }
    }

    // Each makes the tables of the open worked circuit unsound, with its six terms, four entries, two instances and two witnesses.
    #[test]
    fn unsound_tables_are_refused(rt: HostRuntime) -> Result<(), Fail> {
        for altered in [
            Change::Terms(5),
            Change::Terms(0),
            Change::Index(3),
            Change::Instances(1),
            Change::Witnesses(1),
            Change::Span(0, 0, 7),
            Change::Span(0, 4, 3),
            Change::Span(3, 7, 0),
            Change::Span(3, usize::MAX, 1),
            Change::Span(3, usize::MAX, usize::MAX),
            Change::Name(0, s(0)),
            Change::Name(0, w(2)),
            Change::Name(3, s(1)),
            Change::Name(4, s(1)),
            Change::Name(5, i(2)),
            Change::Name(5, s(4)),
            Change::Mark(0, Mark::A),
            Change::Mark(1, Mark::Plain),
            Change::Mark(2, Mark::C),
            Change::Mark(3, Mark::Plain),
        ] {
            for goal in [NONE, CONSTRAINTS, WEIGHT] {
                let mut lent = residues(rt.alloc(), 20, 10, 4, 5)?;
                let circuit = worked(PROVE, goal, &mut lent)?;
                alter(&mut lent, altered);
                let before = lent.copy(rt.alloc())?;
                let (back, cause) = handed_back(circuit, &mut lent)?;
                assert_eq!(rt; cause, Refusal::TablesUnsound, "{altered:?}");
                assert!(rt; lent.keeps(&before, WORKED), "{altered:?}");
                assert_eq!(rt; counts(&back), (2, 2, 1, 4));
            }
        }
        Ok(())
    }

    // In bare mode too, where a refusal changes no place; its list of three terms is the only entry. Setup asks for one instance place, and
    // for no witness.
    #[test]
    fn unsound_tables_in_other_modes(rt: HostRuntime) -> Result<(), Fail> {
        for altered in [
            Change::Terms(2),
            Change::Index(0),
            Change::Instances(1),
            Change::Witnesses(1),
            Change::Span(0, 1, 3),
            Change::Name(2, s(0)),
            Change::Mark(0, Mark::A),
        ] {
            let mut lent = residues(rt.alloc(), 5, 5, 3, 3)?;
            let circuit = worked(BARE, WEIGHT, &mut lent)?;
            alter(&mut lent, altered);
            let before = lent.copy(rt.alloc())?;
            let (back, cause) = handed_back(circuit, &mut lent)?;
            assert_eq!(rt; cause, Refusal::TablesUnsound, "{altered:?}");
            assert!(rt; lent.is_as(&before));
            assert_eq!(rt; counts(&back), (2, 2, 1, 1));
        }
        for (altered, refusal) in [
            (Change::Instances(0), UNSOUND),
            (Change::Name(0, s(0)), UNSOUND),
            (Change::Index(3), UNSOUND),
            (Change::Instances(1), None),
            (Change::Witnesses(0), None),
        ] {
            let mut lent = residues(rt.alloc(), 14, 7, 2, 2)?;
            let circuit = worked(SETUP, WEIGHT, &mut lent)?;
            alter(&mut lent, altered);
            assert_eq!(rt; finish(circuit, &mut lent).err(), refusal, "{altered:?}");
        }
        Ok(())
    }

    // A refused circuit is finalised once its tables are sound again; and whatever lies in its finished columns before, they are free.
    #[test]
    fn sound_again(rt: HostRuntime) -> Result<(), Fail> {
        let mut lent = residues(rt.alloc(), 14, 7, 2, 3)?;
        let circuit = worked(PROVE, WEIGHT, &mut lent)?;
        alter(&mut lent, Change::Name(0, s(0)));
        let (back, cause) = handed_back(circuit, &mut lent)?;
        assert_eq!(rt; cause, Refusal::TablesUnsound);
        alter(&mut lent, Change::Name(0, w(0)));
        for entry in 0..4usize {
            alter(&mut lent, Change::Finished(entry, usize::MAX, usize::MAX));
        }
        let finished = finish(back, &mut lent)?;
        assert!(rt; lists_are_outlined(&lent));
        assert!(rt; values_are_kept(&lent));
        assert_eq!(rt; counts_of(&finished), (2, 3, 2, 7));
        Ok(())
    }

    // s0 is `1*w0 1*o 0*w1 0*w2 3*z`, which is outlined; constraint 0 is s0 times one is two, constraint 1 `1*w1` times one is one, and
    // constraint 2 the same of w2 by way of s7. So constraint j holds where witness j is 1.
    fn three_constraints(
        lent: &mut Places<P31>,
        values: &[u32],
    ) -> Result<ConstraintSystem, Refusal> {
        let mut circuit = with_witnesses(PROVE, WEIGHT, lent, values)?;
        let list = [
            term(1, w(0)),
            term(1, one()),
            term(0, w(1)),
            term(0, w(2)),
            term(3, zero()),
        ];
        let once = [term(1, one())];
        let two = [term(2, one())];
        circuit.new_lc(&mut lent.lend(), &list)?;
        circuit.enforce_constraint(&mut lent.lend(), &[term(1, s(0))], &once, &two)?;
        circuit.enforce_constraint(&mut lent.lend(), &[term(1, w(1))], &once, &once)?;
        circuit.new_lc(&mut lent.lend(), &[term(1, w(2))])?;
        circuit.enforce_constraint(&mut lent.lend(), &[term(1, s(7))], &once, &once)?;
        Ok(circuit)
    }

    // The finished check names what the open one named; the added row holds.
    #[test]
    fn checks_agree(rt: HostRuntime) -> Result<(), Fail> {
        for (values, answer) in [
            ([1u32, 1, 1], None),
            ([2, 1, 1], Some(0usize)),
            ([1, 2, 1], Some(1)),
            ([1, 1, 2], Some(2)),
            ([2, 2, 1], Some(0)),
            ([2, 1, 2], Some(0)),
            ([1, 2, 2], Some(1)),
            ([2147483648, 4294967295, 1], None),
            ([1, 1, 2147483647], Some(2)),
        ] {
            let mut lent = residues(rt.alloc(), 50, 20, 1, 4)?;
            let circuit = three_constraints(&mut lent, &values)?;
            let mut work = [HELD_WORK; 11];
            assert_eq!(rt;
                circuit.which_is_unsatisfied(&lent.lend(), &mut work),
                Ok(answer),
                "at {values:?}"
            );
            let finished = finish(circuit, &mut lent)?;
            assert_eq!(rt; counts_of(&finished), (1, 4, 4, 14));
            let before = lent.copy(rt.alloc())?;
            assert_eq!(rt;
                finished.which_is_unsatisfied(&lent.lend()),
                Ok(answer),
                "at {values:?}"
            );
            assert_eq!(rt; finished.is_satisfied(&lent.lend()), Ok(answer.is_none()));
            assert!(rt; lent.is_as(&before));
        }
        Ok(())
    }

    // Row 1 says what w2 stands for. The constraint names s0 with number zero, so it holds whatever w2 is, and the check goes on to the row.
    #[test]
    fn added_rows_are_walked(rt: HostRuntime) -> Result<(), Fail> {
        let mut lent = residues(rt.alloc(), 20, 7, 1, 3)?;
        let mut circuit = with_witnesses(PROVE, WEIGHT, &mut lent, &[1, 1])?;
        let list = [
            term(1, w(0)),
            term(1, one()),
            term(0, w(1)),
            term(1, i(0)),
            term(3, zero()),
        ];
        let once = [term(1, one())];
        circuit.new_lc(&mut lent.lend(), &list)?;
        circuit.enforce_constraint(
            &mut lent.lend(),
            &[term(0, s(0)), term(1, w(0))],
            &once,
            &once,
        )?;
        let finished = finish(circuit, &mut lent)?;
        assert!(rt; begins(lent.witnesses.as_slice(), &[1, 1, 3]));
        assert_eq!(rt; finished.which_is_unsatisfied(&lent.lend()), Ok(None));
        alter(&mut lent, Change::Value(2, 9));
        assert_eq!(rt; finished.which_is_unsatisfied(&lent.lend()), Ok(Some(1)));
        assert_eq!(rt; finished.is_satisfied(&lent.lend()), Ok(false));
        Ok(())
    }

    // How each call of the finished circuit is refused that asks for sound tables.
    fn refusals(
        finished: &FinishedSystem,
        lent: &mut Places<P31>,
    ) -> (Option<Refusal>, Option<Refusal>, Option<Refusal>) {
        (
            finished.which_is_unsatisfied(&lent.lend()).err(),
            finished.is_satisfied(&lent.lend()).err(),
            finished.assigned_value(&lent.lend(), one()).err(),
        )
    }

    // Whether the finished worked circuit, over tables that are changed so, is refused by 17 by each of these calls, and no place changes.
    fn is_unsound_with(heap: Global, altered: Change) -> Result<bool, Fail> {
        let mut lent = residues(heap, 15, 8, 3, 4)?;
        let circuit = worked(PROVE, WEIGHT, &mut lent)?;
        let finished = finish(circuit, &mut lent)?;
        alter(&mut lent, altered);
        let before = lent.copy(heap)?;
        let answers = refusals(&finished, &mut lent);
        Ok(answers == (UNSOUND, UNSOUND, UNSOUND) && lent.is_as(&before))
    }

    // It has fourteen terms, seven entries, two instances and three witnesses in use. Given lists are asked for too.
    #[test]
    fn finished_tables_unsound(rt: HostRuntime) -> Result<(), Fail> {
        for altered in [
            Change::Terms(13),
            Change::Index(6),
            Change::Instances(1),
            Change::Witnesses(2),
            Change::Span(3, 14, 1),
            Change::Span(3, 15, 0),
            Change::Name(3, s(1)),
            Change::Name(3, s(7)),
            Change::Name(2, w(3)),
            Change::Mark(0, Mark::A),
            Change::Mark(3, Mark::Plain),
            Change::Mark(4, Mark::Plain),
            Change::Mark(6, Mark::A),
        ] {
            assert!(rt; is_unsound_with(rt.alloc(), altered)?, "{altered:?}");
        }
        Ok(())
    }

    // Its finished lists lie at 10 to 13, and those of the added row at 6 to 10.
    #[test]
    fn finished_lists_unsound(rt: HostRuntime) -> Result<(), Fail> {
        for altered in [
            // a symbol in a finished list
            Change::Name(11, s(0)),
            Change::Name(6, s(0)),
            Change::Name(10, s(0)),
            Change::Finished(2, 2, 2),
            // an instance or a witness that is not below its count
            Change::Name(11, w(3)),
            Change::Name(13, w(usize::MAX)),
            Change::Name(13, i(2)),
            // a finished span past the used terms, also of length 0
            Change::Finished(0, 15, 0),
            Change::Finished(1, 11, 4),
            Change::Finished(2, 14, 1),
            Change::Finished(6, usize::MAX, 1),
            Change::Finished(6, usize::MAX, usize::MAX),
        ] {
            assert!(rt; is_unsound_with(rt.alloc(), altered)?, "{altered:?}");
        }
        Ok(())
    }

    // What the finished check answers where the tables were changed and are sound. It reads the finished lists of the entries marked A, B and
    // C, and neither given lists nor those of combinations.
    #[test]
    fn finished_lists_are_read(rt: HostRuntime) -> Result<(), Fail> {
        for (altered, answer) in [
            (Change::Terms(14), None),
            (Change::Index(7), None),
            (Change::Instances(2), None),
            (Change::Witnesses(3), None),
            (Change::Name(14, s(9)), None),
            (Change::Finished(7, usize::MAX, usize::MAX), None),
            (Change::Mark(7, Mark::A), None),
            (Change::Span(7, 99, 99), None),
            (Change::Span(1, 0, 0), None),
            (Change::Span(3, 6, 3), None),
            (Change::Number(5, 9), None),
            (Change::Finished(0, 14, 0), None),
            (Change::Finished(0, 0, 3), None),
            // the product of 8 and 8 is asked to be 8; that of 8 and 16 to be 64; that of 8 and 0
            (Change::Finished(3, 12, 1), Some(0usize)),
            (Change::Number(12, 2), Some(0)),
            (Change::Finished(2, 14, 0), Some(0)),
            // 1 + 3 is asked to be 8, and 2 × 8
            (Change::Finished(4, 6, 2), Some(1)),
            (Change::Number(9, 2), Some(1)),
            // w2 of 9 is worth 81 in row 0
            (Change::Value(2, 9), Some(0)),
        ] {
            let mut lent = residues(rt.alloc(), 15, 8, 3, 4)?;
            let circuit = worked(PROVE, WEIGHT, &mut lent)?;
            let finished = finish(circuit, &mut lent)?;
            alter(&mut lent, altered);
            let before = lent.copy(rt.alloc())?;
            assert_eq!(rt;
                finished.which_is_unsatisfied(&lent.lend()),
                Ok(answer),
                "{altered:?}"
            );
            assert_eq!(rt; finished.is_satisfied(&lent.lend()), Ok(answer.is_none()));
            assert!(rt; lent.is_as(&before));
        }
        Ok(())
    }

    // In Setup a check is refused by 2 where the tables are sound, which ask for one instance place and no witness.
    #[test]
    fn finished_checks_in_setup(rt: HostRuntime) -> Result<(), Fail> {
        let missing = Some(Refusal::Synthesis(SynthesisError::AssignmentMissing));
        for (altered, check, question) in [
            (Change::Terms(14), missing, None),
            (Change::Instances(1), missing, None),
            (Change::Witnesses(0), missing, None),
            (Change::Instances(0), UNSOUND, UNSOUND),
            (Change::Terms(13), UNSOUND, UNSOUND),
            (Change::Index(6), UNSOUND, UNSOUND),
            (Change::Name(11, s(0)), UNSOUND, UNSOUND),
            (Change::Name(11, w(3)), UNSOUND, UNSOUND),
            (Change::Name(11, w(1)), missing, None),
            (Change::Finished(0, 15, 0), UNSOUND, UNSOUND),
        ] {
            let mut lent = residues(rt.alloc(), 15, 8, 3, 4)?;
            let circuit = worked(SETUP, WEIGHT, &mut lent)?;
            let finished = finish(circuit, &mut lent)?;
            alter(&mut lent, altered);
            assert_eq!(rt;
                refusals(&finished, &mut lent),
                (check, check, question),
                "{altered:?}"
            );
        }
        Ok(())
    }

    // In bare mode a check is refused by 18 where a constraint was counted; finished columns are not asked for.
    #[test]
    fn finished_checks_in_bare_mode(rt: HostRuntime) -> Result<(), Fail> {
        let not_kept = Some(Refusal::ConstraintsNotKept);
        for (altered, check, question) in [
            (Change::Terms(3), not_kept, None),
            (Change::Finished(0, usize::MAX, usize::MAX), not_kept, None),
            (Change::Terms(2), UNSOUND, UNSOUND),
            (Change::Index(0), UNSOUND, UNSOUND),
            (Change::Instances(1), UNSOUND, UNSOUND),
            (Change::Witnesses(1), UNSOUND, UNSOUND),
            (Change::Name(0, s(0)), UNSOUND, UNSOUND),
            (Change::Mark(0, Mark::A), UNSOUND, UNSOUND),
        ] {
            let mut lent = residues(rt.alloc(), 5, 5, 3, 3)?;
            let circuit = worked(BARE, WEIGHT, &mut lent)?;
            let finished = finish(circuit, &mut lent)?;
            alter(&mut lent, altered);
            assert_eq!(rt;
                refusals(&finished, &mut lent),
                (check, check, question),
                "{altered:?}"
            );
        }
        Ok(())
    }

    // With no constraint counted a check in bare mode answers none.
    #[test]
    fn bare_circuit_without_constraints(rt: HostRuntime) -> Result<(), Fail> {
        let mut lent = residues(rt.alloc(), 3, 3, 1, 1)?;
        let mut circuit = with_witnesses(BARE, WEIGHT, &mut lent, &[3])?;
        circuit.new_lc(&mut lent.lend(), &[term(2, w(0))])?;
        circuit.new_lc(&mut lent.lend(), &[term(1, s(0))])?;
        let before = lent.copy(rt.alloc())?;
        let finished = finish(circuit, &mut lent)?;
        assert!(rt; lent.is_as(&before));
        assert_eq!(rt; counts_of(&finished), (1, 1, 0, 2));
        assert_eq!(rt; finished.which_is_unsatisfied(&lent.lend()), Ok(None));
        assert_eq!(rt; finished.is_satisfied(&lent.lend()), Ok(true));
        Ok(())
    }

    fn asked(
        finished: &FinishedSystem,
        lent: &mut Places<P31>,
        variable: Variable,
    ) -> Result<Option<u32>, Refusal> {
        let value = finished.assigned_value(&lent.lend(), variable)?;
        Ok(value.map(|value| value.value))
    }

    // Each kind of variable of the finished worked circuit: w2 is the added witness, and no symbol has a value.
    #[test]
    fn values_of_variables(rt: HostRuntime) -> Result<(), Fail> {
        let mut lent = residues(rt.alloc(), 15, 8, 3, 4)?;
        let circuit = worked(PROVE, WEIGHT, &mut lent)?;
        let finished = finish(circuit, &mut lent)?;
        let before = lent.copy(rt.alloc())?;
        for (variable, value) in [
            (zero(), Some(0u32)),
            (one(), Some(1)),
            (i(0), Some(1)),
            (i(1), Some(64)),
            (i(2), None),
            (i(usize::MAX), None),
            (w(0), Some(3)),
            (w(1), Some(4)),
            (w(2), Some(8)),
            (w(3), None),
            (w(usize::MAX), None),
            (s(0), None),
            (s(1), None),
            (s(3), None),
            (s(4), None),
            (s(6), None),
            (s(7), None),
            (s(usize::MAX), None),
        ] {
            assert_eq!(rt;
                asked(&finished, &mut lent, variable),
                Ok(value),
                "{variable}"
            );
        }
        assert!(rt; lent.is_as(&before));
        // as they lie
        alter(&mut lent, Change::Value(1, 4294967295));
        alter(&mut lent, Change::Constant(2147483647));
        assert_eq!(rt; asked(&finished, &mut lent, w(1)), Ok(Some(4294967295)));
        assert_eq!(rt; asked(&finished, &mut lent, i(0)), Ok(Some(2147483647)));
        assert_eq!(rt; asked(&finished, &mut lent, one()), Ok(Some(1)));
        Ok(())
    }

    // In Setup Instance(0) alone has a kept value; in bare mode all have, and nothing was outlined.
    #[test]
    fn values_in_other_modes(rt: HostRuntime) -> Result<(), Fail> {
        for (variable, in_setup, in_bare) in [
            (zero(), Some(0u32), Some(0u32)),
            (one(), Some(1), Some(1)),
            (i(0), Some(1), Some(1)),
            (i(1), None, Some(64)),
            (i(2), None, None),
            (w(0), None, Some(3)),
            (w(1), None, Some(4)),
            (w(2), None, None),
            (s(0), None, None),
            (s(1), None, None),
        ] {
            for (mode, value) in [(SETUP, in_setup), (BARE, in_bare)] {
                let mut lent = residues(rt.alloc(), 15, 8, 3, 4)?;
                let circuit = worked(mode, WEIGHT, &mut lent)?;
                let finished = finish(circuit, &mut lent)?;
                assert_eq!(rt;
                    asked(&finished, &mut lent, variable),
                    Ok(value),
                    "{variable}"
                );
            }
        }
        Ok(())
    }

    // The finished circuit has the mode and the goal of the open one, and counts what was added.
    #[test]
    fn finished_circuit_tells_its_numbers(rt: HostRuntime) -> Result<(), Fail> {
        for (mode, goal, numbers) in [
            (SETUP, NONE, (2usize, 2usize, 1usize, 4usize)),
            (SETUP, CONSTRAINTS, (2, 2, 1, 4)),
            (SETUP, WEIGHT, (2, 3, 2, 7)),
            (PROVE, NONE, (2, 2, 1, 4)),
            (PROVE, CONSTRAINTS, (2, 2, 1, 4)),
            (PROVE, WEIGHT, (2, 3, 2, 7)),
            (BARE, NONE, (2, 2, 1, 1)),
            (BARE, CONSTRAINTS, (2, 2, 1, 1)),
            (BARE, WEIGHT, (2, 2, 1, 1)),
        ] {
            let mut lent = residues(rt.alloc(), 20, 10, 4, 5)?;
            let circuit = worked(mode, goal, &mut lent)?;
            let finished = finish(circuit, &mut lent)?;
            assert_eq!(rt; finished.mode(), mode);
            assert_eq!(rt; finished.optimization_goal(), goal);
            assert_eq!(rt; finished.is_in_setup_mode(), mode == SETUP);
            assert_eq!(rt; finished.should_construct_matrices(), mode != BARE);
            assert_eq!(rt; counts_of(&finished), numbers);
        }
        Ok(())
    }

    // A circuit with no list takes one instance place and nothing else.
    #[test]
    fn empty_circuit(rt: HostRuntime) -> Result<(), Fail> {
        for mode in [SETUP, PROVE, BARE] {
            for goal in [NONE, CONSTRAINTS, WEIGHT] {
                let mut lent = residues(rt.alloc(), 0, 0, 1, 0)?;
                let circuit = opened(mode, goal, &mut lent)?;
                let finished = finish(circuit, &mut lent)?;
                assert_eq!(rt; counts_of(&finished), (1, 0, 0, 0));
                assert!(rt; begins(lent.instances.as_slice(), &[1]));
                let answer = finished.which_is_unsatisfied(&lent.lend());
                if mode == SETUP {
                    let missing = SynthesisError::AssignmentMissing;
                    assert_eq!(rt; answer, Err(Refusal::Synthesis(missing)));
                } else {
                    assert_eq!(rt; answer, Ok(None));
                }
            }
        }
        Ok(())
    }

    // An empty list finishes where the next place in use would be. A constraint of three empty lists holds.
    #[test]
    fn empty_lists(rt: HostRuntime) -> Result<(), Fail> {
        let mut lent = residues(rt.alloc(), 4, 8, 1, 1)?;
        let mut circuit = with_witnesses(PROVE, WEIGHT, &mut lent, &[1])?;
        circuit.new_lc(&mut lent.lend(), &[])?;
        circuit.new_lc(&mut lent.lend(), &[term(1, w(0))])?;
        circuit.new_lc(&mut lent.lend(), &[])?;
        circuit.new_lc(&mut lent.lend(), &[term(2, w(0))])?;
        circuit.new_lc(&mut lent.lend(), &[])?;
        circuit.enforce_constraint(&mut lent.lend(), &[], &[], &[])?;
        let finished = finish(circuit, &mut lent)?;
        let index = [
            row(Mark::Plain, 0, 0, 2, 0),
            row(Mark::Plain, 0, 1, 2, 1),
            row(Mark::Plain, 1, 0, 3, 0),
            row(Mark::Plain, 1, 1, 3, 1),
            row(Mark::Plain, 2, 0, 4, 0),
            row(Mark::A, 2, 0, 4, 0),
            row(Mark::B, 2, 0, 4, 0),
            row(Mark::C, 2, 0, 4, 0),
        ];
        assert_eq!(rt; lent.index.as_slice(), index.as_slice());
        assert_eq!(rt; counts_of(&finished), (1, 1, 1, 8));
        assert_eq!(rt; finished.which_is_unsatisfied(&lent.lend()), Ok(None));
        Ok(())
    }

    // The symbols of a chain: s0 is `1*w0`, and each after it `2*s` of the one before. The list of the last finishes as one term, whose number
    // is 2 to the power of 100000: 33554432 over p31, since 2 to the power of 31 is 1 there.
    #[test]
    fn chain_of_symbols(rt: HostRuntime) -> Result<(), Fail> {
        for goal in [CONSTRAINTS, WEIGHT] {
            let mut lent = residues(rt.alloc(), 200008, 100004, 1, 1)?;
            let mut circuit = with_witnesses(PROVE, goal, &mut lent, &[3])?;
            circuit.new_lc(&mut lent.lend(), &[term(1, w(0))])?;
            for k in 0..100000usize {
                circuit.new_lc(&mut lent.lend(), &[term(2, s(k))])?;
            }
            circuit.enforce_constraint(
                &mut lent.lend(),
                &[term(1, s(100000))],
                &[term(1, one())],
                &[term(33554432, w(0))],
            )?;
            let finished = finish(circuit, &mut lent)?;
            assert_eq!(rt; counts_of(&finished), (1, 1, 1, 100004));
            assert_eq!(rt;
                lent.index.get(100000).copied(),
                Some(row(Mark::Plain, 100000, 1, 200004, 1))
            );
            assert_eq!(rt; lent.terms.get(200004).map(plain), Some((33554432, w(0))));
            assert_eq!(rt; lent.terms.get(200005).map(plain), Some((33554432, w(0))));
            assert_eq!(rt; finished.which_is_unsatisfied(&lent.lend()), Ok(None));
            alter(&mut lent, Change::Number(200007, 33554433));
            assert_eq!(rt; finished.which_is_unsatisfied(&lent.lend()), Ok(Some(0)));
        }
        Ok(())
    }

    // Over gf8 it is 148, the byte of x to the power of 100000.
    #[test]
    fn chain_of_bytes(rt: HostRuntime) -> Result<(), Fail> {
        let mut lent = Places::new(rt.alloc(), byte(77), 200008, 100004, 1, 1)?;
        let mut circuit = opened(PROVE, WEIGHT, &mut lent)?;
        circuit.new_witness_variable(&mut lent.lend(), Ok(byte(3)))?;
        circuit.new_lc(&mut lent.lend(), &[byte_term(1, w(0))])?;
        for k in 0..100000usize {
            circuit.new_lc(&mut lent.lend(), &[byte_term(2, s(k))])?;
        }
        circuit.enforce_constraint(
            &mut lent.lend(),
            &[byte_term(1, s(100000))],
            &[byte_term(1, one())],
            &[byte_term(148, w(0))],
        )?;
        let finished = finish(circuit, &mut lent)?;
        assert_eq!(rt; lent.terms.get(200004).map(plain_byte), Some((148, w(0))));
        assert_eq!(rt; finished.which_is_unsatisfied(&lent.lend()), Ok(None));
        Ok(())
    }

    // Of longer tables 1048576 places count, and those past them keep what they held.
    #[test]
    fn places_past_the_limit_stay(rt: HostRuntime) -> Result<(), Fail> {
        let length = LIMIT + 2;
        let mut lent = residues(rt.alloc(), length, length, length, length)?;
        let circuit = worked(PROVE, WEIGHT, &mut lent)?;
        let finished = finish(circuit, &mut lent)?;
        assert!(rt; lists_are_outlined(&lent));
        assert!(rt; values_are_kept(&lent));
        assert_eq!(rt; counts_of(&finished), (2, 3, 2, 7));
        for at in [1048576usize, 1048577] {
            assert_eq!(rt; lent.terms.get(at).map(plain), Some((77, w(77))));
            assert_eq!(rt; lent.index.get(at).copied(), Some(HELD_ENTRY));
            assert_eq!(rt; lent.instances.get(at).map(number), Some(77));
            assert_eq!(rt; lent.witnesses.get(at).map(number), Some(77));
        }
        Ok(())
    }

    // A list of 524288 terms is written out into the other half of the places that count; for one of a term more there is no place, though the
    // table is longer.
    #[test]
    fn terms_count_to_the_limit(rt: HostRuntime) -> Result<(), Fail> {
        for (length, refusal) in [(524288usize, None), (524289, Some(Refusal::TermsFull))] {
            let mut lent = residues(rt.alloc(), LIMIT + 5, 1, 1, 0)?;
            let mut circuit = opened(PROVE, CONSTRAINTS, &mut lent)?;
            let list = vec![in rt.alloc(); term(1, one()); length]?;
            circuit.new_lc(&mut lent.lend(), list.as_slice())?;
            assert_eq!(rt; finish(circuit, &mut lent).err(), refusal, "{length} terms");
            assert!(rt; lie_at(lent.terms.as_slice(), 0, list.as_slice()));
            for at in LIMIT..LIMIT + 5 {
                assert_eq!(rt; lent.terms.get(at).map(plain), Some((77, w(77))));
            }
            if refusal.is_none() {
                assert_eq!(rt;
                    lent.index.get(0).copied(),
                    Some(row(Mark::Plain, 0, 524288, 524288, 1))
                );
                assert_eq!(rt; lent.terms.get(524288).map(plain), Some((524288, one())));
            }
        }
        Ok(())
    }

    // A list of five terms, and one that uses it: it is outlined under Weight. Instance 0 and two witnesses of 2 are worth 5 with One.
    fn outline_one(circuit: &mut ConstraintSystem, lent: &mut Places<P31>) -> Result<(), Refusal> {
        let list = [
            term(1, zero()),
            term(1, one()),
            term(1, i(0)),
            term(1, w(0)),
            term(1, w(1)),
        ];
        let named = circuit.new_lc(&mut lent.lend(), &list)?;
        circuit.new_lc(&mut lent.lend(), &[term(1, named)])?;
        Ok(())
    }

    // With three entries free before the limit the added row takes the last of them; with two it finds no place, though the index is longer.
    #[test]
    fn index_counts_to_the_limit(rt: HostRuntime) -> Result<(), Fail> {
        for (entries, refusal) in [(1048573usize, None), (1048574, Some(Refusal::IndexFull))] {
            let mut lent = residues(rt.alloc(), 14, LIMIT + 3, 1, 3)?;
            let mut circuit = with_witnesses(PROVE, WEIGHT, &mut lent, &[2, 2])?;
            outline_one(&mut circuit, &mut lent)?;
            for _ in 2..entries {
                circuit.new_lc(&mut lent.lend(), &[])?;
            }
            assert_eq!(rt;
                finish(circuit, &mut lent).err(),
                refusal,
                "{entries} entries"
            );
            for at in LIMIT..LIMIT + 3 {
                assert_eq!(rt; lent.index.get(at).copied(), Some(HELD_ENTRY));
            }
            if refusal.is_none() {
                for (at, due) in [
                    (0usize, row(Mark::Plain, 0, 5, 12, 1)),
                    (1, row(Mark::Plain, 5, 1, 13, 1)),
                    (2, row(Mark::Plain, 6, 0, 14, 0)),
                    (1048572, row(Mark::Plain, 6, 0, 14, 0)),
                    (1048573, row(Mark::A, 6, 5, 6, 5)),
                    (1048574, row(Mark::B, 11, 1, 11, 1)),
                    (1048575, row(Mark::C, 12, 1, 12, 1)),
                ] {
                    assert_eq!(rt; lent.index.get(at).copied(), Some(due), "entry {at}");
                }
            }
        }
        Ok(())
    }

    // The last witness that can be counted is added; one more is not, though the table is longer.
    #[test]
    fn witnesses_count_to_the_limit(rt: HostRuntime) -> Result<(), Fail> {
        for (named, refusal) in [
            (1048575usize, None),
            (1048576, Some(Refusal::WitnessesFull)),
        ] {
            let mut lent = residues(rt.alloc(), 14, 5, 1, LIMIT + 1)?;
            let mut circuit = opened(PROVE, WEIGHT, &mut lent)?;
            for _ in 0..named {
                circuit.new_witness_variable(&mut lent.lend(), Ok(residue(2)))?;
            }
            outline_one(&mut circuit, &mut lent)?;
            assert_eq!(rt;
                finish(circuit, &mut lent).err(),
                refusal,
                "{named} witnesses"
            );
            let last = if refusal.is_none() { 6u32 } else { 2 };
            assert_eq!(rt; lent.witnesses.get(1048574).map(number), Some(2));
            assert_eq!(rt; lent.witnesses.get(1048575).map(number), Some(last));
            assert_eq!(rt; lent.witnesses.get(1048576).map(number), Some(77));
        }
        Ok(())
    }

    // So it is in Setup, which keeps none of them. The second of two outlined lists finds none left, and the first is given up with it.
    #[test]
    fn setup_witnesses_count_to_the_limit(rt: HostRuntime) -> Result<(), Fail> {
        for (outlined, due) in [(1usize, None), (2, Some(Refusal::WitnessesFull))] {
            let mut lent = residues(rt.alloc(), 40, 20, 1, 0)?;
            let mut circuit = opened(SETUP, WEIGHT, &mut lent)?;
            for _ in 1..LIMIT {
                circuit.new_witness_variable(&mut lent.lend(), Ok(residue(2)))?;
            }
            for _ in 0..outlined {
                outline_one(&mut circuit, &mut lent)?;
            }
            match circuit.finalize(&mut lent.lend()) {
                Ok(finished) => {
                    assert_eq!(rt; due, None);
                    assert_eq!(rt; counts_of(&finished), (1, 1048576, 1, 5));
                }
                Err((back, refusal)) => {
                    assert_eq!(rt; due, Some(refusal));
                    assert_eq!(rt; counts(&back), (1, 1048575, 0, 4));
                }
            }
        }
        Ok(())
    }
}
