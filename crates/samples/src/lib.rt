#![tactic(auto)]

// Worked samples and boundaries of the fields and of lists under work, as tests. The products and sums of gf8 are those of FIPS 197,
// sections 4.1 and 4.2.

#[cfg(test)]
mod tests {
    use field::{Field, NotAMember};
    use gf8::Gf8;
    use p31::P31;
    use relations::{
        Assignment, LcIndex, LinearCombination, Refusal, SynthesisError, Term, Variable,
    };
    use std::test::Fail;

    fn byte(value: u8) -> Gf8 {
        Gf8 { value }
    }

    fn residue(value: u32) -> P31 {
        P31 { value }
    }

    fn term(number: u32, variable: Variable) -> Term<P31> {
        Term {
            number: residue(number),
            variable,
        }
    }

    fn one() -> Variable {
        Variable::One
    }

    fn w(number: usize) -> Variable {
        Variable::Witness(number)
    }

    // by the numbers as they lie: P31 has no `==`, since two of them may stand for one member
    fn plain(term: &Term<P31>) -> (u32, Variable) {
        (term.number.value, term.variable)
    }

    fn is(found: &[Term<P31>], expected: &[Term<P31>]) -> bool {
        found.iter().map(plain).eq(expected.iter().map(plain))
    }

    #[test]
    fn bytes_of_the_standard(rt: HostRuntime) {
        assert_eq!(rt; byte(0x57).sum(byte(0x83)).value, 0xd4);
        assert_eq!(rt; byte(0x57).product(byte(0x83)).value, 0xc1);
        assert_eq!(rt; byte(0x57).product(byte(0x13)).value, 0xfe);
        assert_eq!(rt; byte(0x57).product(byte(0x02)).value, 0xae);
        assert_eq!(rt; byte(0x57).product(byte(0x04)).value, 0x47);
        assert_eq!(rt; byte(0x57).product(byte(0x08)).value, 0x8e);
        assert_eq!(rt; byte(0x57).product(byte(0x10)).value, 0x07);
        assert_eq!(rt; byte(0xff).negative().value, 0xff);
    }

    #[test]
    fn residues(rt: HostRuntime) {
        assert_eq!(rt; residue(2147483646).product(residue(2147483646)).value, 1);
        assert_eq!(rt; residue(2147483646).sum(residue(1)).value, 0);
        assert_eq!(rt; residue(0).negative().value, 0);
        assert!(rt; residue(2147483647).same(residue(0)));
        assert!(rt; residue(u32::MAX).same(residue(1)));
        assert!(rt; !residue(2).same(residue(1)));
        assert_eq!(rt; residue(u32::MAX).product(residue(u32::MAX)).value, 1);
    }

    #[test]
    fn order_of_variables(rt: HostRuntime) {
        assert!(rt; Variable::Zero < Variable::One);
        assert!(rt; Variable::One < Variable::Instance(0));
        assert!(rt; Variable::Instance(usize::MAX) < Variable::Witness(0));
        assert!(rt; Variable::Witness(3) < Variable::Witness(4));
        assert!(rt; !Variable::Witness(4).is_below(Variable::Witness(4)));
    }

    #[test]
    fn columns(rt: HostRuntime) {
        assert_eq!(rt; Variable::Witness(1).get_index_unchecked(7), Some(8));
        assert_eq!(rt; Variable::Witness(1).get_index_unchecked(usize::MAX), None);
        assert_eq!(rt;
            Variable::Instance(usize::MAX).get_index_unchecked(1),
            Some(usize::MAX)
        );
        assert_eq!(rt; Variable::Zero.get_index_unchecked(0), None);
    }

    // Under six terms a term goes before its equal.
    #[test]
    fn short_list_repeats(rt: HostRuntime) {
        let mut places = [term(1, one()), term(2, w(0)), term(9, w(9))];
        let mut list = LinearCombination::new(&mut places);
        assert_eq!(rt; list.assign(&[term(1, one()), term(2, w(0))]), Ok(()));
        assert_eq!(rt; list.add_term(term(3, w(0))), Ok(()));
        assert!(rt;
            is(
                list.terms(),
                &[term(1, one()), term(3, w(0)), term(2, w(0))],
            )
        );
        assert_eq!(rt; list.add_term(w(1)), Err(Refusal::TableTooShort));
        assert!(rt;
            is(
                list.terms(),
                &[term(1, one()), term(3, w(0)), term(2, w(0))],
            )
        );
    }

    // From six terms on an equal variable gains the number, and no place is needed.
    #[test]
    fn long_list_gains(rt: HostRuntime) {
        let mut places = [
            term(1, w(0)),
            term(1, w(1)),
            term(1, w(2)),
            term(1, w(3)),
            term(1, w(4)),
            term(1, w(5)),
        ];
        let mut list = LinearCombination::whole(&mut places);
        assert_eq!(rt; list.get_var_loc(w(5)), Ok(5));
        assert_eq!(rt; list.get_var_loc(w(6)), Err(6));
        assert_eq!(rt; list.sub_term(term(3, w(5))), Ok(()));
        assert_eq!(rt; list.add_term(w(6)), Err(Refusal::TableTooShort));
        assert!(rt;
            is(
                list.terms(),
                &[
                    term(1, w(0)),
                    term(1, w(1)),
                    term(1, w(2)),
                    term(1, w(3)),
                    term(1, w(4)),
                    term(2147483645, w(5)),
                ],
            )
        );
    }

    #[test]
    fn cancelled_terms_stay(rt: HostRuntime) {
        let mut places = [term(2, w(0)), term(2147483645, w(0))];
        let mut list = LinearCombination::whole(&mut places);
        list.compactify();
        assert!(rt; is(list.terms(), &[term(0, w(0))]));
        assert!(rt; is(&places, &[term(0, w(0)), term(0, Variable::Zero)]));
    }

    #[test]
    fn compactify_sorts_and_joins(rt: HostRuntime) {
        let mut places = [
            term(5, w(1)),
            term(1, one()),
            term(2, w(0)),
            term(7, w(1)),
            term(4, one()),
        ];
        let mut list = LinearCombination::whole(&mut places);
        list.compactify();
        assert!(rt;
            is(
                list.terms(),
                &[term(5, one()), term(2, w(0)), term(12, w(1))],
            )
        );
    }

    // A merge needs exactly the merged length.
    #[test]
    fn merges_fit_exactly(rt: HostRuntime) {
        let left = [term(1, one()), term(2, w(0))];
        let right = [term(3, w(0)), term(4, w(1))];
        let mut two = [term(8, w(8)), term(9, w(9))];
        let mut short = LinearCombination::new(&mut two);
        assert_eq!(rt;
            short.assign_sum(&left, &right),
            Err(Refusal::TableTooShort)
        );
        assert!(rt; short.is_empty());
        assert!(rt; is(&two, &[term(8, w(8)), term(9, w(9))]));
        let mut three = [term(7, w(7)), term(8, w(8)), term(9, w(9))];
        let mut list = LinearCombination::new(&mut three);
        assert_eq!(rt; list.assign_sum(&left, &right), Ok(()));
        assert!(rt;
            is(
                list.terms(),
                &[term(1, one()), term(5, w(0)), term(4, w(1))],
            )
        );
        assert_eq!(rt;
            list.assign_difference_scaled(&left, residue(2), &right),
            Ok(())
        );
        assert!(rt;
            is(
                list.terms(),
                &[
                    term(1, one()),
                    term(2147483643, w(0)),
                    term(2147483639, w(1)),
                ],
            )
        );
    }

    #[test]
    fn empty_lists(rt: HostRuntime) {
        let mut none: [Term<P31>; 0] = [];
        let mut list = LinearCombination::zero(&mut none);
        list.negate_in_place();
        list.mul_assign(residue(3));
        list.compactify();
        assert_eq!(rt; list.assign_sum(&[], &[]), Ok(()));
        assert_eq!(rt; list.assign_term(one()), Err(Refusal::TableTooShort));
        assert_eq!(rt; list.len(), 0);
        assert_eq!(rt; list.capacity(), 0);
    }

    // The same list functions over the bytes.
    #[test]
    fn lists_of_bytes(rt: HostRuntime) -> Result<(), Fail> {
        let mut places = [
            Term::from((byte(0x57), w(0))),
            Term::from((byte(0x83), w(0))),
        ];
        let mut list = LinearCombination::whole(&mut places);
        list.mul_assign(byte(0x02));
        list.compactify();
        assert_eq!(rt; list.len(), 1);
        let kept = Assignment {
            instances: &[],
            witnesses: &[byte(0x01)],
        };
        let worth = list.worth(&kept).ok_or("not kept")?;
        assert_eq!(rt; worth.value, 0xb3);
        Ok(())
    }

    #[test]
    fn worth_at_values(rt: HostRuntime) -> Result<(), Fail> {
        let mut places = [
            term(2, one()),
            term(3, w(1)),
            term(5, Variable::Instance(0)),
        ];
        let list = LinearCombination::whole(&mut places);
        let kept = Assignment {
            instances: &[residue(7)],
            witnesses: &[residue(1), residue(11)],
        };
        let worth = list.worth(&kept).ok_or("not kept")?;
        assert_eq!(rt; worth.value, 70);
        let fewer = Assignment {
            instances: &[residue(7)],
            witnesses: &[residue(1)],
        };
        assert!(rt; list.worth(&fewer).is_none());
        Ok(())
    }

    #[test]
    fn numbers_of_members(rt: HostRuntime) {
        assert_eq!(rt;
            P31::try_from(2147483646u64).map(|a| a.value),
            Ok(2147483646)
        );
        assert_eq!(rt;
            P31::try_from(2147483647u64).map(|a| a.value),
            Err(NotAMember(2147483647))
        );
        assert_eq!(rt;
            P31::try_from(4294967296u64).map(|a| a.value),
            Err(NotAMember(4294967296))
        );
        assert_eq!(rt; Gf8::try_from(255u64).map(|a| a.value), Ok(255));
        assert_eq!(rt;
            Gf8::try_from(256u64).map(|a| a.value),
            Err(NotAMember(256))
        );
        assert_eq!(rt; Refusal::TableTooShort.number(), 19);
    }

    #[test]
    fn texts(rt: HostRuntime) -> Result<(), Fail> {
        let mut places = [
            term(2147483646, Variable::Zero),
            term(0, one()),
            term(1, Variable::Instance(0)),
            term(7, w(12)),
            term(9, Variable::SymbolicLc(LcIndex(usize::MAX))),
        ];
        let list = LinearCombination::whole(&mut places);
        let text = list.to_string(rt.alloc())?;
        assert_eq!(rt;
            text.as_str(),
            "2147483646*z 0*o 1*i0 7*w12 9*s18446744073709551615"
        );
        let bytes = Term::from((byte(0xfe), Variable::SymbolicLc(LcIndex(0)))).to_string(
            rt.alloc(),
        )?;
        assert_eq!(rt; bytes.as_str(), "254*s0");
        let number = NotAMember(256).to_string(rt.alloc())?;
        assert_eq!(rt; number.as_str(), "256 is no number of the field");
        let refusal = Refusal::TableTooShort.to_string(rt.alloc())?;
        assert_eq!(rt; refusal.as_str(), "a lent table is too short");
        let mut none: [Term<Gf8>; 0] = [];
        let empty = LinearCombination::whole(&mut none).to_string(rt.alloc())?;
        assert_eq!(rt; empty.as_str(), "");
        Ok(())
    }

    // The texts are those of the Rust, and the number of an error is its place, from 1. A refusal by an error has its number and text.
    #[test]
    fn error_texts(rt: HostRuntime) -> Result<(), Fail> {
        let errors = [
            SynthesisError::MissingCS,
            SynthesisError::AssignmentMissing,
            SynthesisError::DivisionByZero,
            SynthesisError::Unsatisfiable,
            SynthesisError::PolynomialDegreeTooLarge,
            SynthesisError::UnexpectedIdentity,
            SynthesisError::MalformedVerifyingKey,
            SynthesisError::UnconstrainedVariable,
        ];
        let texts = [
            "the constraint system was `None`",
            "an assignment for a variable could not be computed",
            "division by zero",
            "unsatisfiable constraint system",
            "polynomial degree is too large",
            "encountered an identity element in the CRS",
            "malformed verifying key",
            "auxiliary variable was unconstrained",
        ];
        let numbers = [1u8, 2, 3, 4, 5, 6, 7, 8];
        for at in 0..8usize {
            let text = errors[at].to_string(rt.alloc())?;
            assert_eq!(rt; text.as_str(), texts[at]);
            assert_eq!(rt; errors[at].number(), numbers[at]);
            let refusal = Refusal::from(errors[at]);
            let text = refusal.to_string(rt.alloc())?;
            assert_eq!(rt; text.as_str(), texts[at]);
            assert_eq!(rt; refusal.number(), numbers[at]);
        }
        Ok(())
    }

    #[test]
    fn refusal_texts(rt: HostRuntime) -> Result<(), Fail> {
        let refusals = [
            Refusal::SetTooLate,
            Refusal::InstancesFull,
            Refusal::WitnessesFull,
            Refusal::IndexFull,
            Refusal::TermsFull,
            Refusal::UnknownVariable { list: 2, term: 10 },
            Refusal::ConstraintList {
                list: 0,
                term: usize::MAX,
            },
            Refusal::TablesUnsound,
            Refusal::ConstraintsNotKept,
            Refusal::TableTooShort,
            Refusal::ConstraintsFull,
        ];
        let texts = [
            "mode or goal set after a variable, a combination or a constraint",
            "no place for another instance variable",
            "no place for another witness variable",
            "too few free index entries",
            "too few free term places",
            "unknown variable in list 2, term 10",
            "constraint's own list in list 0, term 18446744073709551615",
            "the lent tables are not sound",
            "constraints are counted and not kept",
            "a lent table is too short",
            "no place for another constraint",
        ];
        let numbers = [10u8, 11, 12, 13, 14, 15, 16, 17, 18, 19, 20];
        for at in 0..11usize {
            let text = refusals[at].to_string(rt.alloc())?;
            assert_eq!(rt; text.as_str(), texts[at]);
            assert_eq!(rt; refusals[at].number(), numbers[at]);
        }
        Ok(())
    }
}
