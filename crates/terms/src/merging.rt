ghost use Rattle.std.specs.Iterator.{YieldsFirst, item_count};
ghost use Rattle.terms.specs.Merging.{rest};

use crate::combine::Combine;
use field::Field;
use std::cmp::Ordering;
use variables::Term;

// The merge of two lists, a term at a time, with what is left of each.
#[derive(Drop)]
pub struct Merge<'a, F, C> {
    pub with: &'a C,
    pub left: &'a [Term<F>],
    pub right: &'a [Term<F>],
}

impl<'a, F: Field, C: Combine<F>> Iterator for Merge<'a, F, C> {
    type Item = Term<F>;

    ghost next_gives = { YieldsFirst (rest C.pushing C.combining) };

    ghost remaining = { item_count (rest C.pushing C.combining) };

    // a list that is used up has arms of its own: it has no first term to compare
    fn next(&mut self) -> Option<Term<F>> {
        match (self.left, self.right) {
            ([x, left @ ..], [y, right @ ..]) => match x.variable.cmp(&y.variable) {
                Ordering::Less => {
                    self.left = left;
                    Some(*x)
                }
                Ordering::Equal => {
                    self.left = left;
                    self.right = right;
                    Some(Term {
                        number: self.with.combine(x.number, y.number),
                        variable: x.variable,
                    })
                }
                Ordering::Greater => {
                    self.right = right;
                    Some(Term {
                        number: self.with.push(y.number),
                        variable: y.variable,
                    })
                }
            },
            ([x, left @ ..], []) => {
                self.left = left;
                Some(*x)
            }
            ([], [y, right @ ..]) => {
                self.right = right;
                Some(Term {
                    number: self.with.push(y.number),
                    variable: y.variable,
                })
            }
            ([], []) => None,
        }
    }
}
