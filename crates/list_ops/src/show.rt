// Answers as text.
use relations::{LcIndex, Variable};
use std::cmp::Ordering;
use std::fmt;

// A number, or the word none: an `Option` does not print.
#[derive(Drop)]
struct Perhaps(Option<usize>);

impl fmt::Display for Perhaps {
    fn fmt<W: fmt::Write>(&self, f: &mut fmt::Formatter<W>) -> fmt::Result {
        match self.0 {
            Some(n) => write!(f, "{n}"),
            None => f.write_str("none"),
        }
    }
}

// What a variable answers to each question, the last with seven instances: a line of this program alone, for which nothing is derived.
#[derive(Drop)]
pub struct Asked(pub Variable);

impl fmt::Display for Asked {
    fn fmt<W: fmt::Write>(&self, f: &mut fmt::Formatter<W>) -> fmt::Result {
        let zero = u8::from(self.0.is_zero());
        let one = u8::from(self.0.is_one());
        let instance = u8::from(self.0.is_instance());
        let witness = u8::from(self.0.is_witness());
        let lc = u8::from(self.0.is_lc());
        write!(f, "{zero} {one} {instance} {witness} {lc} ")?;
        let lc_index = Perhaps(self.0.get_lc_index().map(|LcIndex(k)| k));
        let index = Perhaps(self.0.get_index_unchecked(7));
        write!(f, "{lc_index} {index}")
    }
}

// The order of two variables in a word.
pub(crate) fn order(order: Ordering) -> &'static str {
    match order {
        Ordering::Less => "less",
        Ordering::Equal => "equal",
        Ordering::Greater => "greater",
    }
}
