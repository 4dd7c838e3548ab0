// A field whose members are read and printed as numbers.
use field::{Field, NotAMember};
use gf8::Gf8;
use p31::P31;
use std::fmt::Display;

pub trait Number: Field + TryFrom<u64, Error = NotAMember> + Display {}

// one for each: with one for every such type a call at `P31` gets no proof ("a type names a struct or an enum that its function's table
// lacks")
impl Number for P31 {}

impl Number for Gf8 {}
