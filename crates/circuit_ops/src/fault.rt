// Why a line has no answer.
use field::NotAMember;
use std::alloc::{AllocError, AllocFailed};
use std::num::{ParseIntError, TryFromIntError};
use std::str::Utf8Error;

#[derive(Clone, Copy)]
pub enum Fault {
    // the line is not of the form
    Malformed,
    Memory(AllocError),
}

// what the library or a field cannot read, whichever error says so, is a line not of the form
impl From<Utf8Error> for Fault {
    fn from(_error: Utf8Error) -> Fault {
        Fault::Malformed
    }
}

impl From<ParseIntError> for Fault {
    fn from(_error: ParseIntError) -> Fault {
        Fault::Malformed
    }
}

impl From<TryFromIntError> for Fault {
    fn from(_error: TryFromIntError) -> Fault {
        Fault::Malformed
    }
}

impl From<NotAMember> for Fault {
    fn from(_error: NotAMember) -> Fault {
        Fault::Malformed
    }
}

impl From<AllocError> for Fault {
    fn from(error: AllocError) -> Fault {
        Fault::Memory(error)
    }
}

impl<T: Drop> From<AllocFailed<T>> for Fault {
    fn from(failed: AllocFailed<T>) -> Fault {
        Fault::Memory(AllocError::from(failed))
    }
}
