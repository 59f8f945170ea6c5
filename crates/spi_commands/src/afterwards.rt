// What comes behind an answer.
use std::mem::forget;

/// What comes behind an answer.
#[derive(Clone, Copy, PartialEq, Eq)]
pub enum Afterwards {
    /// The program goes on, so all is given back.
    GoesOn,
    /// The process ends. A file, the processes of its tree and the events of its replay are left where they are, and go with the
    /// process: to take them down part by part takes longer than some commands.
    Ends,
}

impl Afterwards {
    /// Lets a value go that isn't needed any more: gives it back, or leaves it for the process to take along.
    pub(crate) fn let_go<T: Drop>(self, value: T) {
        match self {
            Afterwards::GoesOn => drop(value),
            Afterwards::Ends => forget(value),
        }
    }
}
