//! Why the program ends with status 1.
use std::alloc::{AllocError, AllocFailed};
use std::io;

/// What made the program fail, and whether it has been told.
#[derive(Drop)]
pub enum Failure {
    /// What there is to say has been printed.
    Told,
    /// The arguments or printing failed, or memory ran out.
    Io(io::Error),
}

impl Failure {
    /// Says what has not been said; where that fails too, there is nobody to say it to.
    pub fn tell(&self, rt: &HostRuntime) {
        if let Failure::Io(error) = self {
            let _ = eprintln!(rt; "settle: {error}");
        }
    }
}

impl From<io::Error> for Failure {
    fn from(error: io::Error) -> Failure {
        Failure::Io(error)
    }
}

impl From<AllocError> for Failure {
    fn from(error: AllocError) -> Failure {
        Failure::Io(io::Error::from(error))
    }
}

impl<T: Drop> From<AllocFailed<T>> for Failure {
    fn from(error: AllocFailed<T>) -> Failure {
        Failure::Io(io::Error::from(error))
    }
}
