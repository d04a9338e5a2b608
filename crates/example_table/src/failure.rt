//! What the program fails by. What `main` returns is printed by `Debug`.
use cidr::errors::NetworkParseError;
use cidr_table::LoadError;
use std::alloc::AllocError;
use std::io;

#[derive(Debug, Drop)]
pub enum Failure {
    Network(NetworkParseError),
    Load(LoadError),
    NoMemory,
    System(io::Error),
}

impl From<NetworkParseError> for Failure {
    fn from(error: NetworkParseError) -> Failure {
        Failure::Network(error)
    }
}

impl From<LoadError> for Failure {
    fn from(error: LoadError) -> Failure {
        Failure::Load(error)
    }
}

impl From<AllocError> for Failure {
    fn from(_error: AllocError) -> Failure {
        Failure::NoMemory
    }
}

impl From<io::Error> for Failure {
    fn from(error: io::Error) -> Failure {
        Failure::System(error)
    }
}
