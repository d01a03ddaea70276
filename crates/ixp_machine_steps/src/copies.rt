//! Copies of what is kept of requests.
ghost use Rattle.std.specs.Prelude.{◌≡◌, IfOk};

use crate::kept::{KeptNumber, KeptOwner};
use crate::subject::Subject;
use ixp_num_tables::Copied;
use std::alloc::{AllocError, Global};

impl Copied for Subject {
    fn copied(&self, alloc: Global) -> Result<Subject, AllocError> {
        match self {
            Subject::Number(number) => Ok(Subject::Number(*number)),
            Subject::Pair(first, second) => Ok(Subject::Pair(*first, *second)),
            Subject::Handle(name) => Ok(Subject::Handle(name.copied(alloc)?)),
            Subject::Public(kind) => Ok(Subject::Public(*kind)),
        }
    }
}

impl Copied for KeptNumber {
    fn copied(&self, alloc: Global) -> Result<KeptNumber, AllocError> {
        Ok(KeptNumber {
            number: self.number,
            kind: self.kind,
            subject: self.subject.copied(alloc)?,
            place: self.place,
        })
    }
}

impl Copied for KeptOwner {
    fn copied(&self, alloc: Global) -> Result<KeptOwner, AllocError> {
        Ok(KeptOwner {
            owner: self.owner,
            floor: self.floor,
            numbers: self.numbers.copied(alloc)?,
        })
    }
}
