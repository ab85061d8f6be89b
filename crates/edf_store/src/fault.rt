//! Faults say why a call of the store is refused, and why rows are not read.

ghost use Rattle.std.specs.Prelude.{◌≡◌};
ghost use Rattle.edf_store.specs.Fault.{number, store_fault_name};

use edf_header::IdentityFault;
use sqlite::{Error, ErrorCode};
use std::alloc::{AllocError, AllocFailed};

/// A call of the store was refused for this.
#[derive(Clone, Copy, Debug, PartialEq, Eq, Drop, thiserror::Error)]
pub enum StoreFault {
    /// E41: memory ran out.
    #[error("out of memory")]
    Memory,
    /// E42: `sqlite` refused, with its error; or, without one, the connection was still in the
    /// transaction of an earlier call.
    #[error("the store failed")]
    Store(Option<Error>),
    /// E45: the tables have what no submission makes.
    #[error("the tables hold what no submission leaves")]
    Foreign,
    /// An earlier call had a fault, and nothing more can be read.
    #[error("the records met a fault before")]
    Failed,
}

impl StoreFault {
    /// Returns the number of the refusal: 41, 42 or 45, and 0 for `Failed`.
    pub fn number(&self) -> u8
        ensures { result ≡ number self.now }
    {
        match self {
            StoreFault::Memory => 41,
            StoreFault::Store(_) => 42,
            StoreFault::Foreign => 45,
            StoreFault::Failed => 0,
        }
    }

    /// Returns the name of the variant.
    pub fn name(&self) -> &'static str
        ensures { result.now ≡ store_fault_name self.now }
    {
        match self {
            StoreFault::Memory => "Memory",
            StoreFault::Store(_) => "Store",
            StoreFault::Foreign => "Foreign",
            StoreFault::Failed => "Failed",
        }
    }
}

/// An error of `sqlite` becomes `Memory` where memory ran out, else `Store` with the error.
impl From<Error> for StoreFault {
    ghost use Rattle.edf_store.specs.Fault.{IsRefusalOf};

    ghost from_gives = { IsRefusalOf };

    fn from(error: Error) -> StoreFault {
        match error {
            Error::SqliteFailure(ErrorCode::OutOfMemory) => StoreFault::Memory,
            error => StoreFault::Store(Some(error)),
        }
    }
}

/// Rows were not read for this. That memory ran out is one of the errors of `sqlite`.
#[derive(Clone, Copy, Debug, PartialEq, Eq, Drop)]
pub(crate) enum RowFault {
    Sqlite(Error),
    /// Submissions can't make the rows.
    Foreign,
}

impl From<Error> for RowFault {
    ghost use Rattle.edf_store.specs.declared.fault.RowFault.TheVariants.{Sqlite};

    ghost from_gives = { λ error fault. fault ≡ Sqlite error };

    fn from(error: Error) -> RowFault {
        RowFault::Sqlite(error)
    }
}

impl From<AllocError> for RowFault {
    ghost use Rattle.sqlite.specs.declared.error.Error.TheVariants.{SqliteFailure};
    ghost use Rattle.sqlite.specs.declared.error.ErrorCode.TheVariants.{OutOfMemory};
    ghost use Rattle.edf_store.specs.declared.fault.RowFault.TheVariants.{Sqlite};

    ghost from_gives = { λ _ fault. fault ≡ Sqlite (SqliteFailure OutOfMemory) };

    fn from(error: AllocError) -> RowFault {
        RowFault::Sqlite(Error::from(error))
    }
}

impl<T: Drop> From<AllocFailed<T>> for RowFault {
    ghost use Rattle.sqlite.specs.declared.error.Error.TheVariants.{SqliteFailure};
    ghost use Rattle.sqlite.specs.declared.error.ErrorCode.TheVariants.{OutOfMemory};
    ghost use Rattle.edf_store.specs.declared.fault.RowFault.TheVariants.{Sqlite};

    ghost from_gives = { λ _ fault. fault ≡ Sqlite (SqliteFailure OutOfMemory) };

    fn from(failed: AllocFailed<T>) -> RowFault {
        RowFault::Sqlite(Error::from(failed))
    }
}

/// Where the bytes of a row are no identity's, memory ran out, or the row is foreign.
impl From<IdentityFault> for RowFault {
    ghost use Rattle.edf_store.specs.Fault.{IsFaultOfIdentity};

    ghost from_gives = { IsFaultOfIdentity };

    fn from(fault: IdentityFault) -> RowFault {
        match fault {
            IdentityFault::Memory => RowFault::Sqlite(Error::SqliteFailure(ErrorCode::OutOfMemory)),
            _ => RowFault::Foreign,
        }
    }
}

impl From<RowFault> for StoreFault {
    ghost use Rattle.edf_store.specs.Fault.{IsRefusalBy};

    ghost from_gives = { IsRefusalBy };

    fn from(fault: RowFault) -> StoreFault {
        match fault {
            RowFault::Sqlite(error) => StoreFault::from(error),
            RowFault::Foreign => StoreFault::Foreign,
        }
    }
}
