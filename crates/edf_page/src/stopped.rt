//! Why nothing is given.

ghost use Rattle.std.specs.Prelude.{◌≡◌};
ghost use Rattle.edf_page.specs.Night.{stopped_line};

use edf_export::ExportFault;
use edf_store::StoreFault;
use std::alloc::AllocError;

/// Why nothing is given. It is never that a file is refused: that is an answer, with its line.
#[derive(Clone, Copy, Debug, PartialEq, Eq, Drop)]
pub enum Stopped {
    /// E41: memory ran out.
    Memory,
    /// E42: the store refused.
    Store,
}

impl Stopped {
    /// The line that says so, as `edfstore` writes it where its store can't be opened.
    pub fn line(&self) -> &'static str
        ensures { result.now ≡ stopped_line self.now }
    {
        match self {
            Stopped::Memory => "store refused E41 Memory\n",
            Stopped::Store => "store refused E42 Store\n",
        }
    }
}

impl From<AllocError> for Stopped {
    ghost use Rattle.std.specs.Prelude.{◌≡◌};
    ghost use Rattle.edf_page.specs.declared.stopped.Stopped.{Stopped};

    ghost from_gives = { λ _ stopped. stopped ≡ Stopped.Memory };

    fn from(_refused: AllocError) -> Stopped {
        Stopped::Memory
    }
}

impl From<StoreFault> for Stopped {
    ghost use Rattle.std.specs.Prelude.{◌≡◌};
    ghost use Rattle.edf_page.specs.Inside.{stop_by};

    ghost from_gives = { λ fault stopped. stopped ≡ stop_by fault };

    fn from(fault: StoreFault) -> Stopped {
        match fault {
            StoreFault::Memory => Stopped::Memory,
            StoreFault::Foreign | StoreFault::Store(_) | StoreFault::Failed => Stopped::Store,
        }
    }
}

/// Why a recording is not exported.
pub(crate) fn stop_of_export(fault: ExportFault) -> Stopped {
    match fault {
        ExportFault::Store(fault) => Stopped::from(fault),
        _ => Stopped::Memory,
    }
}

/// Why a command stopped that wrote this last: the store refused, or else memory ran out, also for
/// what it was to write.
pub(crate) fn stop_said(err: &[u8]) -> Stopped {
    if err.ends_with(b" E42 Store\n") {
        Stopped::Store
    } else {
        Stopped::Memory
    }
}
