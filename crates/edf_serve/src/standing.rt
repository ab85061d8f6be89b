//! Whether the files of a store still stand under its path.

ghost use Rattle.std.specs.Prelude.{◌≡◌};
ghost use Rattle.edf_serve.specs.Client.{Looks, looked, HasAccepted};

use edf_intake::Receipt;
use edf_store::Store;
use sqlite::Alter;

/// What tells whether the path of a store still stands for the files that the store has.
pub trait StoreFiles {
    // How often it was asked, and answered that it does, and that it does not.
    ghost looks: { Self → Looks };

    /// Whether the path stands for the files that the store has, after a submission that was
    /// accepted and before that is told: the store is as the submission left it.
    fn stand<S: Alter>(&mut self, store: &Store<S>, receipt: &Receipt) -> bool
        requires { HasAccepted S.Store store.now receipt.now }
        ensures { looks self.new ≡ looked (looks self.old) result };
}
