//! Whether the files of the store stand, and how often that was asked.

use edf_fragment::saturating_increment;
use edf_intake::Receipt;
use edf_serve::StoreFiles;
use edf_store::Store;
use edfstore_open::Standing;
use sqlite::Alter;

/// Asks the system, and counts its answers, each up to `u64::MAX`.
#[derive(Drop)]
pub(crate) struct Keeper<'rt> {
    standing: &'rt Standing<'rt>,
    stood: u64,
    lost: u64,
}

impl<'rt> Keeper<'rt> {
    pub(crate) fn new(standing: &'rt Standing<'rt>) -> Keeper<'rt> {
        Keeper {
            standing,
            stood: 0,
            lost: 0,
        }
    }
}

impl StoreFiles for Keeper<'_> {
    ghost looks = { λ keeper. (keeper.stood, keeper.lost) };

    fn stand<S: Alter>(&mut self, _store: &Store<S>, _receipt: &Receipt) -> bool {
        if self.standing.stands() {
            self.stood = saturating_increment(self.stood);
            true
        } else {
            self.lost = saturating_increment(self.lost);
            false
        }
    }
}
