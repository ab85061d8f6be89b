//! The first walk over a recording, which measures its file.

ghost use Rattle.std.specs.Prelude.{◌≡◌, ◌≤◌, None, Err, false, IfOk, OnOk, IfErr};
ghost use Rattle.std.specs.Prelude.{IfSome, MatchResult, ⊤};
ghost use Rattle.sqlite.specs.State.{HasCleanDisk};
ghost use Rattle.edf_header.specs.Key.{Key, MayStart};
ghost use Rattle.edf_holdings.specs.Holdings.{Holdings};
ghost use Rattle.edf_store.specs.Call.{IsBusy, ReadsOutsideTransaction};
ghost use Rattle.edf_store.specs.Fault.{HasCauseOrIsForeign, MayRefuse, IsStoreRefusal};
ghost use Rattle.edf_store.specs.Held.{at, Holds};
ghost use Rattle.edf_store.specs.Walk.{HasYielded, IsWalking};
ghost use Rattle.edf_canonical.specs.Measure.{IsMeasuredSoFar};
ghost use Rattle.edf_export.specs.Inside.Calls.{EndsWalk};
ghost use Rattle.edf_export.specs.Inside.Walks.{IsPlanned, IsSoundRecording};

use edf_canonical::Measure;
use edf_header::{Identity, MOST_RECORDS};
use edf_store::{Records, Store, StoreFault};
use sqlite::Alter;

/// A walk over a recording has at most one step for each data record, and one for its end.
const MOST_STEPS: u32 = MOST_RECORDS + 1;

/// Measures the data records of a walk. Returns `None` if there is none.
fn plan_walk<S: Alter>(walk: &mut Records<'_, S>) -> Result<Option<Measure>, StoreFault>
    requires ready { (walk.old.failed ≡ false) × IsWalking S.Store walk.old }
    requires cap { walk.old.store.now.cap ≤ MOST_RECORDS }
    ensures changes { EndsWalk S.Store walk.old walk.new
        (λ s. OnOk result (s.in_transaction ≡ false)) }
    ensures walked { HasCleanDisk (at S.Store walk.new.store.now) → (h : Holdings) (k : Key) →
        HasYielded S.Store walk.old h k 0 →
        MatchResult result (IsMeasuredSoFar (h k)) IsStoreRefusal }
    ensures why { IfErr result HasCauseOrIsForeign }
{
    let mut plan: Option<Measure> = None;
    for _ in 0..MOST_STEPS {
        let Some(data_record) = walk.next()? else {
            return Ok(plan);
        };
        plan = Some(Measure::after(plan, &data_record));
    }
    Err(StoreFault::Foreign)
}

/// Measures the data records that are held under an identity.
fn plan_held<S: Alter>(
    store: &mut Store<S>,
    identity: &Identity,
    cap: u32,
) -> Result<Option<Measure>, StoreFault>
    requires { (cap ≡ store.old.cap) × (cap ≤ MOST_RECORDS) }
    ensures changes { ReadsOutsideTransaction S.Store store.old store.new result }
    ensures walked { HasCleanDisk (at S.Store store.new) → (h : Holdings) →
        Holds S.Store store.old h →
        MatchResult result
        (λ plan. IsMeasuredSoFar (h identity.now) plan
        × IsSoundRecording store.new.cap identity.now (h identity.now))
        IsStoreRefusal }
    ensures busy { IsBusy S.Store store.old → result ≡ Err (StoreFault.Store None) }
    ensures why { IfErr result (MayRefuse (IsBusy S.Store store.old) ⊤ ⊥) }
{
    let mut walk = store.records(identity)?;
    plan_walk(&mut walk)
}

/// Returns the measure of an identity's file, or `None` if nothing is held under it.
pub(crate) fn plan_file<S: Alter>(
    store: &mut Store<S>,
    identity: &Identity,
) -> Result<Option<Measure>, StoreFault>
    ensures changes { ReadsOutsideTransaction S.Store store.old store.new result }
    ensures planned { HasCleanDisk (at S.Store store.new) → (h : Holdings) →
        Holds S.Store store.old h →
        MatchResult result (IsPlanned identity.now (h identity.now)) IsStoreRefusal }
    ensures may_start { IfOk result (λ plan. IfSome plan (λ p. MayStart identity.now p.first)) }
    ensures busy { IsBusy S.Store store.old → result ≡ Err (StoreFault.Store None) }
    ensures why { IfErr result
        (MayRefuse (HasCleanDisk (at S.Store store.new) → IsBusy S.Store store.old) ⊤ ⊥) }
{
    let cap = store.cap();
    let Some(plan) = plan_held(store, identity, cap)? else {
        return Ok(None);
    };
    if plan.records > cap || !identity.may_start(plan.first) {
        return Err(StoreFault::Foreign);
    }
    Ok(Some(plan))
}
