//! The data records of a fragment, one after another, inside a transaction.

ghost use Rattle.std.specs.Prelude.{◌≡◌, IfOk, IfErr};
ghost use Rattle.edf_header.specs.Header.{most_records};
ghost use Rattle.edf_store.specs.StoreTx.{HasCauseOrIsUnclean, ReadsInTransaction};
ghost use Rattle.edf_fragment.specs.Call.{input_state};
ghost use Rattle.edf_intake.specs.Inside.Transaction.{IsRunningFor, KeepsRunning};
ghost use Rattle.edf_intake.specs.Inside.Gap.{IsGapInTransaction};
ghost use Rattle.edf_intake.specs.Inside.Verdict.{IsVerdict, IsSpareInTransaction};
ghost use Rattle.edf_intake.specs.Inside.Course.{IsLookupFor, MayBeNext, IsRecordTaken};
ghost use Rattle.edf_intake.specs.Inside.Halt.{HaltsAfterHeader};
ghost use Rattle.edf_intake.specs.Inside.Taken.{HasReadHeader, RecordsAreTaken};

use crate::answer::{Stop, refusal_of_fragment_fault};
use crate::gap::{Gap, gap_after};
use edf_fragment::{Input, OpenFragment, Record};
use edf_header::Identity;
use edf_store::{RecordingId, StoreFault, StoreTx};
use edf_time::Instant;
use sqlite::Alter;

/// The verdict on a data record by the stored ones near it.
#[derive(Clone, Copy)]
pub(crate) enum Verdict {
    /// It clashes with the one that starts there, and with none before that.
    Clashes { stored: Instant },
    /// It is stored.
    Known,
    /// Nothing is near it.
    New,
}

/// Returns the verdict that the stored data records near one give.
pub(crate) fn verdict_of(data_record: &Record, near: &[Record]) -> Verdict
    ensures { IsVerdict data_record.now near.now result }
{
    for stored in near {
        if !data_record.same(stored) {
            return Verdict::Clashes {
                stored: stored.start(),
            };
        }
    }
    if near.is_empty() {
        Verdict::New
    } else {
        Verdict::Known
    }
}

/// The starts of a data record and of a stored one with which it clashes.
#[derive(Clone, Copy)]
pub(crate) struct Starts {
    pub(crate) start: Instant,
    pub(crate) stored: Instant,
}

/// The counts of a fragment's new and known data records so far, up to the first that clashes.
#[derive(Clone, Copy)]
pub(crate) struct Findings {
    pub(crate) new: u32,
    pub(crate) known: u32,
    pub(crate) clash: Option<Starts>,
}

/// The recording that a fragment's data records are added to. It may get `spare` more.
#[derive(Clone, Copy)]
pub(crate) struct Destination {
    pub(crate) id: RecordingId,
    pub(crate) spare: u32,
}

/// The verdict on a data record, and the gap that begins where it starts, if one is known.
#[derive(Clone, Copy)]
struct Lookup {
    verdict: Verdict,
    gap: Option<Gap>,
}

/// The findings so far, and the gap after the last data record, if one is known.
#[derive(Clone, Copy)]
struct Course {
    findings: Findings,
    gap: Option<Gap>,
}

/// Returns the verdict on a data record. The store is read only if that is not in the gap: for the
/// stored ones near it, and, if there are none, for the next start.
fn find_verdict<S: Alter>(
    transaction: &mut StoreTx<'_, S>,
    id: RecordingId,
    identity: &Identity,
    gap: Option<Gap>,
    data_record: &Record,
) -> Result<Lookup, StoreFault>
    requires running { IsRunningFor S.Store transaction.old id.row identity.now }
    requires gap { IsGapInTransaction S.Store transaction.old identity.now gap }
    // Nothing is added, so the verdict still holds of what the transaction sees after it.
    ensures changes { ReadsInTransaction S.Store transaction.old transaction.new result
        (HasCauseOrIsUnclean S.Store transaction.new) }
    ensures lookup { IfOk result
        (IsLookupFor S.Store transaction.old transaction.new identity.now data_record.now) }
{
    let start = data_record.start();
    let duration = identity.duration();
    if let Some(rest) = gap_after(gap, start, duration) {
        return Ok(Lookup {
            verdict: Verdict::New,
            gap: Some(rest),
        });
    }
    let near = transaction.near(id, start, duration)?;
    match verdict_of(data_record, near.as_slice()) {
        Verdict::New => {
            let until = transaction.next_start(id, start)?;
            Ok(Lookup {
                verdict: Verdict::New,
                gap: Some(Gap { from: start, until }),
            })
        }
        verdict => Ok(Lookup { verdict, gap: None }),
    }
}

/// Takes the next data record. It is added if nothing is near it and fewer than `spare` are new.
fn take_record<S: Alter>(
    transaction: &mut StoreTx<'_, S>,
    destination: Destination,
    identity: &Identity,
    course: Course,
    data_record: &Record,
) -> Result<Course, StoreFault>
    requires running { IsRunningFor S.Store transaction.old destination.id.row identity.now }
    // The store requires this of a data record that it adds.
    requires next { MayBeNext S.Store transaction.old identity.now data_record.now
        destination.spare course }
    // After a refusal the transaction can only be rolled back.
    ensures changes { KeepsRunning S.Store transaction.old transaction.new result }
    ensures taken { IfOk result (IsRecordTaken S.Store transaction.old transaction.new
        identity.now data_record.now destination.id.row destination.spare course) }
    ensures why { IfErr result (HasCauseOrIsUnclean S.Store transaction.new) }
{
    let findings = course.findings;
    if findings.clash.is_some() {
        return Ok(course);
    }
    let Destination { id, spare } = destination;
    let start = data_record.start();
    let lookup = find_verdict(transaction, id, identity, course.gap, data_record)?;
    let Lookup { verdict, gap } = lookup;
    match verdict {
        Verdict::Clashes { stored } => Ok(Course {
            findings: Findings {
                clash: Some(Starts { start, stored }),
                ..findings
            },
            gap,
        }),
        Verdict::Known => Ok(Course {
            findings: Findings {
                known: findings.known + 1,
                ..findings
            },
            gap,
        }),
        Verdict::New => {
            if findings.new < spare {
                transaction.add(id, data_record)?;
            }
            Ok(Course {
                findings: Findings {
                    new: findings.new + 1,
                    ..findings
                },
                gap,
            })
        }
    }
}

/// Takes all data records of a fragment whose header was just read, up to the end of the input.
pub(crate) fn take_records<S: Alter, R: Input>(
    transaction: &mut StoreTx<'_, S>,
    destination: Destination,
    fragment: &mut OpenFragment,
    input: &mut R,
) -> Result<Findings, Stop>
    requires running { IsRunningFor S.Store transaction.old destination.id.row
        fragment.old.header.key }
    // As many as `spare` may be added, so the cap must allow them.
    requires spare { IsSpareInTransaction S.Store transaction.old fragment.old.header.key
        (most_records fragment.old.header.count) destination.spare }
    requires header { HasReadHeader (R.remaining input.old) fragment.old.header
        fragment.old.progress }
    ensures changes { KeepsRunning S.Store transaction.old transaction.new result }
    // The identity is taken from the header after this call.
    ensures header { fragment.new.header ≡ fragment.old.header }
    ensures taken { IfOk result (RecordsAreTaken S.Store transaction.old transaction.new
        fragment.old.header destination.spare
        (input_state R.Input input.old) (input_state R.Input input.new)) }
    ensures halted { IfErr result (HaltsAfterHeader S.Store transaction.new fragment.old.header
        (input_state R.Input input.old) (input_state R.Input input.new)) }
{
    let mut course = Course {
        findings: Findings {
            new: 0,
            known: 0,
            clash: None,
        },
        gap: None,
    };
    'records: loop {
        match fragment.next(input) {
            Ok(Some(data_record)) => {
                let identity = fragment.header().identity();
                match take_record(transaction, destination, identity, course, &data_record) {
                    Ok(next) => course = next,
                    Err(fault) => return Err(Stop::Store(fault)),
                }
            }
            Ok(None) => return Ok(course.findings),
            Err(fault) => return Err(Stop::Input(refusal_of_fragment_fault(fault))),
        }
    }
}
