//! One submission, and a list of them.

ghost use Rattle.std.specs.Prelude.{◌≡◌, map, IfOk, IfErr};
ghost use Rattle.edf_intake.specs.Submitted.{IsSubmitAnswer, IsOutsideTransactionAfterSubmit};
ghost use Rattle.edf_intake.specs.Submitted.{busy_answer};
ghost use Rattle.edf_fragment.specs.Call.{input_state};
ghost use Rattle.edf_intake.specs.Batch.{AreSubmitted, AnswersAreReplies};
ghost use Rattle.edf_intake.specs.Batch.{IsOutsideTransactionAfterLast};
ghost use Rattle.edf_store.specs.Call.{IsBusy};

use crate::answer::{Receipt, Refusal, Stop};
use crate::fragment::take_fragment;
use edf_fragment::Input;
use edf_store::Store;
use sqlite::Alter;
use std::alloc::{AllocError, Global};

/// Submits one fragment, which is accepted whole or refused whole.
///
/// The input is read once, up to its end or its first fault of form, with one data record in memory
/// at a time. The fragment is accepted if none of its data records clashes with a stored one of its
/// identity, and if it adds none or the recording then has no more than the store's cap. The input
/// is read on after a conflict, so a fault of form is always answered in its place.
///
/// # Errors
/// - `Form`: the first fault of the input.
/// - `Overlap`, `Differs`, `Full` (E30 to E32): a conflict with what is held.
/// - `Read` (E40): a read failed. It replaces a conflict, and any fault after it.
/// - `Memory` (E41): memory ran out. `Store` (E42, E45): the store refused a call. They replace any
///   other. The answer is the first call that was refused, the rollback among them.
///
/// What was held before is held after each refusal. E45 comes only from a disk that does not return
/// what was written. E42 without a cause comes if a transaction was open; then nothing was read.
pub fn submit<S: Alter, R: Input>(
    alloc: Global,
    store: &mut Store<S>,
    input: &mut R,
) -> Result<Receipt, Refusal>
    ensures cap { store.new.cap ≡ store.old.cap }
    ensures submitted { IsSubmitAnswer S.Store store.old store.new
        (input_state R.Input input.old) (input_state R.Input input.new) result }
    ensures ended { IsOutsideTransactionAfterSubmit S.Store store.new result }
    ensures busy { IsBusy S.Store store.old → (input.new ≡ input.old) × (result ≡ busy_answer) }
{
    let cap = store.cap();
    let mut transaction = store.transaction()?;
    match take_fragment(alloc, &mut transaction, cap, input) {
        Ok(receipt) => {
            transaction.commit()?;
            Ok(receipt)
        }
        Err(Stop::Input(refusal)) => {
            transaction.give_up()?;
            Err(refusal)
        }
        Err(Stop::Store(fault)) => {
            let _ = transaction.give_up();
            Err(Refusal::from(fault))
        }
    }
}

/// Submits each input in turn, also after refused ones, and returns one answer for each, in their
/// order. Each is one call of [`submit`], so an accepted one was held when it was answered.
///
/// # Errors
/// `AllocError`: there is no memory for the answers. Then nothing was read or submitted.
pub fn submit_all<S: Alter, R: Input>(
    alloc: Global,
    store: &mut Store<S>,
    inputs: &mut [R],
) -> Result<Vec<Result<Receipt, Refusal>>, AllocError>
    ensures cap { store.new.cap ≡ store.old.cap }
    ensures nothing { IfErr result (λ _. (store.new ≡ store.old) × (inputs.new ≡ inputs.old)) }
    ensures submitted { IfOk result (λ answers.
        AreSubmitted S.Store store.old store.new (map (input_state R.Input) inputs.old)
        (map (input_state R.Input) inputs.new) answers.items) }
    ensures ended { IfOk result (λ answers. IsOutsideTransactionAfterLast S.Store store.old
        store.new answers.items) }
    ensures answered { IfOk result (λ answers. AnswersAreReplies S.Store store.old store.new
        (map (input_state R.Input) inputs.old) answers.items) }
{
    let mut answers = Vec::with_capacity(alloc, inputs.len())?;
    for input in inputs.iter_mut() {
        let answer = submit(alloc, store, input);
        answers.push_reserved(answer);
    }
    Ok(answers)
}
