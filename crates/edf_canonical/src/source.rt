//! Sources of the data records of a file.

ghost use Rattle.std.specs.Prelude.{Option, Result};
ghost use Rattle.edf_fragment.specs.Fragment.{DataRecord};

use edf_fragment::Record;

/// An iterator over data records. What it reads is lent to each call: a file that was opened, and
/// its input, or two other things.
pub trait Source<F, R> {
    /// The reason why it stops early.
    type Fault;

    // What must hold of the source, the file and the input at a call. It holds after each call,
    // whatever this answered: after the last data record and after a fault, too.
    ghost ready: { Self → F → R → Type 0 };

    // The answer of a call, with the source, the file and the input before and after it.
    ghost answers: { Self → F → R → Self → F → R → Result (Option DataRecord) Self.Fault → Type 0 };

    /// Returns the next data record, or `None` after the last.
    ///
    /// # Errors
    /// A fault of the source.
    fn next(&mut self, file: &mut F, input: &mut R) -> Result<Option<Record>, Self::Fault>
        requires { ready self.old file.old input.old }
        ensures answers { answers self.old file.old input.old self.new file.new input.new result }
        ensures ready { ready self.new file.new input.new };
}
