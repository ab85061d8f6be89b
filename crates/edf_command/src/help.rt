//! The texts of `edfstore --help` and of each command's help, first in a line, then at length.
//! Lines are broken here, since nothing else breaks them.

pub(crate) const EDFSTORE: &str = "\
Keeps sleep recordings: takes EDF+ files in any order and as often as they are
sent, and gives each recording back as one EDF+D file.";

pub(crate) const EDFSTORE_MORE: &str = "\
Example, a night that came in pieces, and the memory card with all of it:
  edfstore take night.db part1.edf part2.edf part3.edf
  edfstore take night.db card.edf
  edfstore list night.db
  edfstore export night.db 1 > night.edf

Without words edfstore converts standard input to standard output, as
'edfstore convert -' does.

Status:
  0  done
  1  a file was refused, or no recording has that place
  2  the words ask for nothing that can be done
  3  trouble with a file, standard output, memory or the store";

pub(crate) const TAKE: &str = "Takes EDF+ files into a store, each whole or not at all";

pub(crate) const TAKE_MORE: &str = "\
Takes EDF+ files into a store, in the order given, each whole or not at all.

Data records that the store holds already are known and not stored again, so a
file may be sent as often as you like. A file is refused where it breaks a rule
of EDF+, and where one of its data records overlaps a stored one of the same
recording or differs from it at the same start. Then the store stays as it was,
and the next file has its turn.

A line tells what became of each file:
  FILE accepted new=N known=K
  FILE refused E31 Differs start=2002-03-02T23:59:50";

pub(crate) const TAKE_EXAMPLES: &str = "\
Examples:
  edfstore take night.db part1.edf part2.edf
  zcat part3.edf.gz | edfstore take night.db -";

pub(crate) const LIST: &str = "Lists the recordings of a store";

pub(crate) const LIST_MORE: &str = "\
Lists the recordings of a store, a line each: its place, how many data records
are held, the start of the first, patient code and investigation code.

Files belong to one recording where patient identification, recording
identification, duration of a data record and ordinary signals are the same. Of
the start date in the recording identification it counts only whether there is
one.";

pub(crate) const LIST_EXAMPLE: &str = "\
Example:
  edfstore list night.db
  1 records=2880 first=2002-03-02T23:59:50 patient=P7 investigation=N1";

pub(crate) const EXPORT: &str = "Writes one recording to standard output, as an EDF+D file";

pub(crate) const EXPORT_MORE: &str = "\
Writes one recording of a store to standard output: an EDF+D file of all its
data records in time order, with their annotations. The store stays as it is.

The same data records give the same bytes, in whatever files and whatever order
they were taken.";

pub(crate) const EXPORT_EXAMPLE: &str = "\
Example:
  edfstore export night.db 1 > night.edf";

pub(crate) const CONVERT: &str = "Writes one EDF+ file to standard output, in canonical form";

pub(crate) const CONVERT_MORE: &str = "\
Writes one EDF+ file to standard output in canonical form, without a store:
EDF+D, the annotations signal last and no larger than it must be, onsets and
durations in the fewest digits. A file that is refused leaves standard output
empty.";

pub(crate) const CONVERT_EXAMPLES: &str = "\
Examples:
  edfstore convert recorder.edf > night.edf
  zcat recorder.edf.gz | edfstore convert - > night.edf";

pub(crate) const STORE_VALUE: &str =
    "The store's SQLite file, or :memory: for an empty one, kept nowhere";

pub(crate) const FILES_VALUE: &str = "Files in EDF+C or EDF+D, or - for standard input";

pub(crate) const FILE_VALUE: &str = "A file in EDF+C or EDF+D, or - for standard input";

pub(crate) const PLACE_VALUE: &str = "The recording's place in the list, from 1";

/// The reason why a PLACE is refused.
pub(crate) const BAD_PLACE: &str =
    "PLACE is a recording's place in the list, in digits, from 1 to 4294967295";
