ghost use Rattle.std.specs.Prelude.{◌≡◌, ◌*◌, ◌<◌, ◌↔◌, IsSome, IfSome, string_bytes, IsTrue};
ghost use Rattle.std.specs.Option.{ForSome};
ghost use Rattle.edf_tal.specs.Tal.{Annotation, IsText, IsValidAnnotation};
ghost use Rattle.edf_time.specs.Civil.{window};

use crate::scan::{TAL_END, TEXT_END};
use edf_time::Instant;
use edf_time::laws::instant_is_in_window;
use std::marker::Model;

/// An annotation of a data record: an instant, a duration in nanoseconds or none, and a text (EDF+,
/// time-stamped annotations lists).
///
/// A duration of 0 is not the same as none. The text is UTF-8 without byte 20, which ends a text,
/// and byte 0, which ends a TAL; byte 21, which comes before a duration, may be in it.
#[derive(Drop)]
pub struct Note {
    onset: Instant,
    duration: Option<u64>,
    text: String,
}

impl Model for Note {
    ghost use Rattle.std.specs.Prelude.{string_bytes};
    ghost use Rattle.edf_tal.specs.Tal.{Annotation, IsValidAnnotation};

    ghost Value = { Annotation };

    ghost view = { λ n.
        record { onset = n.onset; duration = n.duration; text = string_bytes n.text } };

    ghost invariant = { λ n. IsValidAnnotation
        (record { onset = n.onset; duration = n.duration; text = string_bytes n.text }) };
}

/// Is true where no byte is 0 or 20.
fn is_text(text: &[u8]) -> bool
    ensures { IsTrue result ↔ IsText text.now }
{
    text.iter().all(|b| *b != TAL_END && *b != TEXT_END)
}

/// Is true where the duration is none, or shorter than the window.
pub(crate) fn is_duration(duration: Option<u64>) -> bool
    ensures { IsTrue result ↔ IfSome duration (λ d. d < window) }
{
    match duration {
        None => true,
        // the window has an instant for each length below its own
        Some(nanos) => Instant::at(nanos).is_some(),
    }
}

impl Note {
    /// Returns the annotation, or `None` where no TAL can hold it.
    ///
    /// `duration` counts nanoseconds. A TAL can hold it where it is shorter than the window of
    /// instants, the years 1985 to 2184, and the text where it has no byte 0 or 20.
    pub fn new(onset: Instant, duration: Option<u64>, text: String) -> Option<Note>
        ensures valid { IsSome result
            ↔ (ForSome duration (λ d. d < window) × IsText (string_bytes text)) }
        ensures value { IfSome result
            (λ n. n ≡ record { onset = onset; duration = duration; text = string_bytes text }) }
    {
        if is_duration(duration) && is_text(text.as_bytes()) {
            Some(Note::of_parts(onset, duration, text))
        } else {
            None
        }
    }

    /// Returns the annotation of parts that a TAL can hold.
    pub(crate) fn of_parts(onset: Instant, duration: Option<u64>, text: String) -> Note
        requires duration { IfSome duration (λ d. d < window) }
        requires text { IsText (string_bytes text) }
        ensures { result ≡ record { onset = onset; duration = duration; text = string_bytes text } }
    {
        instant_is_in_window(onset);
        Note {
            onset,
            duration,
            text,
        }
    }

    /// Returns the onset as an instant.
    pub fn onset(&self) -> Instant
        ensures value { result ≡ self.now.onset }
        ensures note { IsValidAnnotation self.now }
    {
        self.onset
    }

    /// Returns the duration in nanoseconds, shorter than the window of instants, or none.
    pub fn duration(&self) -> Option<u64>
        ensures value { result ≡ self.now.duration }
        ensures note { IsValidAnnotation self.now }
    {
        self.duration
    }

    /// Returns the text, which has no byte 0 or 20.
    pub fn text(&self) -> &str
        ensures value { result.now ≡ self.now.text }
        ensures note { IsValidAnnotation self.now }
    {
        self.text.as_str()
    }
}
