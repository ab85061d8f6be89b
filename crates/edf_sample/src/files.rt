//! The bytes of a file, by the texts of its header.

use std::alloc::{AllocError, Global};

/// The header of one signal, as the texts of its fields. Each method gives the same signal with one
/// field changed.
#[derive(Clone, Copy)]
pub struct Signal<'a> {
    label: &'a str,
    transducer: &'a str,
    dimension: &'a [u8],
    physical: [&'a str; 2],
    digital: [&'a str; 2],
    prefiltering: &'a str,
    samples: &'a str,
    reserved: &'a str,
}

impl<'a> Signal<'a> {
    /// The EEG signal of file Q, with two samples in each data record.
    pub fn eeg() -> Signal<'a> {
        Signal {
            label: "EEG Fpz-Cz",
            transducer: "AgAgCl electrode",
            dimension: b"uV",
            physical: ["-440", "510"],
            digital: ["-2048", "2047"],
            prefiltering: "HP:0.1Hz LP:75Hz",
            samples: "2",
            reserved: "",
        }
    }

    /// An annotations signal with `samples` samples in each data record.
    pub fn annotations(samples: &'a str) -> Signal<'a> {
        Signal {
            label: "EDF Annotations ",
            transducer: "",
            dimension: b"",
            physical: ["-1", "1"],
            digital: ["-32768", "32767"],
            prefiltering: "",
            samples,
            reserved: "",
        }
    }

    pub fn dimension(mut self, text: &'a [u8]) -> Signal<'a> {
        self.dimension = text;
        self
    }

    /// Physical minimum and maximum.
    pub fn physical(mut self, minimum: &'a str, maximum: &'a str) -> Signal<'a> {
        self.physical = [minimum, maximum];
        self
    }

    /// Digital minimum and maximum.
    pub fn digital(mut self, minimum: &'a str, maximum: &'a str) -> Signal<'a> {
        self.digital = [minimum, maximum];
        self
    }

    /// The samples in each data record.
    pub fn samples(mut self, text: &'a str) -> Signal<'a> {
        self.samples = text;
        self
    }

    /// The fields in the order of the header, and their widths.
    fn fields(&self) -> [(&'a [u8], usize); 10] {
        let [physical_min, physical_max] = self.physical;
        let [digital_min, digital_max] = self.digital;
        [
            (self.label.as_bytes(), 16),
            (self.transducer.as_bytes(), 80),
            (self.dimension, 8),
            (physical_min.as_bytes(), 8),
            (physical_max.as_bytes(), 8),
            (digital_min.as_bytes(), 8),
            (digital_max.as_bytes(), 8),
            (self.prefiltering.as_bytes(), 80),
            (self.samples.as_bytes(), 8),
            (self.reserved.as_bytes(), 32),
        ]
    }
}

/// The header of a file, as the texts of its fields. Each method gives the same header with one
/// field changed.
#[derive(Clone, Copy)]
pub struct Header<'a> {
    version: &'a str,
    patient: &'a str,
    recording: &'a str,
    start: [&'a str; 2],
    header_bytes: &'a str,
    reserved: &'a str,
    count: &'a str,
    duration: &'a str,
    signals: &'a str,
    eeg: Signal<'a>,
    annotations: Signal<'a>,
    annotations_first: bool,
    listed: Option<&'a [Signal<'a>]>,
}

/// The header of file Q: one data record of one second from 2002-03-02 23:59:50, with two EEG
/// samples and three for annotations.
pub fn q() -> Header<'static> {
    Header {
        version: "0",
        patient: "P7 F 02-MAY-1951 X",
        recording: "Startdate 02-MAR-2002 N1 T3 REC5",
        start: ["02.03.02", "23.59.50"],
        header_bytes: "768",
        reserved: "EDF+D",
        count: "1",
        duration: "1",
        signals: "2",
        eeg: Signal::eeg(),
        annotations: Signal::annotations("3"),
        annotations_first: false,
        listed: None,
    }
}

impl<'a> Header<'a> {
    pub fn version(mut self, text: &'a str) -> Header<'a> {
        self.version = text;
        self
    }

    pub fn patient(mut self, text: &'a str) -> Header<'a> {
        self.patient = text;
        self
    }

    pub fn recording(mut self, text: &'a str) -> Header<'a> {
        self.recording = text;
        self
    }

    /// Startdate and starttime.
    pub fn start(mut self, date: &'a str, time: &'a str) -> Header<'a> {
        self.start = [date, time];
        self
    }

    pub fn header_bytes(mut self, text: &'a str) -> Header<'a> {
        self.header_bytes = text;
        self
    }

    pub fn reserved(mut self, text: &'a str) -> Header<'a> {
        self.reserved = text;
        self
    }

    /// The number of data records.
    pub fn count(mut self, text: &'a str) -> Header<'a> {
        self.count = text;
        self
    }

    /// The duration of a data record.
    pub fn duration(mut self, text: &'a str) -> Header<'a> {
        self.duration = text;
        self
    }

    /// The number of signals.
    pub fn signals(mut self, text: &'a str) -> Header<'a> {
        self.signals = text;
        self
    }

    /// The EEG signal's physical dimension.
    pub fn dimension(mut self, text: &'a [u8]) -> Header<'a> {
        self.eeg = self.eeg.dimension(text);
        self
    }

    /// The EEG signal's physical minimum and maximum.
    pub fn physical(mut self, minimum: &'a str, maximum: &'a str) -> Header<'a> {
        self.eeg = self.eeg.physical(minimum, maximum);
        self
    }

    /// The EEG signal's digital minimum and maximum.
    pub fn digital(mut self, minimum: &'a str, maximum: &'a str) -> Header<'a> {
        self.eeg = self.eeg.digital(minimum, maximum);
        self
    }

    /// The EEG signal's samples in each data record.
    pub fn samples(mut self, text: &'a str) -> Header<'a> {
        self.eeg = self.eeg.samples(text);
        self
    }

    /// The samples of the annotations signal in each data record.
    pub fn annotations_samples(mut self, text: &'a str) -> Header<'a> {
        self.annotations = self.annotations.samples(text);
        self
    }

    /// The annotations signal comes before the EEG signal.
    pub fn annotations_first(mut self) -> Header<'a> {
        self.annotations_first = true;
        self
    }

    /// These signals, in file order, take the place of the EEG signal and the annotations signal.
    pub fn listed(mut self, signals: &'a [Signal<'a>]) -> Header<'a> {
        self.listed = Some(signals);
        self
    }

    /// The EEG signal and the annotations signal, in file order.
    fn pair(&self) -> [Signal<'a>; 2] {
        if self.annotations_first {
            [self.annotations, self.eeg]
        } else {
            [self.eeg, self.annotations]
        }
    }
}

/// Appends a text, and spaces to the width of its field.
pub(crate) fn push_field(file: &mut Vec<u8>, text: &[u8], width: usize) -> Result<(), AllocError> {
    file.extend_from_slice(text)?;
    for _ in text.len()..width {
        file.push(b' ')?;
    }
    Ok(())
}

/// Appends the fixed part of a header.
fn push_fixed(file: &mut Vec<u8>, header: &Header<'_>) -> Result<(), AllocError> {
    let [date, time] = header.start;
    push_field(file, header.version.as_bytes(), 8)?;
    push_field(file, header.patient.as_bytes(), 80)?;
    push_field(file, header.recording.as_bytes(), 80)?;
    push_field(file, date.as_bytes(), 8)?;
    push_field(file, time.as_bytes(), 8)?;
    push_field(file, header.header_bytes.as_bytes(), 8)?;
    push_field(file, header.reserved.as_bytes(), 44)?;
    push_field(file, header.count.as_bytes(), 8)?;
    push_field(file, header.duration.as_bytes(), 8)?;
    push_field(file, header.signals.as_bytes(), 4)
}

/// Appends a field of all signals, in their order.
fn push_column(
    file: &mut Vec<u8>,
    signals: &[Signal<'_>],
    column: usize,
) -> Result<(), AllocError> {
    for signal in signals {
        if let Some((text, width)) = signal.fields().get(column) {
            push_field(file, *text, *width)?;
        }
    }
    Ok(())
}

/// Appends the signals, field by field.
fn push_signals(file: &mut Vec<u8>, signals: &[Signal<'_>]) -> Result<(), AllocError> {
    for column in 0..10usize {
        push_column(file, signals, column)?;
    }
    Ok(())
}

/// The file of a header and of what follows it, piece by piece.
pub fn file(alloc: Global, header: &Header<'_>, pieces: &[&[u8]]) -> Result<Vec<u8>, AllocError> {
    let mut file = Vec::new(alloc);
    push_fixed(&mut file, header)?;
    match header.listed {
        Some(signals) => push_signals(&mut file, signals)?,
        None => push_signals(&mut file, &header.pair())?,
    }
    for bytes in pieces {
        file.extend_from_slice(bytes)?;
    }
    Ok(file)
}

/// The same bytes, but for `text` from `offset` on.
pub fn patched(
    alloc: Global,
    bytes: &[u8],
    offset: usize,
    text: &[u8],
) -> Result<Vec<u8>, AllocError> {
    let mut file = Vec::from_slice(alloc, bytes)?;
    let places = file.iter_mut().skip(offset);
    for (place, byte) in places.zip(text) {
        *place = *byte;
    }
    Ok(file)
}
