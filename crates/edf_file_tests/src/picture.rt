//! Pictures, by what their texts and shapes are. Where a shape begins was worked out by hand: of
//! the thousand columns of the axis, by the seconds that each has.

use edf_picture::{Bands, Extent, Night, Note, Signal, Title, draw};
use std::alloc::{AllocError, Global};

const SECOND: u64 = 1_000_000_000;

const HOUR: u64 = 3_600 * SECOND;

/// Saturation from 0 to 100 %, in tenths; a sample in a data record.
const SATURATION: Signal<'_> = Signal {
    label: b"SpO2",
    dimension: b"%",
    physical_minimum: b"0",
    physical_maximum: b"100",
    digital_minimum: b"0",
    digital_maximum: b"1000",
    samples: 1,
};

fn note(alloc: Global, onset: u64, seconds: u64, text: &str) -> Result<Note, AllocError> {
    Ok(Note {
        onset: onset.saturating_mul(SECOND).saturating_add(22 * HOUR),
        duration: Some(seconds.saturating_mul(SECOND)),
        text: String::from_str(alloc, text)?,
    })
}

/// The times of runs, in seconds after 22:00 of the first day.
fn runs_of(alloc: Global, seconds: &[(u64, u64)]) -> Result<Vec<Extent>, AllocError> {
    let mut runs = Vec::new(alloc);
    for (from, to) in seconds {
        runs.push(Extent {
            from: from.saturating_mul(SECOND).saturating_add(22 * HOUR),
            to: to.saturating_mul(SECOND).saturating_add(22 * HOUR),
        })?;
    }
    Ok(runs)
}

/// The picture of these runs, whose data records last ten seconds; the saturation is 950 tenths,
/// but 901 in the data record after a minute, and 0 in the next.
fn drawn(
    alloc: Global,
    patient: Option<&[u8]>,
    seconds: &[(u64, u64)],
    notes: &[Note],
) -> Result<String, AllocError> {
    let runs = runs_of(alloc, seconds)?;
    let signals = [SATURATION];
    let night = Night {
        duration: 10 * SECOND,
        runs: &runs,
        notes,
        signals: &signals,
    };
    let mut bands = Bands::new(alloc, &runs, 10 * SECOND, &signals)?;
    for (from, to) in seconds {
        for nth in (from / 10)..(to / 10) {
            let value = match nth {
                6 => 901u16,
                7 => 0,
                _ => 950,
            };
            let start = nth.saturating_mul(10 * SECOND).saturating_add(22 * HOUR);
            bands.add(start, &value.to_le_bytes());
        }
    }
    let title = Title {
        patient,
        investigation: b"N1",
    };
    draw(alloc, &title, &night, &bands)
}

/// Is true where the picture has all parts.
fn has_all(svg: Result<String, AllocError>, parts: &[&str]) -> bool {
    let Ok(svg) = svg else {
        return false;
    };
    parts.iter().all(|part| svg.contains(*part))
}

/// What a picture of 1,000 seconds says, of which those from 500 to 700 were not recorded.
const NIGHT: &[&str] = &[
    "<title id='edf-title'>Patient P&lt;7&amp;&quot;&#39;&gt;, investigation N1</title>",
    "<text class='b' x='8' y='24'>Patient P&lt;7&amp;&quot;&#39;&gt;</text>",
    ">from 1985-01-01 22:00:00 to 1985-01-01 22:16:40</text>",
    ">16 min 40 s, 13 min 20 s recorded</text>",
    ">1 gap, 3 min 20 s long</text>",
    "<rect class='g' x='50.0%' y='",
    "width='20.0%' height='18'/>",
    ">1985-01-01 22:08:20, 3 min 20 s</text>",
    // N2 from 100 to 400, and R from 700 to 730
    "M100 45h300v3h-300z",
    "M700 13h30v7h-30z",
    // a second at 10, and what lasts from 20 to 50
    "M10 0h1v9h-1zM20 0h30v9h-30z",
    ">2 × &lt;&amp;&gt;</text>",
    // the saturation goes from 95 to 90.1, and below that to 0
    ">SpO2 %</text>",
    ">95</text>",
    ">90.1</text>",
    ">0</text>",
    "M59.5 0V1M60.5 420V421",
    "M69.5 420V421M70.5 480V481",
];

fn night(alloc: Global) -> Result<String, AllocError> {
    let notes = [
        note(alloc, 100, 300, "Sleep stage N2")?,
        note(alloc, 700, 30, "R")?,
        note(alloc, 10, 0, "<&>")?,
        note(alloc, 20, 30, "<&>")?,
    ];
    drawn(alloc, Some(b"P<7&\"'>"), &[(0, 500), (700, 1_000)], &notes)
}

/// How a picture of ten minutes without a code begins and goes on.
const COMPLETE: &[&str] = &[
    "<text class='b' x='8' y='24'>Patient code left out</text>",
    ">complete from 1985-01-01 22:00:00 to 1985-01-01 22:10:00</text>",
    ">no gap</text>",
];

#[test]
fn a_picture_has_codes_times_gaps_stages_lanes_and_bands(rt: HostRuntime) {
    let alloc = rt.alloc();
    for part in NIGHT {
        assert!(rt; has_all(night(alloc), &[part]), "{part}");
    }
    for part in COMPLETE {
        let svg = drawn(alloc, None, &[(0, 600)], &[]);
        assert!(rt; has_all(svg, &[part]), "{part}");
    }
}

#[test]
fn a_picture_of_no_data_record_says_so(rt: HostRuntime) {
    let svg = drawn(rt.alloc(), None, &[], &[]);
    assert!(rt; has_all(svg, &[">no data record</text>"]));
}
