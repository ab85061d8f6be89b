ghost use Rattle.std.specs.Prelude.{◌≡◌, ℕ, List, IfOk, string_bytes};
ghost use Rattle.edf_picture.specs.Picture.{IsTimeLine, drawn_texts, head_of, named_by, names_of};
ghost use Rattle.edf_picture.specs.Picture.{patient_words, text_with, title_line};

use crate::escape::{escaped, text_with};
use crate::extent::Extent;
use crate::times::instant_label;
use std::alloc::{AllocError, Global};

/// What the title names.
#[derive(Clone, Copy)]
pub struct Title<'a> {
    /// The patient code, in printable ASCII, where it is not left out.
    pub patient: Option<&'a [u8]>,
    /// The investigation code, in printable ASCII.
    pub investigation: &'a [u8],
}

const SHOWN: usize = 38;

const ALL: usize = 1_000;

const STYLE: &str = "<style>\
text{font-family:Arial,'Liberation Sans',Helvetica,Roboto,sans-serif;font-size:12px;fill:#000}\
.b{font-size:14px;font-weight:bold}.m{text-anchor:middle}.e{text-anchor:end}\
.w{fill:#fff}.r{fill:#0072B2}.g,.p{fill:url(#edf-gap)}.v{fill:#000;fill-opacity:.1}\
.h{fill:#fff}.k{fill:#A84300}.l{fill:#000;fill-opacity:.2}\
.s,.q,.x,.a{stroke-width:1px;vector-effect:non-scaling-stroke}\
.a{stroke-width:1.7px;stroke-linecap:square}\
.s{fill:#000;stroke:#000}.q{fill:#00795B;stroke:#00795B}\
.x{fill:#8A3C00;stroke:#8A3C00}.a{fill:none;stroke:#0072B2}\
@media(max-width:640px){text{font-size:11px}.b{font-size:12px}.n{display:none}}\
@media screen and (prefers-color-scheme:dark){text{fill:#eee}.w{fill:#16181c}\
.r{fill:#56B4E9}.v{fill:#fff;fill-opacity:.14}.h{fill:#16181c}.k{fill:#E69F00}\
.l{fill:#fff}.s{fill:#fff;stroke:#fff}.q{fill:#2FC59A;stroke:#2FC59A}\
.x{fill:#E69F00;stroke:#E69F00}.a{stroke:#56B4E9}}</style>\
<defs><pattern id='edf-gap' width='6' height='6' patternUnits='userSpaceOnUse' \
patternTransform='rotate(45)'><rect class='h' width='6' height='6'/>\
<rect class='k' width='2' height='6'/></pattern></defs>\
<rect class='w' width='100%' height='100%'/>\n";

/// The start of an SVG of this height, up to the line of times.
pub(crate) fn head(
    alloc: Global,
    title: &Title<'_>,
    height: u64,
    time: &str,
    more: &str,
) -> Result<String, AllocError>
    ensures { IfOk result (λ t. (text : List ℕ) × (string_bytes t ≡ head_of height
        (title_line 1000 (named_by title.now)) (text_with 39 39 text)
        (drawn_texts (named_by title.now) time.now) time.now)) }
{
    let name = title.line(alloc, ALL)?;
    let drawn = title.drawn(alloc, time)?;
    let more = text_with(alloc, more.as_bytes(), b'\'', b'\'')?;
    let mut svg = names_text(alloc, height, name.as_str(), time, more.as_str())?;
    svg.push_str(STYLE)?;
    svg.push_str(drawn.as_str())?;
    Ok(svg)
}

/// The start of an SVG, with what programs read out.
fn names_text(
    alloc: Global,
    height: u64,
    name: &str,
    time: &str,
    more: &str,
) -> Result<String, AllocError>
    ensures { IfOk result (λ t. string_bytes t ≡ names_of height name.now time.now more.now) }
{
    format!(in alloc;
        "<svg xmlns='http://www.w3.org/2000/svg' role='img' \
aria-labelledby='edf-title edf-desc' width='100%' height='{height}'>\
<title id='edf-title'>{name}</title><desc id='edf-desc'>{time}. {more}.</desc>"
    )
}

impl Title<'_> {
    /// The patient code, or that it is left out.
    fn patient(&self) -> &[u8]
        ensures { result.now ≡ patient_words (named_by self.now).patient }
    {
        match self.patient {
            Some(code) => code,
            None => b"code left out".as_slice(),
        }
    }

    /// Both codes, each cut after so many characters.
    fn line(&self, alloc: Global, limit: usize) -> Result<String, AllocError>
        ensures { IfOk result (λ t. string_bytes t ≡ title_line limit (named_by self.now)) }
    {
        let patient = escaped(alloc, self.patient(), limit)?;
        let investigation = escaped(alloc, self.investigation, limit)?;
        format!(in alloc; "Patient {patient}, investigation {investigation}")
    }

    /// The title as it is drawn, a line for each code, and below it the line of times.
    fn drawn(&self, alloc: Global, time: &str) -> Result<String, AllocError>
        ensures { IfOk result (λ t. string_bytes t ≡ drawn_texts (named_by self.now) time.now) }
    {
        let patient = escaped(alloc, self.patient(), SHOWN)?;
        let investigation = escaped(alloc, self.investigation, SHOWN)?;
        format!(in alloc;
            "<text class='b' x='8' y='24'>Patient {patient}</text>\
<text class='b' x='8' y='44'>Investigation {investigation}</text><text x='8' y='64'>{time}</text>"
        )
    }
}

/// The start of the first run and the end of the last, and whether all between them is recorded.
pub(crate) fn time_line(alloc: Global, runs: &[Extent]) -> Result<String, AllocError>
    ensures { IfOk result (λ t. IsTimeLine runs.now (string_bytes t)) }
{
    let [first, ..] = runs else {
        return String::from_str(alloc, "no data record");
    };
    let from = instant_label(alloc, first.from)?;
    let to = instant_label(alloc, runs[runs.len() - 1].to)?;
    if runs.len() == 1 {
        format!(in alloc; "complete from {from} to {to}")
    } else {
        format!(in alloc; "from {from} to {to}")
    }
}
