use crate::escape::readable;
use crate::extent::{COLUMNS, Extent, Note};
use crate::gaps::stretches_of;
use crate::sheet::{Drawn, Sheet};
use crate::stages::line_of;
use std::alloc::{AllocError, Global};
use std::collections::BTreeMap;

const OWN: usize = 8;

const HIGH: u64 = 9;

/// A lane: of one text, or of all that have none of their own.
#[derive(Drop)]
struct Lane<'a> {
    text: Option<&'a str>,
    title: String,
    /// How many events begin in a column, less those that end before it.
    edges: Vec<i64>,
}

/// How many of these annotations have each text.
fn count_texts<'a>(
    alloc: Global,
    notes: &[&'a Note],
) -> Result<BTreeMap<&'a str, u64>, AllocError> {
    let mut counts = BTreeMap::new(alloc);
    for note in notes {
        let text = note.text.as_str();
        let count = counts.get(text).copied().unwrap_or(0u64);
        counts.insert(text, count.saturating_add(1))?;
    }
    Ok(counts)
}

/// The lanes of the most frequent texts, of two as frequent the first by its bytes, and of the
/// rest. A text is shown to 36 characters, or to 28 where over nine are wide.
fn list_lanes<'a>(alloc: Global, notes: &[&'a Note]) -> Result<Vec<Lane<'a>>, AllocError> {
    let counts = count_texts(alloc, notes)?;
    let mut texts = Vec::new(alloc);
    for (text, count) in counts.iter() {
        texts.push((*text, *count))?;
    }
    texts.sort_by(|one, other| other.1.cmp(&one.1))?;
    let (mut lanes, mut rest) = (Vec::new(alloc), 0u64);
    for (place, (text, count)) in texts.iter().enumerate() {
        if place < OWN {
            let wide = text.chars().filter(|one| *one == 'W' || *one >= '\u{2e80}');
            let most = if wide.count() > 9 { 28 } else { 36 };
            let shown = readable(alloc, text, most)?;
            let shown = shown.as_str();
            let is_blank = shown.trim_end_matches(' ').is_empty();
            let shown = if is_blank { "(no text)" } else { shown };
            let title = format!(in alloc; "{count} × {shown}")?;
            lanes.push(Lane::new(alloc, Some(*text), title)?)?;
        } else {
            rest = rest.saturating_add(*count);
        }
    }
    if rest > 0 {
        let count = texts.len().saturating_sub(OWN);
        let title = format!(in alloc; "others: {rest}, texts: {count}")?;
        lanes.push(Lane::new(alloc, None, title)?)?;
    }
    Ok(lanes)
}

/// Draws a lane for each of the most frequent texts, and one for the others; answers how many.
pub(crate) fn draw_lanes(sheet: &mut Sheet, notes: &[Note]) -> Result<usize, AllocError> {
    let mut events = Vec::new(sheet.alloc);
    for note in notes {
        if line_of(note.text.as_str()).is_none() {
            events.push(note)?;
        }
    }
    let mut lanes = list_lanes(sheet.alloc, &events)?;
    for note in &events {
        add_event(&mut lanes, note, sheet.axis);
    }
    sheet.skip(8);
    for lane in &lanes {
        lane.draw(sheet)?;
    }
    Ok(lanes.len())
}

/// Marks an event in the first lane that has its text.
fn add_event(lanes: &mut [Lane<'_>], note: &Note, axis: Extent) {
    let from = note.onset;
    let to = from.saturating_add(note.duration.unwrap_or(0));
    for lane in lanes.iter_mut() {
        if lane.has(note.text.as_str()) {
            lane.add(Extent { from, to }, axis);
            return;
        }
    }
}

impl<'a> Lane<'a> {
    fn new(alloc: Global, text: Option<&'a str>, title: String) -> Result<Lane<'a>, AllocError> {
        let edges = vec![in alloc; 0i64; COLUMNS as usize + 1]?;
        Ok(Lane { text, title, edges })
    }

    fn has(&self, text: &str) -> bool {
        match self.text {
            Some(own) => own == text,
            None => true,
        }
    }

    /// Marks the columns of an event; of one outside of the axis none.
    fn add(&mut self, time: Extent, axis: Extent) {
        if axis.to <= time.from || (time.from < axis.from && time.to <= axis.from) {
            return;
        }
        let first = axis.column_of(time.from);
        let next = axis.last_column(time.to).max(first).saturating_add(1);
        for (column, change) in [(first, 1), (next, -1)] {
            if let Some(sum) = self.edges.get_mut(column as usize) {
                *sum = sum.saturating_add(change);
            }
        }
    }

    /// Draws its title and a bar for each stretch of columns that an event is in.
    fn draw(&self, sheet: &mut Sheet) -> Drawn {
        sheet.line(self.title.as_str())?;
        let (mut marked, mut open) = (Vec::new(sheet.alloc), 0i64);
        for change in &self.edges {
            open = open.saturating_add(*change);
            marked.push(open > 0)?;
        }
        let mut path = String::new(sheet.alloc);
        for (first, count) in &stretches_of(sheet.alloc, &marked)? {
            write!(path, "M{first} 0h{count}v{HIGH}h-{count}z")?;
        }
        sheet.plot('x', path.as_str(), HIGH, 1)?;
        sheet.skip(HIGH + 2);
        Ok(())
    }
}
