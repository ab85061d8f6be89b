use crate::extent::{COLUMNS, Extent};
use std::alloc::{AllocError, Global};

pub(crate) type Drawn = Result<(), AllocError>;

/// What is drawn so far, from the top down: over the whole width, and over the axis.
#[derive(Drop)]
pub(crate) struct Sheet {
    pub(crate) alloc: Global,
    pub(crate) axis: Extent,
    outer: String,
    inner: String,
    /// Where the next part begins, in pixels.
    pub(crate) y: u64,
}

impl Sheet {
    pub(crate) fn new(alloc: Global, axis: Extent, y: u64) -> Sheet {
        Sheet {
            alloc,
            axis,
            outer: String::new(alloc),
            inner: String::new(alloc),
            y,
        }
    }

    pub(crate) fn skip(&mut self, pixels: u64) {
        self.y = self.y.saturating_add(pixels);
    }

    /// Writes a line. Here and below a text is well-formed already.
    pub(crate) fn line(&mut self, text: &str) -> Drawn {
        let y = self.y.saturating_add(12);
        self.skip(17);
        write!(self.outer, "<text x='8' y='{y}'>{text}</text>\n")
    }

    /// Writes a text at the left of the axis, so many pixels below.
    pub(crate) fn label(&mut self, below: u64, text: &str) -> Drawn {
        let y = self.y.saturating_add(below);
        write!(
            self.outer,
            "<text class='e' x='13%' y='{y}'>{text}</text>\n"
        )
    }

    /// Writes a text over the axis, so many pixels below.
    pub(crate) fn over(&mut self, class: &str, x: u64, below: u64, text: &str) -> Drawn {
        let (whole, tenth, y) = (x / 10, x % 10, self.y.saturating_add(below));
        write!(
            self.inner,
            "<text class='{class}' x='{whole}.{tenth}%' y='{y}'>{text}</text>\n"
        )
    }

    /// Draws a box over columns of the axis, from the first of them on, so many pixels below.
    pub(crate) fn bar(&mut self, class: char, columns: (u64, u64), below: u64, high: u64) -> Drawn {
        let (x, wide, y) = (columns.0, columns.1, self.y.saturating_add(below));
        let (x, part, wide, more) = (x / 10, x % 10, wide / 10, wide % 10);
        write!(
            self.inner,
            "<rect class='{class}' x='{x}.{part}%' y='{y}' width='{wide}.{more}%' \
height='{high}'/>\n"
        )
    }

    /// Draws a path. A column is a unit wide, whatever the width of the axis, and so many units of
    /// its height are a pixel.
    pub(crate) fn plot(&mut self, class: char, path: &str, high: u64, units: u64) -> Drawn {
        let (y, all) = (self.y, high.saturating_mul(units));
        write!(
            self.inner,
            "<svg y='{y}' height='{high}' viewBox='0 0 {COLUMNS} {all}' \
preserveAspectRatio='none' overflow='visible'><path class='{class}' d='{path}'/></svg>\n"
        )
    }

    /// Writes what a shape means that is so high, over one that is recorded.
    pub(crate) fn key(&mut self, class: char, high: u64, text: &str) -> Drawn {
        let y = self.y.saturating_add(2);
        write!(
            self.outer,
            "<rect class='r' x='8' y='{y}' width='20' height='12'/>\
<rect class='{class}' x='8' y='{y}' width='20' height='{high}'/>"
        )?;
        let text = format!(in self.alloc; "<tspan dx='28'>{text}</tspan>")?;
        self.line(text.as_str())
    }

    /// All of it as one text, with the axis in its place from left to right.
    pub(crate) fn finish(&self) -> Result<String, AllocError> {
        let (inner, outer, high) = (self.inner.as_str(), self.outer.as_str(), self.y);
        format!(in self.alloc;
            "<svg x='14%' width='82%' height='{high}' overflow='visible'>\n{inner}</svg>\n{outer}"
        )
    }
}
