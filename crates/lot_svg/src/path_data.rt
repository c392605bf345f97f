//! Path data of contours.
ghost use Rattle.std.specs.Prelude.{◌≡◌, ◌&&◌, [], if◌then◌else◌, OnOk};
ghost use Rattle.lot_svg.specs.PathData.{point_text, is_same as same, is_straight as straight, line_text, curve_text, segment_text, kept_text, segments_text, end_text, contour_text, path_text};
ghost use Rattle.lot_svg.specs.Written.{append};

use crate::Writer;
use lot_types::{Contour, Memory, Point, Seg};

fn is_same(p: &Point, q: &Point) -> bool
    ensures { result ≡ same p.now q.now }
{
    p.x == q.x && p.y == q.y
}

/// Whether a segment runs straight from `start` to its end.
fn is_straight(start: &Point, s: &Seg) -> bool
    ensures { result ≡ straight start.now s.now }
{
    is_same(&s.c1, start) && is_same(&s.c2, &s.end)
}

impl Writer {
    /// Writes a point: its coordinates with a space between them.
    #[tactic(auto, using(crate::proofs::Appends::appending), unfolding(crate::specs::PathData::point_text))]
    fn put_point(&mut self, p: &Point) -> Result<(), Memory>
        ensures { OnOk result (self.new ≡ append self.old (point_text p.now)) }
    {
        self.put_length(p.x)?;
        self.put(" ")?;
        self.put_length(p.y)
    }

    #[tactic(auto, using(crate::proofs::Appends::appending), unfolding(crate::specs::PathData::line_text))]
    fn put_line(&mut self, s: &Seg) -> Result<(), Memory>
        ensures { OnOk result (self.new ≡ append self.old (line_text s.now)) }
    {
        self.put("L")?;
        self.put_point(&s.end)
    }

    #[tactic(auto, using(crate::proofs::Appends::appending), unfolding(crate::specs::PathData::curve_text))]
    fn put_curve(&mut self, s: &Seg) -> Result<(), Memory>
        ensures { OnOk result (self.new ≡ append self.old (curve_text s.now)) }
    {
        self.put("C")?;
        self.put_point(&s.c1)?;
        self.put(" ")?;
        self.put_point(&s.c2)?;
        self.put(" ")?;
        self.put_point(&s.end)
    }

    /// Writes a segment from `start`: as a line where it is straight, else as a curve.
    #[tactic(auto, unfolding(crate::specs::PathData::segment_text))]
    fn put_segment(&mut self, start: &Point, s: &Seg) -> Result<(), Memory>
        ensures { OnOk result (self.new ≡ append self.old (segment_text start.now s.now)) }
    {
        if is_straight(start, s) {
            self.put_line(s)
        } else {
            self.put_curve(s)
        }
    }

    /// Writes a segment from `start`, which is left out where it is straight and closes its contour.
    #[tactic(auto, using(crate::proofs::Appends::appending), unfolding(crate::specs::PathData::kept_text))]
    fn put_kept(&mut self, closes: bool, start: &Point, s: &Seg) -> Result<(), Memory>
        ensures { OnOk result (self.new ≡ append self.old (kept_text closes start.now s.now)) }
    {
        if closes && is_straight(start, s) {
            return Ok(());
        }
        self.put_segment(start, s)
    }

    /// Writes segments, each from the end of the one before it.
    fn put_segments(&mut self, closed: bool, start: &Point, segs: &[Seg]) -> Result<(), Memory>
        ensures { OnOk result (self.new
            ≡ append self.old (segments_text closed start.now segs.now)) }
    {
        let mut from = start;
        let mut i = 0;
        while i < segs.len() {
            let s = &segs[i];
            i += 1;
            let last = i == segs.len();
            self.put_kept(closed && last, from, s)?;
            from = &s.end;
        }
        Ok(())
    }

    #[tactic(auto, using(crate::proofs::Appends::appending))]
    fn put_end(&mut self, closed: bool) -> Result<(), Memory>
        ensures { OnOk result (self.new ≡ append self.old (end_text closed)) }
    {
        if closed { self.put("Z") } else { Ok(()) }
    }

    #[tactic(auto, using(crate::proofs::Appends::appending), unfolding(crate::specs::PathData::contour_text))]
    fn put_contour(&mut self, c: &Contour) -> Result<(), Memory>
        ensures { OnOk result (self.new ≡ append self.old (contour_text c.now)) }
    {
        self.put("M")?;
        self.put_point(&c.start)?;
        self.put_segments(c.closed, &c.start, c.segs.items())?;
        self.put_end(c.closed)
    }

    /// Writes the path data of contours.
    pub(crate) fn put_path(&mut self, contours: &[Contour]) -> Result<(), Memory>
        ensures { OnOk result (self.new ≡ append self.old (path_text contours.now)) }
    {
        for c in contours {
            self.put_contour(c)?;
        }
        Ok(())
    }
}
