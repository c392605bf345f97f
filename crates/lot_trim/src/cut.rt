//! The part of a run that a trim keeps.
ghost use Rattle.std.specs.Prelude.{◌≡◌, ◌≤◌, ◌<◌, ◌+ℤ◌, min, max, pos, unsigned_abs, IfOk};
ghost use Rattle.lot_trim.specs.Cut.{whole_run, first_fraction, run_fraction as fraction_in, width_of, start_of, length_at as length_in, fractions_from, lengths_between, kept_intervals};
ghost use Rattle.lot_trim.specs.Run.{max_run_length};

use crate::interval::Interval;
use lot_num::rnd_div;
use lot_types::{Fx, Memory, Seq};
use std::alloc::Global;

/// The members of a trim at a time.
#[derive(Clone, Copy)]
pub struct TrimCut {
    /// One end of what is kept, in millionths of a per cent of the length. It is limited to 0 to 100 per cent
    /// where it is used.
    pub s: Fx,
    /// The other end. The smaller of both is the first.
    pub e: Fx,
    /// How far both are moved along the length, in millionths of a degree: 360 degrees are the whole length. What
    /// passes the end comes in again at the start.
    pub o: Fx,
}

/// 100 per cent, in millionths.
const WHOLE_PERCENT: i64 = 100_000_000;

/// The whole run, in millionths.
pub(crate) const WHOLE_RUN: u32 = 1_000_000;

impl TrimCut {
    /// How much is kept, in millionths of the run: from 0 to 10^6.
    #[tactic(auto, unfolding(crate::specs::Cut::width_of))]
    pub(crate) fn width(&self) -> u32
        ensures value { result ≡ width_of self.now }
        ensures small { result ≤ whole_run }
    {
        let (s, e) = (run_fraction(self.s), run_fraction(self.e));
        if s < e { e - s } else { s - e }
    }

    /// Where what is kept begins, in millionths of the run: from 0 to below 10^6.
    #[tactic(auto, unfolding(crate::specs::Cut::start_of))]
    fn start(&self) -> u32
        ensures value { result ≡ start_of self.now }
        ensures small { result < whole_run }
    {
        let offset = rnd_div(self.o.get() as i128, 360) as i64;
        (self.first_fraction() as i64 + offset).rem_euclid(WHOLE_RUN as i64) as u32
    }

    /// The smaller of both ends, in millionths of the run.
    fn first_fraction(&self) -> u32
        ensures value { result ≡ first_fraction self.now }
        ensures small { result ≤ whole_run }
    {
        run_fraction(self.s).min(run_fraction(self.e))
    }

    /// The lengths that are kept of a run of this length: one interval, or two where what is kept passes the end of the
    /// run. Want of memory is the one refusal.
    #[tactic(auto, unfolding(crate::specs::Cut::kept_intervals))]
    pub(crate) fn intervals(&self, alloc: Global, total: u128) -> Result<Seq<Interval>, Memory>
        requires { total ≤ max_run_length }
        ensures { IfOk result (λ made. made ≡ kept_intervals self.now total) }
    {
        let start = self.start();
        let end = start + self.width();
        let mut made = Seq::new(alloc);
        if end <= WHOLE_RUN {
            made.push(interval(total, start, end))?;
            return Ok(made);
        }
        made.push(interval(total, start, WHOLE_RUN))?;
        made.push(interval(total, 0, end - WHOLE_RUN))?;
        Ok(made)
    }
}

/// A number of per cent as a fraction in millionths, limited to 0 to 100 per cent.
fn run_fraction(x: Fx) -> u32
    ensures value { result ≡ fraction_in x }
    ensures small { result ≤ whole_run }
{
    if x.get() < 0 {
        return 0;
    }
    if WHOLE_PERCENT < x.get() {
        return WHOLE_RUN;
    }
    rnd_div(x.get() as i128, 100).unsigned_abs() as u32
}

/// The lengths between two fractions of a run.
fn interval(total: u128, from: u32, to: u32) -> Interval
    requires total { total ≤ max_run_length }
    requires from { from ≤ whole_run }
    requires to { to ≤ whole_run }
    ensures { result ≡ lengths_between total (record { from = from; to = to }) }
{
    Interval {
        from: length_at(total, from),
        to: length_at(total, to),
    }
}

/// The length at a fraction of a run.
fn length_at(total: u128, fraction: u32) -> u128
    requires total { total ≤ max_run_length }
    requires fraction { fraction ≤ whole_run }
    ensures { result ≡ length_in total fraction }
{
    rnd_div((fraction as u128 * total) as i128, WHOLE_RUN as i128).unsigned_abs()
}
