//! Choosing the least cut that leaves an image: the fewest markers, and then the fewest writes of each line.
ghost use Rattle.std.specs.Prelude.{◌≡◌};
ghost use Rattle.pending_images.specs.LeastCuts.{FitsPending, counts_in, least_cut};

use crate::fits::LineFits;
use crate::gone::{Gone, line_at, lines};
use lines_layout::MAX_LINES;
use persist_buffer::Pending;
use std::marker::Model;

/// How many markers go, and how many writes of each line are persisted.
#[derive(Drop)]
pub(crate) struct Cut {
    pub(crate) markers: usize,
    pub(crate) counts: [usize; MAX_LINES],
}

impl Model for Cut {
    ghost use Rattle.pending_images.specs.LeastCuts as cuts;

    ghost Value = { cuts.Cut };

    ghost view = { λ c. record { markers = c.markers; counts = c.counts } };
}

/// Of each line the least number of writes that fits and may be persisted once these markers went, where
/// each line has such a number.
pub(crate) fn least_counts(gone: &Gone<'_>, fits: &[LineFits]) -> Option<[usize; MAX_LINES]>
    requires { FitsPending fits.now gone.now.pending.memory.pending }
    ensures { result ≡ counts_in fits.now gone.now }
{
    let mut counts = [0; MAX_LINES];
    for number in 0..lines() {
        let line = line_at(number);
        let least = gone.low(line);
        let most = gone.before(line);
        let Some(count) = fits[number].first(least, most) else {
            return None;
        };
        counts[number] = count;
    }
    Some(counts)
}

/// The cut with the fewest markers, and then the fewest writes of each line, where each line fits.
#[tactic(auto, using(crate::proofs::FindingFirstCut::cut_steps))]
pub(crate) fn first_cut(pending: &Pending, fits: &[LineFits]) -> Option<Cut>
    requires { FitsPending fits.now pending.now.memory.pending }
    ensures { result ≡ least_cut fits.now pending.now.memory.pending }
{
    let mut gone = Gone::new(pending);
    let last = pending.markers();
    for markers in 0..last {
        if let Some(counts) = least_counts(&gone, fits) {
            return Some(Cut { markers, counts });
        }
        gone.pass(markers + 1);
    }
    let counts = least_counts(&gone, fits)?;
    Some(Cut {
        markers: last,
        counts,
    })
}
