//! How many writes of each line must be persisted, one marker after another.
ghost use Rattle.std.specs.Prelude.{◌≡◌, ◌+◌, ◌<◌, ◌≤◌, min};
ghost use Rattle.lines_layout.specs.Lines.{max_lines};
ghost use Rattle.pending_images.specs.Candidates.{all_lines};
ghost use Rattle.pending_images.specs.Gone.{HasMarker, before_in, low_in, next_of, none_gone, product_in};

use lines_layout::{LineId, MAX_LINES};
use persist_buffer::Pending;
use std::marker::Model;

/// The least number of candidates that is not counted.
const TOO_MANY: u64 = 65_537;

/// How many lines there may be.
#[tactic(auto, unfolding(crate::specs::Candidates::all_lines))]
pub(crate) fn lines() -> usize
    ensures value { result ≡ all_lines }
    ensures all { result ≡ max_lines }
{
    MAX_LINES
}

pub(crate) fn line_at(number: usize) -> LineId
    requires { number < max_lines }
    ensures { result ≡ number }
{
    LineId::new(number).unwrap()
}

/// A pending list of which so many markers went, the first ones, and no other.
#[derive(Drop)]
pub struct Gone<'a> {
    pending: &'a Pending,
    markers: usize,
    /// How many writes of each line must then be persisted.
    lows: [usize; MAX_LINES],
}

impl<'a> Model for Gone<'a> {
    ghost use Rattle.pending_images.specs.Gone as gone;

    ghost Value = { gone.Gone };

    ghost view = { λ g. record { pending = g.pending.now; markers = g.markers } };

    ghost invariant = { λ g. gone.AreLows g.markers g.pending.now.memory.pending g.lows };
}

impl<'a> Gone<'a> {
    /// No marker went.
    pub(crate) fn new(pending: &'a Pending) -> Gone<'a>
        ensures { result ≡ none_gone pending.now }
    {
        Gone {
            pending,
            markers: 0,
            lows: [0; MAX_LINES],
        }
    }

    /// The pending list.
    pub(crate) fn pending(&self) -> &'a Pending
        ensures { result.now ≡ self.now.pending }
    {
        self.pending
    }

    /// How many writes of a line must be persisted.
    #[tactic(auto, using(crate::proofs::CountsBeforeMarkers::low_within))]
    pub(crate) fn low(&self, line: LineId) -> usize
        ensures value { result ≡ low_in line self.now }
        ensures within { result ≤ before_in line self.now }
    {
        self.lows[line.number()]
    }

    /// How many may be.
    pub(crate) fn before(&self, line: LineId) -> usize
        ensures { result ≡ before_in line self.now }
    {
        if self.pending.writes(line) == 0 {
            // So it is of most lines, and this is seen at once.
            return 0;
        }
        self.pending.before(line, self.markers)
    }

    /// One marker more goes, so that so many went. It waits for all writes of its line before it.
    pub(crate) fn pass(&mut self, markers: usize)
        requires there { HasMarker self.old }
        requires next { markers ≡ self.old.markers + 1 }
        ensures { self.new ≡ next_of self.old }
    {
        let line = self.pending.marker(self.markers);
        let least = self.pending.before(line, self.markers);
        self.lows[line.number()] = least;
        self.markers = markers;
    }

    /// The product of the choices, up to the least number that is not counted.
    pub(crate) fn product(&self) -> u64
        ensures { result ≡ min 65537 (product_in self.now) }
    {
        let mut product = 1;
        for number in 0..lines() {
            let line = line_at(number);
            let open = self.before(line) - self.low(line);
            // No more choices than that have to be told apart, and the product stays small.
            product *= open.min(65536) as u64 + 1;
            if product >= TOO_MANY {
                return TOO_MANY;
            }
        }
        product
    }
}
