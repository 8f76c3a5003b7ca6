//! What is asked about the images of a state.
ghost use Rattle.std.specs.Prelude.{◌≡◌};
ghost use Rattle.jobs.specs.ImageReports.{looks};

use images::Cond;
use std::marker::Model;

/// What is asked about the images of a state.
#[derive(Drop)]
pub struct Question {
    /// The images themselves are not listed.
    pub only_count: bool,
    /// Does this hold for all images?
    pub all: Option<Cond>,
    /// Does this hold for some image?
    pub some: Option<Cond>,
}

impl Model for Question {
    ghost use Rattle.conditions.specs.FormulaCodes.{coded_formula};
    ghost use Rattle.std.specs.Coded.{codes};
    ghost use Rattle.jobs.specs.ImageReports as reports;

    ghost Value = { reports.Question };

    ghost coded = { Prim.hlevel (codes, coded_formula) };

    ghost view = { λ q. record { only_count = q.only_count; all = q.all; some = q.some } };
}

impl Question {
    /// Whether the images are looked at.
    pub fn looks(&self) -> bool
        ensures { result ≡ looks self.now }
    {
        !self.only_count || self.all.is_some() || self.some.is_some()
    }
}
