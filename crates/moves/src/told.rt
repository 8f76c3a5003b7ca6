//! Where what is told of a moved program stands in the program as it is.
ghost use Rattle.std.specs.Prelude.{◌≡◌};
ghost use Rattle.image_reasons.specs.Repairs.{put_at};
ghost use Rattle.moves.specs.Told.{is_theirs, old_place, old_repair, old_site};

use crate::one_move::Move;
use image_reasons::{Repair, Side, Site};

/// Whether a site is in the program in which a store is moved.
fn is_theirs(one: Move, site: Site) -> bool
    ensures { result ≡ is_theirs one site }
{
    site.processor == one.from.processor && site.recovering == one.from.recovering
}

/// The place of an instruction as the program was.
fn old_place(one: Move, place: usize) -> usize
    ensures { result ≡ old_place one place }
{
    match one.side {
        Side::Before if place == one.to => one.from.place,
        Side::Before if place > one.to => place - 1,
        Side::Behind if place > one.to && place - 1 == one.to => one.from.place,
        Side::Behind if place > one.to => place - 1,
        Side::Before | Side::Behind => place,
    }
}

/// Where an instruction of a moved program stands in the program as it is: the store where it stood.
pub fn old_site(one: Move, site: Site) -> Site
    ensures { result ≡ old_site one site }
{
    if is_theirs(one, site) {
        Site {
            place: old_place(one, site.place),
            ..site
        }
    } else {
        site
    }
}

/// An instruction that is put into a moved program, by where that stands in the program as it is.
pub fn old_repair(one: Move, repair: Repair) -> Repair
    ensures { result ≡ old_repair one repair }
{
    Repair {
        site: old_site(one, repair.site),
        ..repair
    }
}
