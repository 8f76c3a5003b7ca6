//! What an instruction is needed for.
use explore::{ExploreFault, Failure};
use image_reasons::Site;
use isa::Instr;

/// What a flush or a fence of a program is needed for.
#[derive(Drop)]
pub enum Need {
    /// Without it alone, this run makes a condition false.
    Needed(Failure),
    /// Without it alone what is asked holds, and without all that are left out together.
    LeftOut,
    /// Without it alone what is asked holds. Without it and those before it that are left out, this run makes a condition
    /// false.
    Kept(Failure),
    /// It is not told whether what is asked holds without it alone.
    Untold(ExploreFault),
    /// Without it alone what is asked holds. Without it and those before it that are left out it is not told.
    KeptUntold(ExploreFault),
}

/// What is said of a weaker instruction in place of one that stays.
#[derive(Drop)]
pub enum WeakerSaid {
    /// With it what is asked holds.
    Does,
    /// With it this run makes a condition false.
    DoesNot(Failure),
    /// With it, it is not told whether what is asked holds.
    NotKnown(ExploreFault),
}

/// A weaker instruction, and what is said of it.
#[derive(Drop)]
pub struct Weaker {
    /// Which instruction it is.
    pub instr: Instr,
    /// What is said of it.
    pub said: WeakerSaid,
}

/// A flush or a fence, and what it is needed for.
#[derive(Drop)]
pub struct SiteNeed {
    /// Where it stands.
    pub site: Site,
    /// Which instruction it is.
    pub instr: Instr,
    /// What it is needed for.
    pub need: Need,
    /// The weaker instruction in its place, if it stays and there is one.
    pub weaker: Option<Weaker>,
}
