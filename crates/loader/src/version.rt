//! The versions of the format.
ghost use Rattle.std.specs.Prelude.{◌≡◌};
ghost use Rattle.loader.specs.Versions.{digit_of, most_processors, version_of};

use isa::MAX_PROCESSORS;

/// How many processors an object of version 1 may have.
const FIRST_MAX_PROCESSORS: usize = 8;

/// A version of the format. Its digit is after `PX86OBJ`.
#[derive(Clone, Copy, Debug, PartialEq, Eq)]
pub enum Version {
    /// Without names, for at most 8 processors: words are named by their numbers.
    One,
    /// With the names of the words, for at most [`MAX_PROCESSORS`] processors. It alone is written.
    Two,
}

impl Version {
    /// The version of this digit, if it is one's.
    pub fn of(digit: u8) -> Option<Version>
        ensures { result ≡ version_of digit }
    {
        match digit {
            b'1' => Some(Version::One),
            b'2' => Some(Version::Two),
            _ => None,
        }
    }

    /// Its digit.
    pub fn digit(self) -> u8
        ensures { result ≡ digit_of self }
    {
        match self {
            Version::One => b'1',
            Version::Two => b'2',
        }
    }

    /// How many processors an object of this version may have.
    pub fn most_processors(self) -> usize
        ensures { result ≡ most_processors self }
    {
        match self {
            Version::One => FIRST_MAX_PROCESSORS,
            Version::Two => MAX_PROCESSORS,
        }
    }
}
