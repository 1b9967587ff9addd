//! The versions of traces, and what each has room for (own rule).
ghost use Rattle.std.specs.Prelude.{◌≡◌};
ghost use Rattle.cxl_codec.specs.Versions.{event_fits, setup_fits, version_number};

use crate::version_one::{fits_version_one, setup_fits_version_one};
use cxl_message::{Event, Setup};

/// The version of a trace (own rule).
#[derive(Clone, Copy, PartialEq, Eq, Debug)]
pub enum Version {
    /// Tags have 16 bits, a setup has at most 64 tags, and no stream has a name.
    One,
    /// Tags have 32 bits, a setup has up to 1,024 tags, and streams may have names.
    Two,
}

impl Version {
    /// The number of the version: 1 or 2.
    #[inline(always)]
    pub fn number(self) -> u8
        ensures { result ≡ version_number self }
    {
        match self {
            Version::One => 1,
            Version::Two => 2,
        }
    }

    /// Whether the version has room for every Tag of an event: version 1 for those below 65,536, version 2 for all.
    pub fn fits(self, event: &Event) -> bool
        ensures { result ≡ event_fits self event.now }
    {
        match self {
            Version::One => fits_version_one(event),
            Version::Two => true,
        }
    }

    /// Whether the version has room for the number of tags of a setup: version 1 for at most 64, version 2 for all.
    pub fn fits_setup(self, setup: &Setup) -> bool
        ensures { result ≡ setup_fits self setup.now }
    {
        match self {
            Version::One => setup_fits_version_one(setup),
            Version::Two => true,
        }
    }
}
