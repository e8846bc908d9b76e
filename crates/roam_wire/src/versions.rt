//! The versions of the format, and how much each allows.
ghost use Rattle.std.specs.Prelude.{◌≡◌};
ghost use Rattle.roam_wire.specs.Versions.{most_bytes, most_fragments, number_of_version, version_numbered};

use crate::cutting::FRAGMENT;

/// A version of the format.
#[derive(Clone, Copy, Debug, PartialEq, Eq)]
pub enum Version {
    /// The first: an instruction has at most 1,024 fragments, and nobody only watches.
    One,

    /// The second: an instruction has at most 4,096 fragments, and a client's instance may only watch.
    Two,
}

impl Version {
    // Returns the byte of this version.
    pub(crate) fn number(self) -> u8
        ensures number { result ≡ number_of_version self }
    {
        match self {
            Version::One => 1,
            Version::Two => 2,
        }
    }

    // Returns the version of a byte.
    pub(crate) fn numbered(number: u8) -> Option<Version>
        ensures version { result ≡ version_numbered number }
    {
        match number {
            1 => Some(Version::One),
            2 => Some(Version::Two),
            _ => None,
        }
    }

    // How many fragments an instruction has at most.
    pub(crate) fn most_fragments(self) -> usize
        ensures most { result ≡ most_fragments self }
    {
        match self {
            Version::One => 1024,
            Version::Two => 4096,
        }
    }

    // How many bytes an instruction's text has at most.
    pub(crate) fn most_bytes(self) -> usize
        ensures most { result ≡ most_bytes self }
    {
        FRAGMENT * self.most_fragments()
    }
}
