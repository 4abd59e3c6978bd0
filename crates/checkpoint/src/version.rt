//! The versions of a store's header, and all that depends on them.

ghost use Rattle.std.specs.Prelude.{◌≡◌, ◌<◌, ◌^◌, ◌↔◌, Some};
ghost use Rattle.checkpoint.specs.declared.version.Version.{Version};
ghost use Rattle.checkpoint.specs.Version.{VersionTakes, grain_byte, version_number};
ghost use Rattle.prefix_lattice.specs.declared.grain.Grain.{Grain};

use prefix_lattice::Grain;

/// The version of a store's header.
#[derive(Clone, Copy, Debug, PartialEq, Eq)]
pub enum Version {
    /// It names no grain: its stores keep prefixes by whole bytes.
    First,
    /// It names the grain.
    Second,
}

impl Version {
    /// The number of a version, which byte 6 of a store has.
    pub(crate) fn number(self) -> u8
        ensures { result ≡ version_number self }
    {
        match self {
            Version::First => 1,
            Version::Second => 2,
        }
    }

    /// The version with this number.
    pub(crate) fn numbered(number: u8) -> Option<Version>
        ensures { (version : Version) → (result ≡ Some version) ↔ (number ≡ version_number version) }
    {
        match number {
            1 => Some(Version::First),
            2 => Some(Version::Second),
            _ => None,
        }
    }

    /// What byte 12 of a store of this version and this grain has.
    pub(crate) fn byte_of(self, grain: Grain) -> u8
        ensures { result ≡ grain_byte self grain }
    {
        match self {
            Version::First => 0,
            Version::Second => grain.bits(),
        }
    }

    /// The grain that this byte 12 names in this version.
    pub(crate) fn grain_of(self, byte: u8) -> Option<Grain>
        ensures { (grain : Grain) → (result ≡ Some grain) ↔ (VersionTakes self grain × (byte ≡ grain_byte self grain)) }
    {
        match (self, byte) {
            (Version::First, 0) => Some(Grain::Byte),
            (Version::Second, 8) => Some(Grain::Byte),
            (Version::Second, 4) => Some(Grain::Nibble),
            _ => None,
        }
    }
}
