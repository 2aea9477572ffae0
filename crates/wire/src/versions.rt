//! The versions of the protocol, and what tells them apart.

ghost use Rattle.std.specs.Prelude.{◌≡◌};
ghost use Rattle.wire.specs.Versions.{major_of, minor_of, has_element_ids, has_utc_times, hello_has_login, has_logon};

/// A version of the protocol that this product speaks.
#[derive(Clone, Copy, Debug, PartialEq, Eq)]
pub enum Version {
    V44,
    V50,
    V51,
}

/// The versions that this product speaks, the newest first.
pub const VERSIONS: [Version; 3] = [Version::V51, Version::V50, Version::V44];

impl Version {
    /// The major number by which the handshake knows it.
    pub fn major(self) -> u8
        ensures { result ≡ major_of self }
    {
        match self {
            Version::V44 => 4,
            Version::V50 => 5,
            Version::V51 => 5,
        }
    }

    /// The minor number by which the handshake knows it.
    pub fn minor(self) -> u8
        ensures { result ≡ minor_of self }
    {
        match self {
            Version::V44 => 4,
            Version::V50 => 0,
            Version::V51 => 1,
        }
    }

    /// Whether nodes and relationships have element ids beside their numbers.
    pub fn has_element_ids(self) -> bool
        ensures { result ≡ has_element_ids self }
    {
        match self {
            Version::V44 => false,
            Version::V50 => true,
            Version::V51 => true,
        }
    }

    /// Whether a date with a time and an offset, or a zone, has its seconds in UTC, under tags of its own.
    pub fn has_utc_times(self) -> bool
        ensures { result ≡ has_utc_times self }
    {
        match self {
            Version::V44 => false,
            Version::V50 => true,
            Version::V51 => true,
        }
    }

    /// Whether HELLO carries who the client is.
    pub fn hello_has_login(self) -> bool
        ensures { result ≡ hello_has_login self }
    {
        match self {
            Version::V44 => true,
            Version::V50 => true,
            Version::V51 => false,
        }
    }

    /// Whether there are LOGON and LOGOFF.
    pub fn has_logon(self) -> bool
        ensures { result ≡ has_logon self }
    {
        match self {
            Version::V44 => false,
            Version::V50 => false,
            Version::V51 => true,
        }
    }
}
