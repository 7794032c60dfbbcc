//! Why a line of a script can't be performed.

/// Why a line of a script can't be performed.
#[derive(Clone, Copy, Debug)]
pub(crate) enum Trouble {
    OutOfMemory,
    MissingWord,
    UnknownWord,
    NotNumber,
    /// A word is neither a name, nor hexadecimal.
    NotOctets,
    /// Octets are not those of a method, or of a table.
    NotReadable,
}
