// Which bytes of a path value are coded.
use percent_encoding::{AsciiSet, NON_ALPHANUMERIC, ascii_set};

/// All bytes but the unreserved ones (RFC 3986, section 2.3).
pub const RESERVED: AsciiSet = ascii_set!(
    NON_ALPHANUMERIC
        .remove(b'-')
        .remove(b'.')
        .remove(b'_')
        .remove(b'~')
);

/// The same without the `/`, which a greedy value keeps.
pub const RESERVED_BUT_SLASH: AsciiSet = ascii_set!(
    NON_ALPHANUMERIC
        .remove(b'-')
        .remove(b'.')
        .remove(b'_')
        .remove(b'~')
        .remove(b'/')
);
