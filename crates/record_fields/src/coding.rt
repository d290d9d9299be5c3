use percent_encoding::{AsciiSet, CONTROLS, ascii_set};

/// What is coded by `%` in an output line: every byte outside 33 to 126, and `%` itself.
pub const CODED: AsciiSet = ascii_set!(CONTROLS.add(b' ').add(b'%'));
