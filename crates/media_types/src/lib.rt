//! The media type of a message, and the white space of header fields.
//!
//! | `content-type` | media type |
//! |---|---|
//! | `Text/Plain; charset=utf-8` | `text/plain` |
//! | ` application/json ` | `application/json` |
//! | none | `application/json` |
//!
//! What the contracts promise: [`media_type`] answers `media_type` of `specs/MediaTypes.antt` for every list of header fields;
//! [`are_blank`] is true if and only if each byte is a space or a tab. Running out of memory is the only error.
//!
//! Not part of it: whether a media type is registered, and its parameters.
#![tactic(auto)]

mod blanks;
mod media;

pub use blanks::are_blank;
pub use media::media_type;
