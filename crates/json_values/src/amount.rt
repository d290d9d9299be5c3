// How large a number is, as far as a whole bound can tell.

/// How large a number is, as far as a whole bound can tell.
#[derive(Clone, Copy, Debug, Drop)]
pub enum Amount {
    /// This whole number.
    At(i64),
    /// Above this whole number, and below the next.
    Above(i64),
    /// Below this whole number, and above the one before.
    Below(i64),
    /// A number that is compared with none.
    Unknown,
}
