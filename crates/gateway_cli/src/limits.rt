use book_rules::Limits;

/// The limits of a session.
pub const SESSION_LIMITS: Limits = Limits {
    entries: 1_048_576,
    bytes: 268_435_456,
};

/// The most bytes of a script, and of the lines of `admin`.
pub const SCRIPT_LIMIT: usize = 67_108_864;
