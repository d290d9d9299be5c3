use gw_base::Text;

/// Why a play ends at a line.
#[derive(Clone, Copy, Debug, PartialEq, Eq)]
pub enum End {
    /// The line was refused.
    Refused,
    /// The session is full.
    Full,
}

/// What a line of a script prints, and why the play ends there, where it does.
#[derive(Drop)]
pub struct Said {
    pub text: Text,
    pub ends: Option<End>,
}
