// Where a request to a backend goes, and what stands for the placeholders of its path.
use gw_base::Text;

/// Where a request goes.
#[derive(Drop)]
pub struct Destination {
    /// The host, as it is written.
    pub host: Text,
    /// The port's number, 1 to 65,535.
    pub port: u16,
    /// The port as it is written, of 1 to 5 digits.
    pub port_text: Text,
    /// The path, with the `/` that it begins with.
    pub path: Text,
}

/// What stands for a placeholder of a uri's path.
#[derive(Drop)]
pub struct PathValue {
    /// The placeholder's name.
    pub name: Text,
    /// Its value, before it is coded.
    pub value: Text,
    /// Whether the value keeps its slashes.
    pub greedy: bool,
}
