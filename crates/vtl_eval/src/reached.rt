// How far a reference is.
use crate::roots::Root;
use gw_base::Text;
use vtl_values::Value;

/// How far a reference is: at a value, at a root, at names below `$context`, or at the loop.
#[derive(Drop)]
pub enum Reached {
    Value(Value),
    Root(Root),
    Context(Vec<Text>),
    Loop,
}
