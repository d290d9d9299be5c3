// What is read of the rows.
use api_model::Api;
use call_facts::Vars;
use gw_base::{Seq, Shared, Text};
use key_index::KeyIndex;

/// The canary of a stage: its deployment, its share of ten thousand, and the stage's variables with its own over them.
pub struct Canary {
    pub deployment: u32,
    pub share: u64,
    pub variables: Shared<Vars>,
}

/// A stage that stands: the deployment to which it points, and its variables, ready to be shared; and its canary.
pub struct Standing {
    pub deployment: u32,
    pub variables: Shared<Vars>,
    pub canary: Option<Canary>,
}

/// What the rows of tables hold, each list in the order of its table, and the keys by their values.
pub struct Ready {
    pub definitions: Vec<Shared<Api>>,
    pub deployments: Vec<Shared<Api>>,
    pub stages: Vec<Standing>,
    pub keys: KeyIndex,
    pub plans: Vec<Seq<(Text, Text)>>,
}

// They are written by hand, so that what lets one go sees one call.
impl Drop for Canary {
    fn drop(self) {
        let Canary {
            deployment: _,
            share: _,
            variables: _,
        } = self;
    }
}

impl Drop for Standing {
    fn drop(self) {
        let Standing {
            deployment: _,
            variables: _,
            canary: _,
        } = self;
    }
}

impl Drop for Ready {
    fn drop(self) {
        let Ready {
            definitions: _,
            deployments: _,
            stages: _,
            keys: _,
            plans: _,
        } = self;
    }
}
