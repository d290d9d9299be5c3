// The name under which a policy is learned.
ghost use Rattle.std.specs.Prelude.{◌++◌};
ghost use Rattle.std.specs.Hash as fed;
ghost use Rattle.std.specs.Cmp.{partial_equiv_from_equiv};
ghost use Rattle.policy_memory.specs.Names.{same_name, same_name_equiv, name_input, same_name-input};

use gw_base::Text;
use std::hash::{Hash, Hasher};

/// The name under which a policy is learned. Two names are equal where all four texts are.
#[derive(Drop)]
pub struct PolicyName {
    /// The API.
    pub api: Text,
    /// Its stage.
    pub stage: Text,
    /// The authorizer.
    pub authorizer: Text,
    /// The token that it was asked about.
    pub token: Text,
}

impl PartialEq for PolicyName {
    ghost eq = { same_name };

    ghost laws = { partial_equiv_from_equiv same_name_equiv };

    #[tactic(auto, unfolding(crate::specs::Names::same_name))]
    fn eq(&self, other: &PolicyName) -> bool {
        self.api.as_str() == other.api.as_str()
            && self.stage.as_str() == other.stage.as_str()
            && self.authorizer.as_str() == other.authorizer.as_str()
            && self.token.as_str() == other.token.as_str()
    }
}

impl Eq for PolicyName {
    ghost laws = { same_name_equiv };
}

impl Hash for PolicyName {
    ghost hash_input = { name_input };

    ghost respects_eq = { same_name-input };

    fn hash<H: Hasher>(&self, state: &mut H) {
        self.api.as_str().hash(state);
        self.stage.as_str().hash(state);
        self.authorizer.as_str().hash(state);
        self.token.as_str().hash(state);
    }
}
