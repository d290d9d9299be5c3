use api_model::Api;
use call_facts::{Kind, Vars};
use gw_base::{Seq, Shared, Text};
use policy_core::Policy;
use policy_memory::PolicyName;
use usage_plans::{Quota, Throttle};

/// The most entries of a history, and the most bytes of its events' texts.
#[derive(Clone, Copy, Debug, PartialEq, Eq)]
pub struct Limits {
    pub entries: u32,
    pub bytes: u64,
}

/// A change that an administrator asks for. What each refuses, and in which order, is in `specs/Commands.antt`.
pub enum Command {
    /// Makes an API, or gives it another definition.
    PutApi {
        api: Text,
        definition: Shared<Api>,
    },
    /// Takes a snapshot of an API's definition, under the next number from 1.
    Deploy {
        api: Text,
    },
    /// Makes a stage of an API, or points it to another deployment, and replaces its variables.
    PutStage {
        api: Text,
        stage: Text,
        deployment: u32,
        variables: Shared<Vars>,
    },
    /// Gives a stage a canary: of its calls so many of ten thousand go to this deployment, with these variables over the stage's.
    PutCanary {
        api: Text,
        stage: Text,
        deployment: u32,
        share: u32,
        variables: Shared<Vars>,
    },
    /// Makes the canary's deployment and the merged variables those of its stage, and ends the canary.
    PromoteCanary {
        api: Text,
        stage: Text,
    },
    /// Makes an API key, or gives it another value; a key that is not enabled admits nothing.
    PutKey {
        key: Text,
        value: Text,
        enabled: bool,
    },
    /// Makes a usage plan of some stages, each by its API and its name, or puts it anew.
    PutPlan {
        plan: Text,
        throttle: Option<Throttle>,
        quota: Option<Quota>,
        stages: Seq<(Text, Text)>,
    },
    /// Lets a key call the stages of a plan.
    JoinKey {
        plan: Text,
        key: Text,
    },
    /// Allows a key so many more calls in the period that stands.
    Grant {
        plan: Text,
        key: Text,
        amount: u64,
    },
    /// Forgets the policies that are remembered at a stage.
    Flush {
        api: Text,
        stage: Text,
    },
    /// Asks what is allowed and used in the period that stands.
    Usage {
        plan: Text,
        key: Text,
    },
    /// Closes the session: from here on each answer is the last one on its connection.
    Shutdown,
}

/// What happens to a book. A moment is in milliseconds since 1970.
pub enum Event {
    /// A request comes to a stage, with its word of chance.
    Enter {
        moment: u64,
        word: u64,
        api: Text,
        stage: Text,
    },
    /// A request asks for the policy that is remembered under a name.
    Recall {
        moment: u64,
        name: PolicyName,
    },
    /// A policy is learned under a name, for so many seconds.
    Learn {
        moment: u64,
        name: PolicyName,
        policy: Shared<Policy>,
        ttl: u32,
    },
    /// A request asks to be admitted to a stage by the value of an API key.
    Admit {
        moment: u64,
        api: Text,
        stage: Text,
        value: Text,
    },
    /// An administrator asks for a change.
    Admin {
        moment: u64,
        command: Command,
    },
    /// A request is answered with this status, and by a gateway response where a cause stands.
    Leave {
        status: u16,
        cause: Option<Kind>,
    },
}

/// An event in its place in the history: which seat made it, and whether its change was kept.
#[derive(Drop)]
pub struct Entry {
    pub seat: u32,
    pub event: Event,
    pub kept: bool,
}

// Written by hand, so that a function that lets a value go makes one call in place of a branch for each variant.
impl Drop for Command {
    fn drop(self) {
        match self {
            Command::PutApi {
                api: _,
                definition: _,
            } => {}
            Command::Deploy { api: _ } => {}
            Command::PutStage {
                api: _,
                stage: _,
                deployment: _,
                variables: _,
            } => {}
            Command::PutCanary {
                api: _,
                stage: _,
                deployment: _,
                share: _,
                variables: _,
            } => {}
            Command::PromoteCanary { api: _, stage: _ } => {}
            Command::PutKey {
                key: _,
                value: _,
                enabled: _,
            } => {}
            Command::PutPlan {
                plan: _,
                throttle: _,
                quota: _,
                stages: _,
            } => {}
            Command::JoinKey { plan: _, key: _ } => {}
            Command::Grant {
                plan: _,
                key: _,
                amount: _,
            } => {}
            Command::Flush { api: _, stage: _ } => {}
            Command::Usage { plan: _, key: _ } => {}
            Command::Shutdown => {}
        }
    }
}

impl Drop for Event {
    fn drop(self) {
        match self {
            Event::Enter {
                moment: _,
                word: _,
                api: _,
                stage: _,
            } => {}
            Event::Recall { moment: _, name: _ } => {}
            Event::Learn {
                moment: _,
                name: _,
                policy: _,
                ttl: _,
            } => {}
            Event::Admit {
                moment: _,
                api: _,
                stage: _,
                value: _,
            } => {}
            Event::Admin {
                moment: _,
                command: _,
            } => {}
            Event::Leave {
                status: _,
                cause: _,
            } => {}
        }
    }
}
