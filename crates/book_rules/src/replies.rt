ghost use Rattle.std.specs.Prelude.{◌≡◌};
ghost use Rattle.book_rules.specs.Printed.{kind_name as kind_name_of};

use api_model::Api;
use call_facts::Vars;
use gw_base::{Name, Shared, Text};
use policy_core::Policy;
use std::fmt;
use usage_plans::{Period, PeriodKind};

/// Why a command was refused. The first test of the command that holds gives the refusal.
#[derive(Clone, Copy, Debug, PartialEq, Eq)]
pub enum Refusal {
    /// A name isn't 1 to 64 of letters, digits, `_` and `-`, beginning with a letter or a digit; or the value of a
    /// variable is longer than 2,048 bytes.
    BadName,
    /// No API of this name stands.
    NoApi,
    /// The API has no deployment of this number.
    NoDeployment,
    /// The API has no stage of this name.
    NoStage,
    /// The stage has no canary.
    NoCanary,
    /// No key of this name stands.
    NoKey,
    /// No plan of this name stands.
    NoPlan,
    /// The key has not joined the plan.
    NoJoin,
    /// No period stands: the plan has no quota, and none was opened that lasts.
    NoQuota,
    /// The share is above 10,000.
    BadShare,
    /// The rate or the burst is not from 1 to 1,000,000.
    BadThrottle,
    /// The quota's limit is above 1,000,000,000,000, or its offset above the limit.
    BadQuota,
    /// The value of a key isn't 1 to 128 bytes of 33 to 126.
    BadKey,
    /// Another key has this value.
    ValueTaken,
    /// A key that joined has another plan for one of the stages.
    StageTaken,
    /// The period would allow more than 1,000,000,000,000 calls.
    TooLarge,
    /// A new row would pass the table's limit, more variables or stages are handed in than a stage or a plan may have, or the
    /// plan's throttle was changed as often as can be counted.
    Full,
}

/// Prints its name, as `NoApi`.
impl fmt::Display for Refusal {
    ghost use Rattle.std.specs.Prelude.{Some};
    ghost use Rattle.book_rules.specs.Printed.{refusal_name};

    ghost output = { λ refusal. Some (refusal_name refusal) };

    fn fmt<W: fmt::Write>(&self, f: &mut fmt::Formatter<W>) -> fmt::Result {
        f.write_str(match self {
            Refusal::BadName => "BadName",
            Refusal::NoApi => "NoApi",
            Refusal::NoDeployment => "NoDeployment",
            Refusal::NoStage => "NoStage",
            Refusal::NoCanary => "NoCanary",
            Refusal::NoKey => "NoKey",
            Refusal::NoPlan => "NoPlan",
            Refusal::NoJoin => "NoJoin",
            Refusal::NoQuota => "NoQuota",
            Refusal::BadShare => "BadShare",
            Refusal::BadThrottle => "BadThrottle",
            Refusal::BadQuota => "BadQuota",
            Refusal::BadKey => "BadKey",
            Refusal::ValueTaken => "ValueTaken",
            Refusal::StageTaken => "StageTaken",
            Refusal::TooLarge => "TooLarge",
            Refusal::Full => "Full",
        })
    }
}

/// What a request sees of its stage, for the whole time until it is answered.
#[derive(Drop)]
pub struct View {
    /// The number of entries before the request's own.
    pub place: u64,
    /// The moment at which it happened.
    pub at: u64,
    /// The number of the deployment.
    pub deployment: u32,
    /// Whether the canary was taken.
    pub canary: bool,
    /// The definition as it stood when it was deployed.
    pub api: Shared<Api>,
    /// The stage's variables.
    pub variables: Shared<Vars>,
}

/// What is allowed and used in the period of a plan's quota that stands.
#[derive(Clone, Copy, Debug, PartialEq, Eq)]
pub struct Usage {
    pub period: Period,
    /// The calls that the period allows, grants among them.
    pub allowance: u64,
    /// The calls that it was used for.
    pub used: u64,
}

// How a period's kind is printed.
fn kind_name(kind: PeriodKind) -> &'static str
    ensures { result.now ≡ kind_name_of kind }
{
    match kind {
        PeriodKind::Day => "DAY",
        PeriodKind::Week => "WEEK",
        PeriodKind::Month => "MONTH",
    }
}

/// Prints the line of a reply, as `usage period=DAY:0 allowance=7 used=1 remaining=6`.
impl fmt::Display for Usage {
    ghost use Rattle.std.specs.Prelude.{Some};
    ghost use Rattle.book_rules.specs.Printed.{usage_text};

    ghost output = { λ usage. Some (usage_text usage) };

    #[tactic(auto, unfolding(crate::specs::Printed::usage_text))]
    fn fmt<W: fmt::Write>(&self, f: &mut fmt::Formatter<W>) -> fmt::Result {
        write!(
            f,
            "usage period={}:{} allowance={} used={} remaining={}",
            kind_name(self.period.kind),
            self.period.number,
            self.allowance,
            self.used,
            self.allowance.saturating_sub(self.used),
        )
    }
}

/// The book's answer to an event.
pub enum Reply {
    /// To Enter: the stage's view.
    Entered(View),
    /// To Enter: no such stage.
    NoStage,
    /// To Recall: the policy that is remembered.
    Remembered(Shared<Policy>),
    /// To Recall: none is.
    NotRemembered,
    /// To Learn.
    Learned,
    /// To Admit: by this key, which joined this plan.
    Admitted { key: Name, plan: Name },
    /// To Admit: no key has this value, it is not enabled, or it joined no plan of the stage.
    InvalidKey,
    /// To Admit: the bucket holds less than 1,000 thousandths of a call, namely this much.
    Throttled { level: u64 },
    /// To Admit: all calls of the period are used.
    QuotaExceeded { allowance: u64, used: u64 },
    /// A change that could not be kept; the tables stay.
    Store,
    /// To Leave, and whether the session is closing.
    Left { closing: bool },
    /// To a command: it was carried out.
    Done,
    /// To Deploy: the number of the new deployment.
    Deployed(u32),
    /// To Usage: what is allowed and used.
    Usage(Usage),
    /// To a command: it was refused, and the tables stay.
    Refused(Refusal),
}

impl Drop for Reply {
    fn drop(self) {
        match self {
            Reply::Entered(_) => {}
            Reply::NoStage => {}
            Reply::Remembered(_) => {}
            Reply::NotRemembered => {}
            Reply::Learned => {}
            Reply::Admitted { key: _, plan: _ } => {}
            Reply::InvalidKey => {}
            Reply::Throttled { level: _ } => {}
            Reply::QuotaExceeded {
                allowance: _,
                used: _,
            } => {}
            Reply::Store => {}
            Reply::Left { closing: _ } => {}
            Reply::Done => {}
            Reply::Deployed(_) => {}
            Reply::Usage(_) => {}
            Reply::Refused(_) => {}
        }
    }
}
