// Calls that a key admits.
ghost use Rattle.std.specs.Prelude.{◌≡◌, IfOk};
ghost use Rattle.method_answers.specs.Keys.{key_value};
ghost use Rattle.method_answers.specs.Plans.{admitted as admitted_of, plan_of};

use crate::calls::RoutedCall;
use crate::failing::failed_by;
use crate::planning::plan_validated;
use crate::plans::Plan;
use call_facts::{Kind, Target, header_value};
use gw_base::{Memory, Name, Text};
use std::alloc::Global;

/// What the value of a key comes to.
#[derive(Drop)]
pub enum Admission {
    /// The key of this name admits the call.
    Admitted(Name),
    /// No key does, and the gateway response of this kind tells why.
    Refused(Kind),
}

/// A call whose method asks for a key.
#[derive(Drop)]
pub struct Keyed<'a> {
    /// The call, before its checks.
    pub call: RoutedCall<'a>,
}

impl<'a> Keyed<'a> {
    /// The target of the call, which names the stage that is to admit it.
    pub fn target(&self) -> &Target
        ensures { result.now ≡ self.now.call.target }
    {
        self.call.target
    }

    /// The value that the call hands in: that of its first header `x-api-key`, else the empty text.
    ///
    /// # Errors
    ///
    /// [`Memory`] where there is no memory for it.
    pub fn value(&self, alloc: Global) -> Result<Text, Memory>
        ensures { IfOk result (λ value. value ≡ key_value self.now.call.request) }
    {
        match header_value(self.call.request.headers.as_slice(), "x-api-key") {
            Some(value) => value.copy(alloc),
            None => Ok(Text::of(String::new(alloc))),
        }
    }

    /// What the call comes to that is admitted, or is not: its checks are made, and the key is known of it; or it is answered with
    /// the kind that tells why it is refused.
    ///
    /// # Errors
    ///
    /// [`Memory`] where there is no memory for the checks, for the request to the backend or for the answer.
    pub fn admitted(self, alloc: Global, admission: Admission) -> Result<Plan<'a>, Memory>
        ensures { IfOk result (λ plan. plan_of plan ≡ admitted_of self.entry.call admission) }
    {
        match admission {
            Admission::Admitted(key) => plan_validated(alloc, self.call.with_key(key)),
            Admission::Refused(kind) => Ok(Plan::Answered(failed_by(
                alloc,
                kind,
                self.call.api,
                &self.call.facts,
            )?)),
        }
    }
}
