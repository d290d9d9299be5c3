// Calls that an authorizer is asked about.
ghost use Rattle.std.specs.Prelude.{◌≡◌, ◌≢◌, IfOk, Ok, Err};
ghost use Rattle.api_model.specs.Getters.{authorizer_of};
ghost use Rattle.authorizer_call.specs.Names.{arn_of};
ghost use Rattle.method_answers.specs.Plans.{asked, authorized, course_of, decided_by, fault_kind, judged, refused_by, way_of};
ghost use Rattle.method_checks.specs.Tokens.{token_of};

use crate::calls::RoutedCall;
use crate::failing::failed_by;
use crate::planning::plan_let_by;
use crate::plans::{Course, Plan, Way};
use api_parts::Authorizer;
use authorizer_call::{AuthorizerFault, arn, authorizer_request, is_allowed};
use backend_core::WireRequest;
use call_facts::{Kind, Target};
use gw_base::{Memory, Shared, Text};
use method_checks::{Token, token};
use policy_core::Policy;
use std::alloc::Global;
use std::marker::Model;

/// A call whose authorizer must give a policy first. The policy may be remembered under the authorizer's name and the token, at the
/// stage that is called; the request is made where it is asked for alone.
#[derive(Drop)]
pub struct Authorizing<'a> {
    pub(crate) call: RoutedCall<'a>,
    pub(crate) arn: Text,
    pub(crate) authorizer: &'a Authorizer,
    pub(crate) token: Text,
}

impl<'a> Model for Authorizing<'a> {
    ghost use Rattle.method_answers.specs.Questions.{Consulting, question_of};

    ghost Value = { Consulting };

    ghost view = { λ a. record { call = a.call; arn = a.arn; question = question_of a.authorizer.now a.token a.arn } };
}

fn refuse<'a>(alloc: Global, call: &RoutedCall<'a>, kind: Kind) -> Result<Way<'a>, Memory>
    ensures { IfOk result (λ way. way_of way ≡ refused_by call.now kind) }
{
    let made = failed_by(alloc, kind, call.api, &call.facts)?;
    Ok(Way::Goes(Plan::Answered(made)))
}

// By what its policy says of a call.
fn decide<'a>(alloc: Global, call: RoutedCall<'a>, allowed: bool) -> Result<Way<'a>, Memory>
    ensures { IfOk result (λ way. way_of way ≡ decided_by allowed call.entry) }
{
    if allowed {
        plan_let_by(alloc, call)
    } else {
        refuse(alloc, &call, Kind::AccessDenied)
    }
}

// The kind that tells why an authorizer gives no policy.
fn kind_of(fault: AuthorizerFault) -> Kind
    ensures { result ≡ fault_kind fault }
{
    match fault {
        AuthorizerFault::Failure | AuthorizerFault::Memory => Kind::AuthorizerFailure,
        AuthorizerFault::Configuration => Kind::AuthorizerConfigurationError,
    }
}

impl<'a> Authorizing<'a> {
    /// The target of the call, which names the stage at which a policy may be remembered.
    pub fn target(&self) -> &Target
        ensures { result.now ≡ self.now.call.target }
    {
        self.call.target
    }

    /// The place of the call's first entry in the history.
    pub fn place(&self) -> u64
        ensures { result ≡ self.now.call.facts.place }
    {
        self.call.place()
    }

    /// The name of the authorizer.
    pub fn authorizer(&self) -> &Text
        ensures { result.now ≡ self.now.question.authorizer }
    {
        &self.authorizer.name
    }

    /// The token that the call hands in.
    pub fn token(&self) -> &Text
        ensures { result.now ≡ self.now.question.token }
    {
        &self.token
    }

    /// For how many seconds the policy may be remembered; 0 where it may not be.
    pub fn ttl(&self) -> u32
        ensures { result ≡ self.now.question.ttl }
    {
        self.authorizer.ttl
    }

    /// The request that asks the authorizer; `None` where its uri leads nowhere, which that of no definition does that was read.
    ///
    /// # Errors
    ///
    /// [`Memory`] where there is no memory for it.
    pub fn request(&self, alloc: Global) -> Result<Option<WireRequest>, Memory>
        ensures { IfOk result (λ request. request ≡ self.now.question.request) }
    {
        authorizer_request(
            alloc,
            self.authorizer,
            self.token.as_str(),
            self.arn.as_str(),
        )
    }

    /// What the call comes to by this policy: where it allows the call by its name, the call goes on, and the policy is known of
    /// it; else it is answered by `ACCESS_DENIED`.
    ///
    /// # Errors
    ///
    /// [`Memory`] where there is no memory for the checks, for the request to the backend or for the answer.
    pub fn judged_by(self, alloc: Global, policy: Shared<Policy>) -> Result<Way<'a>, Memory>
        ensures { IfOk result (λ way. way_of way ≡ judged self.entry.call self.entry.arn (Ok policy)) }
    {
        let allowed = is_allowed(policy.value(), self.arn.as_str());
        decide(alloc, self.call.with_policy(policy), allowed)
    }

    /// What the call comes to where the authorizer gives no policy: the answer that tells why.
    ///
    /// # Errors
    ///
    /// [`Memory`] where there is no memory for the answer, and where there is no policy since memory was wanting.
    pub fn failed(self, alloc: Global, fault: AuthorizerFault) -> Result<Way<'a>, Memory>
        ensures { IfOk result (λ way. (way_of way ≡ judged self.entry.call self.entry.arn (Err fault)) × (fault ≢ AuthorizerFault.Memory)) }
    {
        match fault {
            AuthorizerFault::Memory => Err(Memory),
            _ => refuse(alloc, &self.call, kind_of(fault)),
        }
    }
}

// Behind its token.
fn plan_asked<'a>(alloc: Global, call: RoutedCall<'a>, token: Text) -> Result<Course<'a>, Memory>
    ensures { IfOk result (λ course. course_of course ≡ asked call.entry (arn_of call.entry.target call.entry.request.method) token (authorizer_of call.entry.definition call.entry.method)) }
{
    match call.api.authorizer(call.method) {
        Some(authorizer) => {
            let name = arn(alloc, call.target, call.request.method.as_str())?;
            Ok(Course::Consults(Authorizing {
                call,
                arn: name,
                authorizer,
                token,
            }))
        }
        None => Ok(Course::Free(plan_let_by(alloc, call)?)),
    }
}

/// Before the key: where the method has an authorizer, the call must hand in a good token, about which it is asked.
pub(crate) fn plan_authorized<'a>(alloc: Global, call: RoutedCall<'a>) -> Result<Course<'a>, Memory>
    ensures { IfOk result (λ course. course_of course ≡ authorized call.entry (token_of call.entry.definition call.entry.method call.entry.request)) }
{
    match token(alloc, call.api, call.method, call.request)? {
        Token::None => Ok(Course::Free(plan_let_by(alloc, call)?)),
        Token::Bad => Ok(Course::Free(refuse(alloc, &call, Kind::Unauthorized)?)),
        Token::Taken(token) => plan_asked(alloc, call, token),
    }
}
