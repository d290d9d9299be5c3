// The token that a request hands to the authorizer of its method.
ghost use Rattle.std.specs.Prelude.{◌≡◌, ◌<◌, ◌==◌, not, ◌&&◌, length, IfOk, Some};
ghost use Rattle.std.specs.Option.{option_map};
ghost use Rattle.api_model.specs.Definition.{parts_of};
ghost use Rattle.method_checks.specs.Tokens.{is_found as is_found_of, taken_if, token_of};

use crate::tokens::Token;
use api_model::Api;
use call_facts::{Request, header_value};
use gw_base::{Memory, Text};
use pattern_core::Pattern;
use std::alloc::Global;

fn is_found(alloc: Global, pattern: Option<&Pattern>, token: &str) -> Result<bool, Memory>
    ensures { IfOk result (λ found. found ≡ is_found_of (option_map (λ p. p.now) pattern.entry) token.now) }
{
    match pattern {
        Some(pattern) => pattern.searches(alloc, token),
        None => Ok(true),
    }
}

// The token, where it has bytes and the compiled pattern finds it.
fn take_token(alloc: Global, pattern: Option<&Pattern>, token: &Text) -> Result<Token, Memory>
    ensures { IfOk result (λ taken. taken ≡ taken_if (not (length token.now == 0) && is_found_of (option_map (λ p. p.now) pattern.entry) token.now) token.now) }
{
    if token.is_empty() {
        return Ok(Token::Bad);
    }
    if is_found(alloc, pattern, token.as_str())? {
        Ok(Token::Taken(token.copy(alloc)?))
    } else {
        Ok(Token::Bad)
    }
}

/// The token that a request hands to the authorizer of this method (API Gateway Developer Guide, "Input to an API Gateway
/// Lambda authorizer"): the value of the first header of the authorizer's name, without regard to ASCII case.
///
/// # Errors
///
/// [`Memory`] where there is no memory for the token or for the search of the pattern.
#[tactic(auto, unfolding(crate::specs::Tokens::token_of))]
pub fn token(alloc: Global, api: &Api, method: u32, request: &Request) -> Result<Token, Memory>
    requires { method < length (parts_of api.now).methods }
    ensures { IfOk result (λ taken. taken ≡ token_of api.now method request.now) }
{
    let Some(authorizer) = api.authorizer(method) else {
        return Ok(Token::None);
    };
    match header_value(request.headers.as_slice(), authorizer.header.as_str()) {
        Some(value) => take_token(alloc, api.token_pattern(method), value),
        None => Ok(Token::Bad),
    }
}
