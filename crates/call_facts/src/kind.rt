// Why the gateway answers in place of the backend.
ghost use Rattle.std.specs.Prelude.{◌≡◌};
ghost use Rattle.call_facts.specs.Kinds.{kind_status, kind_message};

use std::fmt;

/// Why a gateway response came in place of an answer (API Gateway Developer Guide, "Gateway response types", but for
/// `StoreFailure` and `UnknownStage`, which are this gateway's own).
#[derive(Clone, Copy, Debug, PartialEq, Eq)]
pub enum Kind {
    /// The authorizer's policy does not allow the request.
    AccessDenied,
    /// The API is configured so that no answer can be made.
    ApiConfigurationError,
    /// The authorizer's reply is no policy.
    AuthorizerConfigurationError,
    /// The authorizer did not answer, or not with status 200.
    AuthorizerFailure,
    /// A required parameter is missing.
    BadRequestParameters,
    /// The body is not valid by its model.
    BadRequestBody,
    /// The backend could not be reached, or answered no HTTP.
    IntegrationFailure,
    /// The backend did not answer in time.
    IntegrationTimeout,
    /// The request has no key that its stage admits.
    InvalidApiKey,
    /// No resource has the request's path, or none of its methods the verb.
    MissingAuthenticationToken,
    /// The quota of the key's plan is spent.
    QuotaExceeded,
    /// The body is longer than its limit.
    RequestTooLarge,
    /// A change could not be kept.
    StoreFailure,
    /// The bucket of the key's plan is spent.
    Throttled,
    /// The token is missing, or has not its form.
    Unauthorized,
    /// No stage of this name stands.
    UnknownStage,
    /// No template stands for the body's media type.
    UnsupportedMediaType,
}

/// Prints its name, as `UNKNOWN_STAGE`.
impl fmt::Display for Kind {
    ghost use Rattle.std.specs.Prelude.{Some};
    ghost use Rattle.call_facts.specs.Kinds.{kind_name};

    ghost output = { λ kind. Some (kind_name kind) };

    fn fmt<W: fmt::Write>(&self, f: &mut fmt::Formatter<W>) -> fmt::Result {
        f.write_str(match self {
            Kind::AccessDenied => "ACCESS_DENIED",
            Kind::ApiConfigurationError => "API_CONFIGURATION_ERROR",
            Kind::AuthorizerConfigurationError => "AUTHORIZER_CONFIGURATION_ERROR",
            Kind::AuthorizerFailure => "AUTHORIZER_FAILURE",
            Kind::BadRequestParameters => "BAD_REQUEST_PARAMETERS",
            Kind::BadRequestBody => "BAD_REQUEST_BODY",
            Kind::IntegrationFailure => "INTEGRATION_FAILURE",
            Kind::IntegrationTimeout => "INTEGRATION_TIMEOUT",
            Kind::InvalidApiKey => "INVALID_API_KEY",
            Kind::MissingAuthenticationToken => "MISSING_AUTHENTICATION_TOKEN",
            Kind::QuotaExceeded => "QUOTA_EXCEEDED",
            Kind::RequestTooLarge => "REQUEST_TOO_LARGE",
            Kind::StoreFailure => "STORE_FAILURE",
            Kind::Throttled => "THROTTLED",
            Kind::Unauthorized => "UNAUTHORIZED",
            Kind::UnknownStage => "UNKNOWN_STAGE",
            Kind::UnsupportedMediaType => "UNSUPPORTED_MEDIA_TYPE",
        })
    }
}

impl Kind {
    /// The status of the answer, where the API does not give it another.
    pub fn status(self) -> u16
        ensures { result ≡ kind_status self }
    {
        match self {
            Kind::BadRequestParameters | Kind::BadRequestBody => 400,
            Kind::Unauthorized => 401,
            Kind::AccessDenied
            | Kind::InvalidApiKey
            | Kind::MissingAuthenticationToken
            | Kind::UnknownStage => 403,
            Kind::RequestTooLarge => 413,
            Kind::UnsupportedMediaType => 415,
            Kind::QuotaExceeded | Kind::Throttled => 429,
            Kind::ApiConfigurationError
            | Kind::AuthorizerConfigurationError
            | Kind::AuthorizerFailure
            | Kind::StoreFailure => 500,
            Kind::IntegrationFailure | Kind::IntegrationTimeout => 504,
        }
    }

    /// The message of the answer; that of missing parameters goes on with their names.
    pub fn message(self) -> &'static str
        ensures { result.now ≡ kind_message self }
    {
        match self {
            Kind::AccessDenied => "User is not authorized to access this resource",
            Kind::ApiConfigurationError => "Internal server error",
            Kind::AuthorizerConfigurationError => "Invalid authorizer reply",
            Kind::AuthorizerFailure => "Authorizer failed",
            Kind::BadRequestParameters => "Missing required request parameters",
            Kind::BadRequestBody => "Invalid request body",
            Kind::IntegrationFailure => "Network error communicating with endpoint",
            Kind::IntegrationTimeout => "Endpoint request timed out",
            Kind::InvalidApiKey => "Forbidden",
            Kind::MissingAuthenticationToken => "Missing Authentication Token",
            Kind::QuotaExceeded => "Limit Exceeded",
            Kind::RequestTooLarge => "Request Entity Too Large",
            Kind::StoreFailure => "Store unavailable",
            Kind::Throttled => "Too Many Requests",
            Kind::Unauthorized => "Unauthorized",
            Kind::UnknownStage => "Unknown stage",
            Kind::UnsupportedMediaType => "Unsupported Media Type",
        }
    }
}
