// What is known of statuses.
ghost use Rattle.std.specs.Prelude.{◌≡◌, ◌||◌};
ghost use Rattle.http_edge.specs.Statuses.{is_bare};

/// Whether messages of this status have no body.
pub fn is_bare(status: u16) -> bool
    ensures { result ≡ is_bare status }
{
    status == 204 || status == 304
}

/// Whether the reply of this status has no body, whatever its head says.
pub fn has_none(bodiless: bool, status: u16) -> bool
    ensures { result ≡ (bodiless || is_bare status) }
{
    bodiless || is_bare(status)
}
