// What an administration request asks of the book.
ghost use Rattle.std.specs.Prelude.{◌≡◌, IfOk};
ghost use Rattle.admin_routes.specs.Orders.{order_at as order_at_route, order_by as order_by_asked, order_of as order_of_request};

use crate::answers::answer_refused;
use crate::asking::ask_for;
use crate::origins::has_foreign_origin;
use crate::routes::{Route, find_route};
use book_rules::Command;
use call_facts::{Request, Target};
use gw_base::{Memory, Text};
use method_flow::Made;
use std::alloc::Global;

fn order_by(alloc: Global, asked: Result<Command, Text>) -> Result<Result<Command, Made>, Memory>
    ensures { IfOk result (λ order. order ≡ order_by_asked asked) }
{
    match asked {
        Ok(command) => Ok(Ok(command)),
        Err(why) => Ok(Err(answer_refused(alloc, 400, why.as_str())?)),
    }
}

fn order_at(
    alloc: Global,
    route: Option<Route>,
    body: &[u8],
) -> Result<Result<Command, Made>, Memory>
    ensures { IfOk result (λ order. order ≡ order_at_route route body.now) }
{
    match route {
        Some(route) => {
            let asked = ask_for(alloc, route, body)?;
            order_by(alloc, asked)
        }
        None => Ok(Err(answer_refused(alloc, 404, "NoRoute")?)),
    }
}

/// What an administration request asks of the book, or how it is answered where it asks nothing: the size of its body is tested
/// first, then whether a page of another site made a browser send it, then its route, then its body's form.
pub fn order_of(
    alloc: Global,
    too_large: bool,
    request: &Request,
    target: &Target,
) -> Result<Result<Command, Made>, Memory>
    ensures { IfOk result (λ order. order ≡ order_of_request too_large request.now target.now) }
{
    if too_large {
        return Ok(Err(answer_refused(alloc, 413, "TooLarge")?));
    }
    if has_foreign_origin(request.headers.as_slice()) {
        return Ok(Err(answer_refused(alloc, 403, "Origin")?));
    }
    let route = find_route(alloc, request.method.as_str(), target)?;
    order_at(alloc, route, request.body.as_slice())
}
