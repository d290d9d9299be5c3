// The steps of a path, and the arguments of a call.
ghost use Rattle.std.specs.Prelude.{◌≡◌, map};
ghost use Rattle.std.specs.Option.{option_map};
ghost use Rattle.std.specs.Rc.{rc_str_bytes};
ghost use Rattle.vtl_eval.specs.Views.{stepped_of};
ghost use Rattle.gateway_vars.specs.Values.{only, both, text_by};

use std::rc::RcStr;
use vtl_eval::Step;
use vtl_values::Value;

/// The one step, where there is just one.
pub(crate) fn only_step(path: &[Step]) -> Option<&Step>
    ensures { option_map (λ s. stepped_of s.now) result ≡ only (map stepped_of path.now) }
{
    let Some((first, rest)) = path.split_first() else {
        return None;
    };
    if rest.is_empty() { Some(first) } else { None }
}

/// The two steps, where there are just two.
pub(crate) fn both_steps(path: &[Step]) -> Option<(&Step, &Step)>
    ensures { option_map (λ s. (stepped_of s.0.now, stepped_of s.1.now)) result ≡ both (map stepped_of path.now) }
{
    let Some((first, rest)) = path.split_first() else {
        return None;
    };
    let Some((second, rest)) = rest.split_first() else {
        return None;
    };
    if rest.is_empty() {
        Some((first, second))
    } else {
        None
    }
}

/// The one argument, where there is just one.
pub(crate) fn only_argument(arguments: &[Value]) -> Option<&Value>
    ensures { option_map (λ a. a.now) result ≡ only arguments.now }
{
    match arguments {
        [a] => Some(a),
        _ => None,
    }
}

/// The one argument, where it is a text.
pub(crate) fn only_text(arguments: &[Value]) -> Option<&RcStr>
    ensures { option_map (λ t. rc_str_bytes t.now) result ≡ text_by (only arguments.now) }
{
    match only_argument(arguments) {
        Some(a) => a.as_text(),
        None => None,
    }
}
