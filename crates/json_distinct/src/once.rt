// Whether no object repeats a name.
ghost use Rattle.std.specs.Prelude.{◌≡◌, ◌<◌, ◌≤◌, true, length, map, Some};
ghost use Rattle.std.specs.String.{string_bytes};
ghost use Rattle.json_subset.specs.Tree.{trees_of, members_of};
ghost use Rattle.json_subset.specs.Nodes.{member_at, AllBelow, AllValuesBelow};
ghost use Rattle.json_subset.specs.Numbered.{number_named};
ghost use Rattle.json_values.specs.Values.{AreSound, IsBelow, IsReady, IsIndexed, plain_of, form_of};
ghost use Rattle.json_distinct.specs.Distinct.{IsOnceNamed, IsOnceNamedForm, AreOnceNamed, HasNamesOnce};

use json_values::{Form, Members, Value, named, value_at};

/// Whether no object of a value has a name twice, as far as its numbers tell: those of its members must rise.
#[cycle(once)]
fn is_once_named(values: &[Value], k: usize) -> bool
    requires sound { AreSound values.now }
    requires stands { k < length values.now }
    ensures { result ≡ true → IsOnceNamed (plain_of values.now k) }
{
    is_once_named_form(values, k, &value_at(values, k).form)
}

#[cycle(once)]
fn is_once_named_form(values: &[Value], k: usize, form: &Form) -> bool
    requires sound { AreSound values.now }
    requires stands { k < length values.now }
    requires below { IsBelow k form.now }
    requires ready { IsReady form.now }
    ensures { result ≡ true → IsOnceNamedForm (form_of (plain_of values.now) form.now) }
{
    match form {
        Form::Null | Form::Bool(_) | Form::Number(_, _) | Form::Text(_) => true,
        Form::List(ids) => are_once_named(values, k, ids),
        Form::Object(members) => has_names_once(values, k, members),
    }
}

/// Whether none of these values has an object that repeats a name.
#[cycle(once)]
pub fn are_once_named(values: &[Value], k: usize, ids: &[usize]) -> bool
    requires sound { AreSound values.now }
    requires stands { k ≤ length values.now }
    requires below { AllBelow k ids.now }
    ensures { result ≡ true → AreOnceNamed (trees_of (map (plain_of values.now) ids.now)) }
{
    for id in ids {
        if !is_once_named(values, *id) {
            return false;
        }
    }
    true
}

// Whether a member is the first of its name, behind those with lesser numbers.
fn is_first(k: usize, members: &Members, member: &(String, usize), least: usize) -> bool
    requires below { AllValuesBelow k members.now.list.items }
    requires indexed { IsIndexed members.now.list.items members.now.index }
    ensures first { result ≡ true → number_named members.now.list.items (string_bytes member.now.0) ≡ Some member.now.1 }
    ensures behind { result ≡ true → least ≤ member.now.1 }
{
    match named(k, members, member.0.as_str()) {
        Some(first) => first == member.1 && least <= first,
        None => false,
    }
}

#[cycle(once)]
fn has_names_once(values: &[Value], k: usize, members: &Members) -> bool
    requires sound { AreSound values.now }
    requires stands { k < length values.now }
    requires below { AllValuesBelow k members.now.list.items }
    requires indexed { IsIndexed members.now.list.items members.now.index }
    ensures { result ≡ true → HasNamesOnce (members_of (map (member_at (plain_of values.now)) members.now.list.items)) }
{
    let mut least = 0;
    for member in &members.list {
        if !is_first(k, members, member, least) || !is_once_named(values, member.1) {
            return false;
        }
        least = member.1 + 1;
    }
    true
}
