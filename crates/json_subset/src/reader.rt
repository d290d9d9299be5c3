// The reader: one pass over the bytes, by turns, with a stack of the brackets that stand open.
ghost use Rattle.std.specs.Prelude.{◌≡◌, ◌-◌, ◌^◌, ◌<◌, map, ◌∷◌, length, take, true, IfOk, OnOk};
ghost use Rattle.std.specs.Str.{IsUtf8};
ghost use Rattle.std.specs.String.{string_bytes};
ghost use Rattle.json_subset.specs.Tree.{node};
ghost use Rattle.json_subset.specs.Reading as says;
ghost use Rattle.json_subset.specs.Turns.{in_list, in_object, leaf, opens, begun, onward};
ghost use Rattle.json_subset.specs.Nodes.{tree_of, form_of, nothing, member_at, IsBelow, AllBelow, AllValuesBelow, IsCounted, IsIndexed, AreSound, Keeps};
ghost use Rattle.json_subset.specs.Numbered.{has_name, IsEntered};
ghost use Rattle.json_subset.specs.Opened.{turn_of, inside_of, IsOpen, IsTurn, ArePartsBelow, HasNames};
ghost use Rattle.json_subset.specs.Places.{IsRest};
ghost use Rattle.json_subset.specs.Numbers.{number_of as number_as};
ghost use Rattle.json_subset.specs.Views.{Gives, number_view};

use crate::fault::JsonFault;
use crate::node::{Form, Node, ObjectMembers};
use crate::number::{Number, number_of};
use crate::scan::{Next, after_number, after_white, behind, behind_part, colon, place, word};
use crate::strings::read_string;
use crate::turn::{Members, Open, Parts, Turn};
use std::alloc::{AllocError, Global};
use std::collections::BTreeMap;

/// How many lists and objects may stand in one another.
const LEVELS: usize = 64;

// One more node: the value of this form, from its first byte to what follows it.
fn add(
    text: &[u8],
    nodes: &mut Vec<Node>,
    from: &[u8],
    rest: &[u8],
    form: Form,
) -> Result<usize, AllocError>
    requires utf8 { IsUtf8 text.now }
    requires sound { AreSound text.now nodes.old.items }
    requires front { IsRest text.now from.now }
    requires inside { IsRest from.now rest.now }
    requires below { IsBelow (length nodes.old.items) form }
    requires counted { IsCounted form }
    requires indexed { IsIndexed form }
    ensures kept { OnOk result (Keeps text.now nodes.old.items nodes.new.items) }
    ensures stands { IfOk result (λ k. k < length nodes.new.items) }
    ensures tree { IfOk result (λ k. tree_of text.now nodes.new.items k ≡ node (length text.now - length from.now) (length text.now - length rest.now) (form_of (take (length from.now - length rest.now) from.now) (tree_of text.now nodes.old.items) form)) }
{
    let n = text.len();
    let k = nodes.len();
    nodes.push(Node {
        first: place(n, from),
        past: place(n, rest),
        form,
    })?;
    Ok(k)
}

// A form that is neither a list nor an object.
fn read_scalar(alloc: Global, n: usize, bytes: &[u8]) -> Result<(Form, &[u8]), JsonFault>
    requires { IsUtf8 bytes.now }
    ensures gives { Gives (λ p. (form_of (take (length bytes.now - length p.1.now) bytes.now) (λ _. nothing) p.0, p.1.now)) result (says.scalar n bytes.now) }
    ensures below { IfOk result (λ p. IsBelow 0 p.0) }
    ensures counted { IfOk result (λ p. IsCounted p.0) }
    ensures indexed { IfOk result (λ p. IsIndexed p.0) }
{
    match bytes {
        [] => Err(JsonFault::Syntax(n)),
        [b'"', rest @ ..] => {
            let (text, rest) = read_string(alloc, n, rest)?;
            Ok((Form::Text(text), rest))
        }
        [b'n', rest @ ..] => {
            let rest = word(n, b"ull", rest)?;
            Ok((Form::Null, rest))
        }
        [b't', rest @ ..] => {
            let rest = word(n, b"rue", rest)?;
            Ok((Form::Bool(true), rest))
        }
        [b'f', rest @ ..] => {
            let rest = word(n, b"alse", rest)?;
            Ok((Form::Bool(false), rest))
        }
        _ => {
            let rest = after_number(n, bytes)?;
            Ok((Form::Number(read_number(bytes, rest)), rest))
        }
    }
}

// The number before this rest.
fn read_number(bytes: &[u8], rest: &[u8]) -> Number
    ensures { number_view result ≡ number_as (take (length bytes.now - length rest.now) bytes.now) }
{
    let count = bytes.len().saturating_sub(rest.len());
    number_of(&bytes[..count])
}

// A member's name and the colon, before its value; the name is none of these, and is added to them
// with its place.
fn read_label<'a>(
    alloc: Global,
    n: usize,
    names: &mut BTreeMap<String, usize>,
    count: usize,
    bytes: &'a [u8],
) -> Result<(String, &'a [u8]), JsonFault>
    requires { IsUtf8 bytes.now }
    ensures gives { Gives (λ p. (string_bytes p.0, p.1.now)) result (says.label n (has_name names.old) bytes.now) }
    ensures names { IfOk result (λ p. IsEntered count (string_bytes p.0) names.old names.new) }
{
    let (name, rest) = read_name(alloc, n, names, count, bytes)?;
    let rest = colon(n, rest)?;
    Ok((name, rest))
}

// A member's name, which is none of these, and is added to them with its place.
fn read_name<'a>(
    alloc: Global,
    n: usize,
    names: &mut BTreeMap<String, usize>,
    count: usize,
    bytes: &'a [u8],
) -> Result<(String, &'a [u8]), JsonFault>
    requires { IsUtf8 bytes.now }
    ensures gives { Gives (λ p. (string_bytes p.0, p.1.now)) result (says.name n (has_name names.old) bytes.now) }
    ensures names { IfOk result (λ p. IsEntered count (string_bytes p.0) names.old names.new) }
{
    match bytes {
        [] => Err(JsonFault::Syntax(n)),
        [b'"', inside @ ..] => {
            let at = place(n, bytes);
            let (name, rest) = read_string(alloc, n, inside)?;
            let name = enter(at, names, count, name)?;
            Ok((name, rest))
        }
        _ => Err(JsonFault::Syntax(place(n, bytes))),
    }
}

// Adds a name, whose quote stands at this place, to the names that it is none of, behind so many.
fn enter(
    at: usize,
    names: &mut BTreeMap<String, usize>,
    count: usize,
    name: String,
) -> Result<String, JsonFault>
    ensures gives { Gives string_bytes result (says.unlike at (has_name names.old) (string_bytes name)) }
    ensures names { IfOk result (λ x. IsEntered count (string_bytes x) names.old names.new) }
{
    if names.contains_key(name.as_str()) {
        return Err(JsonFault::Repeated(at));
    }
    let kept = name.clone()?;
    names.insert(kept, count)?;
    Ok(name)
}

// Whether 32 bits count the parts of a list or an object; the program cannot name more.
fn is_counted(count: usize) -> bool
    ensures { result ≡ true → count < 2 ^ 32 }
{
    count < 0x1_0000_0000
}

// What a square bracket opens, where so many levels may open.
fn open_list<'a>(
    alloc: Global,
    text: &[u8],
    nodes: &mut Vec<Node>,
    levels: usize,
    from: &'a [u8],
    inside: &'a [u8],
) -> Result<Turn<'a>, JsonFault>
    requires utf8 { IsUtf8 text.now }
    requires sound { AreSound text.now nodes.old.items }
    requires front { IsRest text.now from.now }
    requires bracket { from.now ≡ 91 ∷ inside.now }
    ensures gives { Gives (turn_of (length text.now) (tree_of text.now nodes.new.items)) result (opens (length text.now) levels (length text.now - length from.now) says.square inside.now) }
    ensures kept { OnOk result (Keeps text.now nodes.old.items nodes.new.items) }
    ensures turn { IfOk result (IsTurn text.now (length nodes.new.items)) }
{
    if levels == 0 {
        return Err(JsonFault::Depth(place(text.len(), from)));
    }
    let bytes = after_white(inside);
    if let Some(rest) = behind(b']', bytes) {
        let k = add(text, nodes, from, rest, Form::List(Vec::new(alloc)))?;
        return Ok(Turn::Whole(k, rest));
    }
    let parts = Parts::Items(Vec::new(alloc));
    Ok(Turn::Goes(Open { from, parts }, bytes))
}

// What a curly bracket opens, where so many levels may open.
fn open_object<'a>(
    alloc: Global,
    text: &[u8],
    nodes: &mut Vec<Node>,
    levels: usize,
    from: &'a [u8],
    inside: &'a [u8],
) -> Result<Turn<'a>, JsonFault>
    requires utf8 { IsUtf8 text.now }
    requires sound { AreSound text.now nodes.old.items }
    requires front { IsRest text.now from.now }
    requires bracket { from.now ≡ 123 ∷ inside.now }
    ensures gives { Gives (turn_of (length text.now) (tree_of text.now nodes.new.items)) result (opens (length text.now) levels (length text.now - length from.now) says.curly inside.now) }
    ensures kept { OnOk result (Keeps text.now nodes.old.items nodes.new.items) }
    ensures turn { IfOk result (IsTurn text.now (length nodes.new.items)) }
{
    if levels == 0 {
        return Err(JsonFault::Depth(place(text.len(), from)));
    }
    let bytes = after_white(inside);
    if let Some(rest) = behind(b'}', bytes) {
        let k = add(
            text,
            nodes,
            from,
            rest,
            Form::Object(ObjectMembers::none(alloc)),
        )?;
        return Ok(Turn::Whole(k, rest));
    }
    let mut names = BTreeMap::new(alloc);
    let (name, rest) = read_label(alloc, text.len(), &mut names, 0, bytes)?;
    let before = Vec::new(alloc);
    let parts = Parts::Members(Members {
        before,
        names,
        name,
    });
    Ok(Turn::Goes(Open { from, parts }, rest))
}

// The turn at the front of a value, in which so many levels may open.
fn begin<'a>(
    alloc: Global,
    text: &[u8],
    nodes: &mut Vec<Node>,
    levels: usize,
    bytes: &'a [u8],
) -> Result<Turn<'a>, JsonFault>
    requires utf8 { IsUtf8 text.now }
    requires sound { AreSound text.now nodes.old.items }
    requires front { IsRest text.now bytes.now }
    ensures gives { Gives (turn_of (length text.now) (tree_of text.now nodes.new.items)) result (begun (length text.now) levels bytes.now) }
    ensures kept { OnOk result (Keeps text.now nodes.old.items nodes.new.items) }
    ensures turn { IfOk result (IsTurn text.now (length nodes.new.items)) }
{
    match bytes {
        [b'[', inside @ ..] => open_list(alloc, text, nodes, levels, bytes, inside),
        [b'{', inside @ ..] => open_object(alloc, text, nodes, levels, bytes, inside),
        _ => read_leaf(alloc, text, nodes, bytes),
    }
}

// The turn at the front of a value that is neither a list nor an object.
fn read_leaf<'a>(
    alloc: Global,
    text: &[u8],
    nodes: &mut Vec<Node>,
    bytes: &'a [u8],
) -> Result<Turn<'a>, JsonFault>
    requires utf8 { IsUtf8 text.now }
    requires sound { AreSound text.now nodes.old.items }
    requires front { IsRest text.now bytes.now }
    ensures gives { Gives (turn_of (length text.now) (tree_of text.now nodes.new.items)) result (leaf (length text.now) (length text.now - length bytes.now) (says.scalar (length text.now) bytes.now)) }
    ensures kept { OnOk result (Keeps text.now nodes.old.items nodes.new.items) }
    ensures turn { IfOk result (IsTurn text.now (length nodes.new.items)) }
{
    let (form, rest) = read_scalar(alloc, text.len(), bytes)?;
    let k = add(text, nodes, bytes, rest, form)?;
    Ok(Turn::Whole(k, rest))
}

// The turn behind an item of a list.
fn next_item<'a>(
    text: &[u8],
    nodes: &mut Vec<Node>,
    from: &'a [u8],
    mut ids: Vec<usize>,
    k: usize,
    bytes: &'a [u8],
) -> Result<Turn<'a>, JsonFault>
    requires utf8 { IsUtf8 text.now }
    requires sound { AreSound text.now nodes.old.items }
    requires front { IsRest text.now from.now }
    requires inside { IsRest from.now bytes.now }
    requires below { AllBelow (length nodes.old.items) ids.items }
    requires room { length ids.items < length text.now - length bytes.now }
    requires stands { k < length nodes.old.items }
    ensures gives { Gives (turn_of (length text.now) (tree_of text.now nodes.new.items)) result (onward (length text.now) (length text.now - length from.now) (in_list (map (tree_of text.now nodes.old.items) ids.items)) (tree_of text.now nodes.old.items k) bytes.now) }
    ensures kept { OnOk result (Keeps text.now nodes.old.items nodes.new.items) }
    ensures turn { IfOk result (IsTurn text.now (length nodes.new.items)) }
{
    ids.push(k)?;
    let next = behind_part(text.len(), b']', bytes)?;
    match next {
        Next::Done(rest) => {
            if !is_counted(ids.len()) {
                return Err(JsonFault::Memory);
            }
            let k = add(text, nodes, from, rest, Form::List(ids))?;
            Ok(Turn::Whole(k, rest))
        }
        Next::More(rest) => {
            let parts = Parts::Items(ids);
            Ok(Turn::Goes(Open { from, parts }, rest))
        }
    }
}

// The turn behind a member of an object.
fn next_member<'a>(
    alloc: Global,
    text: &[u8],
    nodes: &mut Vec<Node>,
    from: &'a [u8],
    members: Members,
    k: usize,
    bytes: &'a [u8],
) -> Result<Turn<'a>, JsonFault>
    requires utf8 { IsUtf8 text.now }
    requires sound { AreSound text.now nodes.old.items }
    requires front { IsRest text.now from.now }
    requires inside { IsRest from.now bytes.now }
    requires below { AllValuesBelow (length nodes.old.items) members.before.items }
    requires room { length members.before.items < length text.now - length bytes.now }
    requires names { HasNames members }
    requires stands { k < length nodes.old.items }
    ensures gives { Gives (turn_of (length text.now) (tree_of text.now nodes.new.items)) result (onward (length text.now) (length text.now - length from.now) (in_object (map (member_at (tree_of text.now nodes.old.items)) members.before.items) (string_bytes members.name)) (tree_of text.now nodes.old.items k) bytes.now) }
    ensures kept { OnOk result (Keeps text.now nodes.old.items nodes.new.items) }
    ensures turn { IfOk result (IsTurn text.now (length nodes.new.items)) }
{
    let Members {
        mut before,
        mut names,
        name,
    } = members;
    before.push((name, k))?;
    let next = behind_part(text.len(), b'}', bytes)?;
    match next {
        Next::Done(rest) => {
            if !is_counted(before.len()) {
                return Err(JsonFault::Memory);
            }
            let members = ObjectMembers::of(before, names);
            let k = add(text, nodes, from, rest, Form::Object(members))?;
            Ok(Turn::Whole(k, rest))
        }
        Next::More(rest) => {
            let (name, rest) = read_label(alloc, text.len(), &mut names, before.len(), rest)?;
            let parts = Parts::Members(Members {
                before,
                names,
                name,
            });
            Ok(Turn::Goes(Open { from, parts }, rest))
        }
    }
}

// The turn behind a part of the innermost open bracket.
fn go_on<'a>(
    alloc: Global,
    text: &[u8],
    nodes: &mut Vec<Node>,
    bracket: Open<'a>,
    k: usize,
    bytes: &'a [u8],
) -> Result<Turn<'a>, JsonFault>
    requires utf8 { IsUtf8 text.now }
    requires sound { AreSound text.now nodes.old.items }
    requires bracket { IsOpen text.now bytes.now (length nodes.old.items) bracket }
    requires stands { k < length nodes.old.items }
    ensures gives { Gives (turn_of (length text.now) (tree_of text.now nodes.new.items)) result (onward (length text.now) (length text.now - length bracket.entry.from.now) (inside_of (tree_of text.now nodes.old.items) bracket.entry.parts) (tree_of text.now nodes.old.items k) bytes.now) }
    ensures kept { OnOk result (Keeps text.now nodes.old.items nodes.new.items) }
    ensures turn { IfOk result (IsTurn text.now (length nodes.new.items)) }
{
    let Open { from, parts } = bracket;
    match parts {
        Parts::Items(ids) => next_item(text, nodes, from, ids, k, bytes),
        Parts::Members(members) => next_member(alloc, text, nodes, from, members, k, bytes),
    }
}

// The nodes of the value that begins here, its own node's number, and what follows it.
fn read_value<'a>(
    alloc: Global,
    text: &[u8],
    start: &'a [u8],
) -> Result<(Vec<Node>, usize, &'a [u8]), JsonFault>
    requires utf8 { IsUtf8 text.now }
    requires front { IsRest text.now start.now }
    ensures gives { Gives (λ d. (tree_of text.now d.0.items d.1, d.2.now)) result (says.value (length text.now) 64 start.now) }
    ensures sound { IfOk result (λ d. AreSound text.now d.0.items) }
    ensures root { IfOk result (λ d. d.1 < length d.0.items) }
{
    let mut nodes = Vec::new(alloc);
    let mut stack: Vec<Open> = Vec::new(alloc);
    let mut turn = begin(alloc, text, &mut nodes, LEVELS, start)?;
    'turns: loop {
        match turn {
            Turn::Goes(bracket, rest) => {
                stack.push(bracket)?;
                let levels = LEVELS.saturating_sub(stack.len());
                turn = begin(alloc, text, &mut nodes, levels, rest)?;
            }
            Turn::Whole(k, rest) => match stack.pop() {
                None => return Ok((nodes, k, rest)),
                Some(bracket) => turn = go_on(alloc, text, &mut nodes, bracket, k, rest)?,
            },
        }
    }
}

// The tree of a document that is UTF-8.
pub fn read_document(alloc: Global, text: &[u8]) -> Result<(Vec<Node>, usize), JsonFault>
    requires utf8 { IsUtf8 text.now }
    ensures gives { Gives (λ d. tree_of text.now d.0.items d.1) result (says.document text.now) }
    ensures sound { IfOk result (λ d. AreSound text.now d.0.items) }
    ensures root { IfOk result (λ d. d.1 < length d.0.items) }
{
    let (nodes, root, rest) = read_value(alloc, text, after_white(text))?;
    let rest = after_white(rest);
    if rest.is_empty() {
        Ok((nodes, root))
    } else {
        Err(JsonFault::Syntax(place(text.len(), rest)))
    }
}
