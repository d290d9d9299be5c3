// Which method a name means on each kind of value.
ghost use Rattle.std.specs.Prelude.{◌≡◌};
ghost use Rattle.vtl_methods.specs.Names.{tests_named as tests_of, places_named as places_of, forms_named as forms_of, text_method_named, list_method_named, map_method_named};

/// A method of a text.
#[derive(Clone, Copy)]
pub(crate) enum TextMethod {
    /// `length()`
    Length,
    /// `equals(s)`
    Equals,
    /// `contains(s)`
    Contains,
    /// `startsWith(s)`
    StartsWith,
    /// `endsWith(s)`
    EndsWith,
    /// `indexOf(s)`
    IndexOf,
    /// `substring(i)` and `substring(i, j)`
    Substring,
    /// `toUpperCase()`
    ToUpperCase,
    /// `toLowerCase()`
    ToLowerCase,
    /// `trim()`
    Trim,
    /// `replace(s, t)`
    Replace,
    /// `replaceAll(p, t)`
    ReplaceAll,
    /// `split(p)`
    Split,
    /// `isEmpty()`
    IsEmpty,
}

/// A method of a list or a range.
#[derive(Clone, Copy)]
pub(crate) enum ListMethod {
    /// `size()`
    Size,
    /// `get(n)`
    Get,
    /// `contains(v)`
    Contains,
    /// `isEmpty()`
    IsEmpty,
}

/// A method of a map.
#[derive(Clone, Copy)]
pub(crate) enum MapMethod {
    /// `size()`
    Size,
    /// `get(k)`
    Get,
    /// `containsKey(k)`
    ContainsKey,
    /// `keySet()`
    KeySet,
    /// `entrySet()`
    EntrySet,
    /// `isEmpty()`
    IsEmpty,
}

/// The method of a text with this name.
#[tactic(auto, unfolding(crate::specs::Names::text_method_named))]
pub(crate) fn method_of_text(name: &str) -> Option<TextMethod>
    ensures { result ≡ text_method_named name.now }
{
    if name == "replace" {
        Some(TextMethod::Replace)
    } else if name == "replaceAll" {
        Some(TextMethod::ReplaceAll)
    } else if name == "split" {
        Some(TextMethod::Split)
    } else {
        forms_named(name)
    }
}

fn forms_named(name: &str) -> Option<TextMethod>
    ensures { result ≡ forms_of name.now }
{
    if name == "toUpperCase" {
        Some(TextMethod::ToUpperCase)
    } else if name == "toLowerCase" {
        Some(TextMethod::ToLowerCase)
    } else if name == "trim" {
        Some(TextMethod::Trim)
    } else {
        places_named(name)
    }
}

fn places_named(name: &str) -> Option<TextMethod>
    ensures { result ≡ places_of name.now }
{
    if name == "length" {
        Some(TextMethod::Length)
    } else if name == "indexOf" {
        Some(TextMethod::IndexOf)
    } else if name == "substring" {
        Some(TextMethod::Substring)
    } else {
        tests_named(name)
    }
}

fn tests_named(name: &str) -> Option<TextMethod>
    ensures { result ≡ tests_of name.now }
{
    if name == "equals" {
        Some(TextMethod::Equals)
    } else if name == "contains" {
        Some(TextMethod::Contains)
    } else if name == "startsWith" {
        Some(TextMethod::StartsWith)
    } else if name == "endsWith" {
        Some(TextMethod::EndsWith)
    } else if name == "isEmpty" {
        Some(TextMethod::IsEmpty)
    } else {
        None
    }
}

/// The method of a list or a range with this name.
#[tactic(auto, unfolding(crate::specs::Names::list_method_named))]
pub(crate) fn method_of_list(name: &str) -> Option<ListMethod>
    ensures { result ≡ list_method_named name.now }
{
    if name == "size" {
        Some(ListMethod::Size)
    } else if name == "get" {
        Some(ListMethod::Get)
    } else if name == "contains" {
        Some(ListMethod::Contains)
    } else if name == "isEmpty" {
        Some(ListMethod::IsEmpty)
    } else {
        None
    }
}

/// The method of a map with this name.
#[tactic(auto, unfolding(crate::specs::Names::map_method_named))]
pub(crate) fn method_of_map(name: &str) -> Option<MapMethod>
    ensures { result ≡ map_method_named name.now }
{
    if name == "size" {
        Some(MapMethod::Size)
    } else if name == "get" {
        Some(MapMethod::Get)
    } else if name == "containsKey" {
        Some(MapMethod::ContainsKey)
    } else if name == "keySet" {
        Some(MapMethod::KeySet)
    } else if name == "entrySet" {
        Some(MapMethod::EntrySet)
    } else if name == "isEmpty" {
        Some(MapMethod::IsEmpty)
    } else {
        None
    }
}
