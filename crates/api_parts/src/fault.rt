// Why a definition is refused, and where.
ghost use Rattle.std.specs.Prelude.{◌≡◌};
ghost use Rattle.api_parts.specs.Printed.{shown as shown_of};

use gw_base::Text;
use json_subset::JsonFault;
use resource_tree::TreeFault;
use std::fmt;
use vtl_grammar::TemplateFault;

/// Why a model is no schema. A place counts bytes from the start of the document.
#[derive(Drop)]
pub enum ModelFault {
    /// The first byte of a keyword's value that is of another form than draft 4 and the product give it, or of a schema
    /// that is no object.
    BadKeyword(usize),
    /// The first byte of a pattern that is none of `regex`.
    BadPattern(usize),
    /// A keyword that is not taken: `patternProperties`, `dependencies`, or a `$ref` of another form.
    Unsupported(Text),
    /// A `$ref` that leads back to itself through no properties and no items: the name that it has, `#` for the root.
    RefCycle(Text),
    /// A `$ref` to a name that the model's `definitions` lacks.
    RefMissing(Text),
}

/// Why a definition is refused.
#[derive(Drop)]
pub enum ApiCause {
    /// The bytes are no JSON document.
    Json(JsonFault),
    /// The object lacks this member.
    Missing(Text),
    /// The object has no such member.
    Unknown(Text),
    /// The value of this member is of a wrong form, or out of its range.
    BadMember(Text),
    /// The path of a resource is none, or clashes with an earlier one.
    Tree(TreeFault),
    /// A model is no schema.
    Model(ModelFault),
    /// A mapping template is none.
    Template(TemplateFault),
    /// A target or a source of a mapping is none, or names what is not there.
    BadMapping,
    /// A pattern is none of `regex`.
    BadPattern,
    /// No values of its placeholders make a `uri` one of a backend.
    BadUri,
    /// A second response rule without a pattern.
    TwoDefaults,
    /// A validator, a model or an authorizer of this name is not defined.
    NoSuch(Text),
    /// The document has more than 1,048,576 bytes. It is told before all else.
    TooLong,
    /// There was no memory.
    Memory,
}

/// The cause, and the JSON Pointer (RFC 6901) of the member that holds it; of [`ApiCause::Missing`] it is the object.
#[derive(Drop)]
pub struct ApiFault {
    pub place: Text,
    pub cause: ApiCause,
}

// A name as it is printed: `~` stands for the empty one.
fn shown(name: &Text) -> &str
    ensures { result.now ≡ shown_of name.now }
{
    if name.is_empty() { "~" } else { name.as_str() }
}

/// Prints its name, with its number or its name in brackets: `Missing(resources)`, `RefCycle(#)`, `Unclosed(0)`.
impl fmt::Display for ApiCause {
    ghost use Rattle.std.specs.Prelude.{Some};
    ghost use Rattle.api_parts.specs.Printed.{printed};

    ghost output = { λ cause. Some (printed cause) };

    fn fmt<W: fmt::Write>(&self, f: &mut fmt::Formatter<W>) -> fmt::Result {
        match self {
            ApiCause::Json(JsonFault::Syntax(at)) => write!(f, "Syntax({at})"),
            ApiCause::Json(JsonFault::Depth(at)) => write!(f, "Depth({at})"),
            ApiCause::Json(JsonFault::Repeated(at)) => write!(f, "Repeated({at})"),
            ApiCause::Json(JsonFault::NotUtf8(at)) => write!(f, "NotUtf8({at})"),
            ApiCause::Json(JsonFault::Memory) => f.write_str("Memory"),
            ApiCause::Missing(name) => write!(f, "Missing({})", shown(name)),
            ApiCause::Unknown(name) => write!(f, "Unknown({})", shown(name)),
            ApiCause::BadMember(name) => write!(f, "BadMember({})", shown(name)),
            ApiCause::Tree(TreeFault::BadPart(at)) => write!(f, "BadPart({at})"),
            ApiCause::Tree(TreeFault::Clash(at)) => write!(f, "Clash({at})"),
            ApiCause::Tree(TreeFault::GreedyNotLast(at)) => write!(f, "GreedyNotLast({at})"),
            ApiCause::Tree(TreeFault::Memory) => f.write_str("Memory"),
            ApiCause::Model(ModelFault::BadKeyword(at)) => write!(f, "BadKeyword({at})"),
            ApiCause::Model(ModelFault::BadPattern(at)) => write!(f, "BadPattern({at})"),
            ApiCause::Model(ModelFault::Unsupported(name)) => write!(
                f,
                "Unsupported({})",
                shown(name)
            ),
            ApiCause::Model(ModelFault::RefCycle(name)) => write!(f, "RefCycle({})", shown(name)),
            ApiCause::Model(ModelFault::RefMissing(name)) => write!(
                f,
                "RefMissing({})",
                shown(name)
            ),
            ApiCause::Template(fault) => write!(f, "{fault}"),
            ApiCause::BadMapping => f.write_str("BadMapping"),
            ApiCause::BadPattern => f.write_str("BadPattern"),
            ApiCause::BadUri => f.write_str("BadUri"),
            ApiCause::TwoDefaults => f.write_str("TwoDefaults"),
            ApiCause::NoSuch(name) => write!(f, "NoSuch({})", shown(name)),
            ApiCause::TooLong => f.write_str("TooLong"),
            ApiCause::Memory => f.write_str("Memory"),
        }
    }
}
