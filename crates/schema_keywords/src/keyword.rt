// Keywords.
use json_values::Value;
use pattern_core::Pattern;

/// A type's name (JSON Schema draft 4, core, section 3.5).
#[derive(Clone, Copy, Debug, PartialEq, Eq, Drop)]
pub enum TypeName {
    Array,
    Boolean,
    Integer,
    Null,
    Number,
    Object,
    /// `string`
    Text,
}

/// The keyword of a failure (validation, section 5).
#[derive(Clone, Copy, Debug, PartialEq, Eq, Drop)]
pub enum Keyword {
    /// `type` (5.5.2)
    TypeIs,
    /// `required` (5.4.3)
    Required,
    /// `additionalProperties` that is false (5.4.4)
    AdditionalProperties,
    /// `additionalItems` that is false (5.3.1)
    AdditionalItems,
    /// `minimum`, and `exclusiveMinimum` with it (5.1.3)
    Minimum,
    /// `maximum`, and `exclusiveMaximum` with it (5.1.2)
    Maximum,
    /// `multipleOf` (5.1.1)
    MultipleOf,
    /// `minLength` (5.2.2)
    MinLength,
    /// `maxLength` (5.2.1)
    MaxLength,
    /// `pattern` (5.2.3)
    Pattern,
    /// `enum` (5.5.1)
    Enum,
    /// `minItems` (5.3.3)
    MinItems,
    /// `maxItems` (5.3.2)
    MaxItems,
    /// `uniqueItems` (5.3.4)
    UniqueItems,
    /// `minProperties` (5.4.2)
    MinProperties,
    /// `maxProperties` (5.4.1)
    MaxProperties,
    /// `anyOf` (5.5.4)
    AnyOf,
    /// `oneOf` (5.5.5)
    OneOf,
    /// `not` (5.5.6)
    Not,
}

/// A keyword that looks at one value alone, with its own value.
pub enum Test {
    Type(Vec<TypeName>),
    Required(Vec<String>),
    /// The bound, and whether it is sharp.
    Minimum(i64, bool),
    Maximum(i64, bool),
    /// A number above 0.
    MultipleOf(u64),
    MinLength(u64),
    MaxLength(u64),
    Pattern(Pattern),
    /// Values, and the numbers of those that are listed.
    Enum(Vec<Value>, Vec<usize>),
    MinItems(u64),
    MaxItems(u64),
    /// `uniqueItems` that is true.
    UniqueItems,
    MinProperties(u64),
    MaxProperties(u64),
}

impl Drop for Test {
    fn drop(self) {
        match self {
            Test::Type(_) => {}
            Test::Required(_) => {}
            Test::Minimum(_, _) => {}
            Test::Maximum(_, _) => {}
            Test::MultipleOf(_) => {}
            Test::MinLength(_) => {}
            Test::MaxLength(_) => {}
            Test::Pattern(_) => {}
            Test::Enum(_, _) => {}
            Test::MinItems(_) => {}
            Test::MaxItems(_) => {}
            Test::UniqueItems => {}
            Test::MinProperties(_) => {}
            Test::MaxProperties(_) => {}
        }
    }
}
