// The names of keywords.
ghost use Rattle.std.specs.Prelude.{◌≡◌};
ghost use Rattle.schema_draft4.specs.Words as says;

use schema_keywords::TypeName;

/// A keyword by its name.
#[derive(Clone, Copy, PartialEq, Eq, Debug, Drop)]
pub enum Word {
    Minimum,
    Maximum,
    ExclusiveMinimum,
    ExclusiveMaximum,
    MultipleOf,
    MinLength,
    MaxLength,
    Pattern,
    Enum,
    Type,
    Items,
    AdditionalItems,
    MinItems,
    MaxItems,
    UniqueItems,
    Properties,
    AdditionalProperties,
    Required,
    MinProperties,
    MaxProperties,
    AllOf,
    AnyOf,
    OneOf,
    Not,
    Definitions,
    Ref,
    PatternProperties,
    Dependencies,
    /// Any other name, which is read and ignored.
    Unknown,
}

fn number_word(name: &str) -> Option<Word>
    ensures { result ≡ says.number_word name.now }
{
    if name == "minimum" {
        Some(Word::Minimum)
    } else if name == "maximum" {
        Some(Word::Maximum)
    } else if name == "exclusiveMinimum" {
        Some(Word::ExclusiveMinimum)
    } else if name == "exclusiveMaximum" {
        Some(Word::ExclusiveMaximum)
    } else if name == "multipleOf" {
        Some(Word::MultipleOf)
    } else {
        None
    }
}

fn text_word(name: &str) -> Option<Word>
    ensures { result ≡ says.text_word name.now }
{
    if name == "minLength" {
        Some(Word::MinLength)
    } else if name == "maxLength" {
        Some(Word::MaxLength)
    } else if name == "pattern" {
        Some(Word::Pattern)
    } else if name == "enum" {
        Some(Word::Enum)
    } else if name == "type" {
        Some(Word::Type)
    } else {
        None
    }
}

fn list_word(name: &str) -> Option<Word>
    ensures { result ≡ says.list_word name.now }
{
    if name == "items" {
        Some(Word::Items)
    } else if name == "additionalItems" {
        Some(Word::AdditionalItems)
    } else if name == "minItems" {
        Some(Word::MinItems)
    } else if name == "maxItems" {
        Some(Word::MaxItems)
    } else if name == "uniqueItems" {
        Some(Word::UniqueItems)
    } else {
        None
    }
}

fn object_word(name: &str) -> Option<Word>
    ensures { result ≡ says.object_word name.now }
{
    if name == "properties" {
        Some(Word::Properties)
    } else if name == "additionalProperties" {
        Some(Word::AdditionalProperties)
    } else if name == "required" {
        Some(Word::Required)
    } else if name == "minProperties" {
        Some(Word::MinProperties)
    } else if name == "maxProperties" {
        Some(Word::MaxProperties)
    } else {
        None
    }
}

fn schema_word(name: &str) -> Option<Word>
    ensures { result ≡ says.schema_word name.now }
{
    if name == "allOf" {
        Some(Word::AllOf)
    } else if name == "anyOf" {
        Some(Word::AnyOf)
    } else if name == "oneOf" {
        Some(Word::OneOf)
    } else if name == "not" {
        Some(Word::Not)
    } else if name == "definitions" {
        Some(Word::Definitions)
    } else {
        None
    }
}

fn other_word(name: &str) -> Option<Word>
    ensures { result ≡ says.other_word name.now }
{
    if name == "$ref" {
        Some(Word::Ref)
    } else if name == "patternProperties" {
        Some(Word::PatternProperties)
    } else if name == "dependencies" {
        Some(Word::Dependencies)
    } else {
        None
    }
}

fn first_word(first: Option<Word>, second: Option<Word>) -> Option<Word>
    ensures { result ≡ says.first_word first second }
{
    match first {
        None => second,
        Some(word) => Some(word),
    }
}

/// The keyword of this name.
pub fn word_of(name: &str) -> Word
    ensures { result ≡ says.word_of name.now }
{
    let of_schemas = first_word(schema_word(name), other_word(name));
    let of_parts = first_word(list_word(name), first_word(object_word(name), of_schemas));
    match first_word(number_word(name), first_word(text_word(name), of_parts)) {
        None => Word::Unknown,
        Some(word) => word,
    }
}

/// The type of this name.
pub fn type_of(name: &str) -> Option<TypeName>
    ensures { result ≡ says.type_of name.now }
{
    if name == "array" {
        Some(TypeName::Array)
    } else if name == "boolean" {
        Some(TypeName::Boolean)
    } else if name == "integer" {
        Some(TypeName::Integer)
    } else if name == "null" {
        Some(TypeName::Null)
    } else if name == "number" {
        Some(TypeName::Number)
    } else if name == "object" {
        Some(TypeName::Object)
    } else if name == "string" {
        Some(TypeName::Text)
    } else {
        None
    }
}
