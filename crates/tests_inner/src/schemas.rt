// The keyword by which a body fails its model: the answer to a call does not tell it.
use json_subset::Json;
use schema_draft4::{Schema, Verdict};
use std::alloc::{AllocError, Global};
use std::process::Abort;
use std::test::Fail;

fn told(alloc: Global, verdict: Verdict) -> Result<String, AllocError> {
    match verdict {
        Verdict::Valid => String::from_str(alloc, "valid"),
        Verdict::Invalid(_, keyword) => format!(in alloc; "{keyword:?}"),
    }
}

fn checked(alloc: Global, schema: &Schema, value: &str) -> Result<String, AllocError> {
    match Json::read(alloc, value.as_bytes()) {
        Err(_) => String::from_str(alloc, "no JSON"),
        Ok(value) => match schema.check(alloc, &value) {
            Ok(verdict) => told(alloc, verdict),
            Err(_) => String::from_str(alloc, "Memory"),
        },
    }
}

fn answer(alloc: Global, schema: &str, value: &str) -> Result<String, AllocError> {
    match Json::read(alloc, schema.as_bytes()) {
        Err(_) => String::from_str(alloc, "no JSON"),
        Ok(doc) => match Schema::read(alloc, &doc, doc.root()) {
            Err(_) => String::from_str(alloc, "refused"),
            Ok(schema) => checked(alloc, &schema, value),
        },
    }
}

// Each row: a schema, a value, and the keyword by which it fails: in the order of the schema, and inside what it combines.
const FAILED: [[&str; 3]; 38] = [
    ["{\"minimum\":3,\"exclusiveMinimum\":true}", "3", "Minimum"],
    [
        "{\"minimum\":3,\"exclusiveMinimum\":true}",
        "3.0",
        "Minimum",
    ],
    ["{\"type\":\"integer\",\"minimum\":3}", "3.5", "TypeIs"],
    ["{\"multipleOf\":2}", "-7", "MultipleOf"],
    ["{\"multipleOf\":2}", "4.0", "MultipleOf"],
    ["{\"multipleOf\":2}", "1e1", "MultipleOf"],
    ["{\"maximum\":3}", "3.1", "Maximum"],
    ["{\"minimum\":-3}", "-3.1", "Minimum"],
    [
        "{\"maximum\":3,\"exclusiveMaximum\":true}",
        "3.0",
        "Maximum",
    ],
    ["{\"maximum\":3}", "1e0", "Maximum"],
    ["{\"maxLength\":2}", "\"abc\"", "MaxLength"],
    ["{\"minLength\":2}", "\"é\"", "MinLength"],
    ["{\"pattern\":\"^b+$\"}", "\"abbc\"", "Pattern"],
    ["{\"items\":{\"type\":\"string\"}}", "[\"a\",1]", "TypeIs"],
    [
        "{\"items\":[{\"type\":\"string\"},{\"type\":\"integer\"}]}",
        "[\"a\",\"b\",3]",
        "TypeIs",
    ],
    [
        "{\"items\":[{\"type\":\"string\"}],\"additionalItems\":false}",
        "[\"a\",2,3]",
        "AdditionalItems",
    ],
    [
        "{\"items\":[{}],\"additionalItems\":{\"type\":\"null\"}}",
        "[1,null,2]",
        "TypeIs",
    ],
    ["{\"minItems\":1}", "[]", "MinItems"],
    ["{\"maxItems\":1}", "[1,2]", "MaxItems"],
    ["{\"uniqueItems\":true}", "[1,2,1]", "UniqueItems"],
    [
        "{\"uniqueItems\":true}",
        "[{\"a\":1,\"b\":2},{\"b\":2,\"a\":1}]",
        "UniqueItems",
    ],
    ["{\"minProperties\":1}", "{}", "MinProperties"],
    [
        "{\"maxProperties\":1}",
        "{\"a\":1,\"b\":2}",
        "MaxProperties",
    ],
    ["{\"required\":[\"a\",\"b\"]}", "{\"a\":1}", "Required"],
    [
        "{\"properties\":{\"a\":{\"type\":\"integer\"}}}",
        "{\"a\":\"x\"}",
        "TypeIs",
    ],
    [
        "{\"properties\":{\"b\":{\"type\":\"null\"},\"a\":{\"type\":\"null\"}}}",
        "{\"a\":1,\"b\":2}",
        "TypeIs",
    ],
    [
        "{\"properties\":{\"a\":{}},\"additionalProperties\":false}",
        "{\"a\":1,\"c\":3,\"b\":2}",
        "AdditionalProperties",
    ],
    [
        "{\"additionalProperties\":{\"type\":\"string\"},\"properties\":{\"a\":{}}}",
        "{\"a\":1,\"b\":2}",
        "TypeIs",
    ],
    ["{\"enum\":[\"red\",1,null]}", "1.0", "Enum"],
    ["{\"type\":\"integer\"}", "1.0", "TypeIs"],
    [
        "{\"allOf\":[{\"type\":\"integer\"},{\"minimum\":5}]}",
        "3",
        "Minimum",
    ],
    [
        "{\"anyOf\":[{\"type\":\"string\"},{\"minimum\":5}]}",
        "3",
        "AnyOf",
    ],
    [
        "{\"oneOf\":[{\"type\":\"integer\"},{\"minimum\":2}]}",
        "3",
        "OneOf",
    ],
    ["{\"not\":{\"type\":\"integer\"}}", "3", "Not"],
    ["{\"maximum\":1,\"type\":\"string\"}", "2", "Maximum"],
    ["{\"type\":\"string\",\"maximum\":1}", "2", "TypeIs"],
    [
        "{\"definitions\":{\"p\":{\"minimum\":1}},\"properties\":{\"n\":{\"$ref\":\"#/definitions/p\"}}}",
        "{\"n\":0}",
        "Minimum",
    ],
    [
        "{\"properties\":{\"next\":{\"$ref\":\"#\"}},\"additionalProperties\":false}",
        "{\"next\":{\"next\":{\"x\":1}}}",
        "AdditionalProperties",
    ],
];

fn have_answers(rt: &impl Abort, alloc: Global, rows: &[[&str; 3]]) -> Result<(), Fail> {
    for [schema, value, want] in rows {
        let got = answer(alloc, schema, value)?;
        assert_eq!(rt; got.as_str(), *want, "at {schema}");
    }
    Ok(())
}

#[test]
fn a_failure_has_its_keyword(rt: HostRuntime) -> Result<(), Fail> {
    have_answers(&rt, rt.alloc(), &FAILED)
}
