// Columns of pairs.
use gw_base::{Memory, Text};
use record_fields::{read_column, write_column};
use std::alloc::Global;
use std::test::Fail;

fn pairs(alloc: Global, from: &[(&str, &str)]) -> Result<Vec<(Text, Text)>, Memory> {
    let mut made = Vec::new(alloc);
    for pair in from {
        let name = Text::of(String::from_str(alloc, pair.0)?);
        let value = Text::of(String::from_str(alloc, pair.1)?);
        made.push((name, value))?;
    }
    Ok(made)
}

// What a column is written as, once it was read; None where it has not its form.
fn again(alloc: Global, column: &str) -> Result<Option<Text>, Memory> {
    match read_column(alloc, column)? {
        Some(found) => Ok(Some(write_column(alloc, &found)?)),
        None => Ok(None),
    }
}

#[test]
fn a_column_is_written_field_by_field(rt: HostRuntime) -> Result<(), Fail> {
    let alloc = rt.alloc();
    let found = pairs(alloc, &[("env", "a b"), ("x", ""), ("y", "1=2%")])?;
    assert_eq!(rt;
        write_column(alloc, &found)?.as_str(),
        "env=a%20b x= y=1=2%25"
    );
    assert_eq!(rt; write_column(alloc, &pairs(alloc, &[])?)?.as_str(), "");
    Ok(())
}

#[test]
fn a_column_has_one_form(rt: HostRuntime) -> Result<(), Fail> {
    let alloc = rt.alloc();
    for column in ["", "env=a%20b", "x=1 y=2", "x=~"] {
        let Some(written) = again(alloc, column)? else {
            return Err(Fail::new("the column is not read"));
        };
        assert_eq!(rt; written.as_str(), column);
    }
    for column in [
        "x=%2f", "x=%41", "x", "x=1  y=2", "x=1 ", " x=1", "~", "x=%FF",
    ] {
        assert!(rt; again(alloc, column)?.is_none());
    }
    Ok(())
}
