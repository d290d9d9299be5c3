// What a template that is read says of itself.
use std::test::Fail;
use vtl_reader::Template;

#[test]
fn simple_templates_have_no_calls(rt: HostRuntime) -> Result<(), Fail> {
    let alloc = rt.alloc();
    let rows = [
        ("", true, true),
        ("a $input.body ${input.body}", true, true),
        ("$!input.body#[[ #end ]]#", true, true),
        ("a $context.stage", true, false),
        ("$input.body.x", true, false),
        ("$input.json('$')", false, false),
        ("$a[0]", false, false),
        ("a ## b", false, false),
        ("#stop", false, false),
    ];
    for (text, simple, plain) in &rows {
        let template = Template::read(alloc, text).ok();
        assert_eq!(rt;
            template.as_ref().map(|template| template.simple()),
            Some(*simple),
            "at {text}"
        );
        assert_eq!(rt;
            template.as_ref().map(|template| template.plain()),
            Some(*plain),
            "at {text}"
        );
    }
    Ok(())
}

fn crosses_threads<T: Send + Sync>(value: T) -> T {
    value
}

#[test]
fn a_template_crosses_threads(rt: HostRuntime) -> Result<(), Fail> {
    let template = crosses_threads(Template::read(rt.alloc(), "a").ok());
    assert!(rt; template.is_some_and(|template| template.source() == "a"));
    Ok(())
}
