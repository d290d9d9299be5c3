use crate::scripts::{HELLO, HELLO_SAID, played, source, told};
use gw_base::{MemSink, Sink, Source};
use std::alloc::Global;
use std::sync::Wait;
use std::test::Fail;
use std::thread::Threads;

// What the hello script comes to where this read fails.
fn read_failing<R: Threads + Wait + Sync>(
    rt: &R,
    alloc: Global,
    call: u32,
) -> Result<(u8, MemSink), Fail> {
    let mut input = source(alloc, HELLO, 60, &[call])?;
    let mut output = MemSink::new(alloc, Vec::new(alloc));
    let status = played(rt, alloc, &mut input, &mut output)?;
    Ok((status, output))
}

// A script of the hello script's commands, two posts with this body and a short one: where the body is long, what is printed
// is written in three pieces.
fn three_posts(alloc: Global, body: &str) -> Result<String, Fail> {
    let mut script = String::from_str(
        alloc,
        "text 0 hello Hi%20$input.body!\ndeploy 0 hello\nstage 0 hello v1 1\n",
    )?;
    for name in [body, body, "Ann"] {
        let post = format!(in alloc; "post 0 0 hello v1 {name}\n")?;
        script.push_str(post.as_str())?;
    }
    Ok(script)
}

// What a script comes to where this write fails.
fn write_failing<R: Threads + Wait + Sync>(
    rt: &R,
    alloc: Global,
    script: &str,
    call: u32,
) -> Result<(u8, MemSink), Fail> {
    let mut input = source(alloc, script, 4096, &[])?;
    let mut output = MemSink::new(alloc, Vec::from_slice(alloc, &[call])?);
    let status = played(rt, alloc, &mut input, &mut output)?;
    Ok((status, output))
}

#[test]
fn each_read_fails_once(rt: HostRuntime) -> Result<(), Fail> {
    for call in 0..3 {
        let (status, output) = read_failing(&rt, rt.alloc(), call)?;
        assert_eq!(rt; status, 3);
        assert_eq!(rt;
            output.bytes(),
            b"fault input
"
                .as_slice()
        );
    }
    Ok(())
}

// As many bytes as are gathered at most before they are written, and some more.
fn long_body(alloc: Global) -> Result<String, Fail> {
    let mut body = String::new(alloc);
    for _ in 0..9_000 {
        body.push('a')?;
    }
    Ok(body)
}

#[test]
fn each_write_fails_once(rt: HostRuntime) -> Result<(), Fail> {
    let alloc = rt.alloc();
    let body = long_body(alloc)?;
    let script = three_posts(alloc, body.as_str())?;
    let answer = format!(in alloc;
        "answer HTTP/1.1%20200%20OK%0D%0Acontent-type:%20text/plain%0D%0Acontent-length:%209004%0D%0A%0D%0AHi%20{}!\nended Closed\n",
        body.as_str()
    )?;
    let rows = [
        String::new(alloc),
        format!(in alloc; "done\ndeployed 1\ndone\n{}", answer.as_str())?,
        format!(in alloc;
            "done\ndeployed 1\ndone\n{}{}",
            answer.as_str(),
            answer.as_str()
        )?,
    ];
    for (call, front) in rows.iter().enumerate() {
        let (status, output) = write_failing(&rt, alloc, script.as_str(), call as u32)?;
        let said = format!(in alloc; "{}fault output\n", front.as_str())?;
        assert_eq!(rt; status, 3);
        assert_eq!(rt; output.bytes(), said.as_bytes());
    }
    Ok(())
}

#[test]
fn a_short_script_is_written_at_once(rt: HostRuntime) -> Result<(), Fail> {
    let alloc = rt.alloc();
    let script = three_posts(alloc, "Bob")?;
    let (status, output) = write_failing(&rt, alloc, script.as_str(), 1)?;
    assert_eq!(rt; status, 0);
    let (_, whole) = told(&rt, alloc, script.as_str())?;
    assert_eq!(rt; output.bytes(), whole.bytes());
    Ok(())
}
// A fault that was counted before the call is not told.
#[test]
fn an_old_fault_is_not_told(rt: HostRuntime) -> Result<(), Fail> {
    let alloc = rt.alloc();
    let mut input = source(alloc, HELLO, 4096, &[0])?;
    let mut output = MemSink::new(alloc, Vec::from_slice(alloc, &[0])?);
    assert!(rt; input.read(&mut [0; 1]).is_err());
    assert!(rt; output.write(b"x").is_err());
    assert_eq!(rt; played(&rt, alloc, &mut input, &mut output)?, 0);
    assert_eq!(rt; output.bytes(), HELLO_SAID.as_bytes());
    Ok(())
}
// The keeper is named also where the line that names it is not written, and the input where it is not read.
#[test]
fn the_first_fault_is_told(rt: HostRuntime) -> Result<(), Fail> {
    let alloc = rt.alloc();
    let mut input = source(alloc, "keepfails 0", 4096, &[])?;
    let mut output = MemSink::new(alloc, Vec::from_slice(alloc, &[0])?);
    assert_eq!(rt; played(&rt, alloc, &mut input, &mut output)?, 3);
    assert_eq!(rt; output.bytes(), b"".as_slice());
    let mut input = source(alloc, "keepfails 0", 4096, &[0])?;
    let mut output = MemSink::new(alloc, Vec::new(alloc));
    assert_eq!(rt; played(&rt, alloc, &mut input, &mut output)?, 3);
    assert_eq!(rt; output.bytes(), b"fault input\n".as_slice());
    Ok(())
}
