// A keeper each of whose calls fails in turn.
use crate::played::play;
use std::alloc::Global;
use std::test::Fail;

/// An API whose one method asks for a key, and a key that joined a plan of one call a second and two at once. Behind the load each
/// record takes two calls of the keeper.
const COMMANDS: &str =
    "api 0 a {\"version\":1,\"resources\":{\"/\":{\"GET\":{\"apiKeyRequired\":true,\"integration\":{\"type\":\"MOCK\",\"templates\":{\"application/json\":\"{\\\"statusCode\\\":200}\"},\"responses\":[{\"status\":200}]}}}}}\ndeploy 0 a\nstage 0 a s 1\nkey 0 k1 kk on\nplan 0 p 1:2 - a/s\njoin 0 p k1\n";

const DONE: &str = "done\ndeployed 1\ndone\ndone\ndone\ndone\n";

/// The moments of calls by the key. The first two and the last are admitted where all is kept, each by one call of the keeper.
const MOMENTS: [u64; 5] = [0, 0, 0, 999, 1000];

const ADMITTED: &str =
    "answer HTTP/1.1%20200%20OK%0D%0Acontent-type:%20application/json%0D%0Acontent-length:%200%0D%0A%0D%0A\nended Closed\n";

const THROTTLED: &str =
    "answer HTTP/1.1%20429%20Too%20Many%20Requests%0D%0Acontent-type:%20application/json%0D%0Ax-gateway-cause:%20THROTTLED%0D%0Acontent-length:%2031%0D%0A%0D%0A{\"message\":\"Too%20Many%20Requests\"}\nended Closed\n";

const NOT_KEPT: &str =
    "answer HTTP/1.1%20500%20Internal%20Server%20Error%0D%0Acontent-type:%20application/json%0D%0Ax-gateway-cause:%20STORE_FAILURE%0D%0Acontent-length:%2031%0D%0A%0D%0A{\"message\":\"Store%20unavailable\"}\nended Closed\n";

const NO_STAGE: &str =
    "answer HTTP/1.1%20403%20Forbidden%0D%0Acontent-type:%20application/json%0D%0Ax-gateway-cause:%20UNKNOWN_STAGE%0D%0Acontent-length:%2027%0D%0A%0D%0A{\"message\":\"Unknown%20stage\"}\nended Closed\n";

const NO_KEY: &str =
    "answer HTTP/1.1%20403%20Forbidden%0D%0Acontent-type:%20application/json%0D%0Ax-gateway-cause:%20INVALID_API_KEY%0D%0Acontent-length:%2023%0D%0A%0D%0A{\"message\":\"Forbidden\"}\nended Closed\n";

/// The calls of the keeper one of which fails, what the commands print then, and what each call by the key is answered.
const ROWS: [(&[u32], &str, [&str; 5]); 10] = [
    (
        &[1, 2],
        "store\nrefused NoApi\nrefused NoApi\ndone\nrefused NoStage\nrefused NoPlan\n",
        [NO_STAGE; 5],
    ),
    (
        &[3, 4],
        "done\nstore\nrefused NoDeployment\ndone\nrefused NoStage\nrefused NoPlan\n",
        [NO_STAGE; 5],
    ),
    (
        &[5, 6],
        "done\ndeployed 1\nstore\ndone\nrefused NoStage\nrefused NoPlan\n",
        [NO_STAGE; 5],
    ),
    (
        &[7, 8],
        "done\ndeployed 1\ndone\nstore\ndone\nrefused NoKey\n",
        [NO_KEY; 5],
    ),
    (
        &[9, 10],
        "done\ndeployed 1\ndone\ndone\nstore\nrefused NoPlan\n",
        [NO_KEY; 5],
    ),
    (
        &[11, 12],
        "done\ndeployed 1\ndone\ndone\ndone\nstore\n",
        [NO_KEY; 5],
    ),
    // An admission that is not kept takes nothing from the bucket.
    (
        &[13],
        DONE,
        [NOT_KEPT, ADMITTED, ADMITTED, THROTTLED, ADMITTED],
    ),
    (
        &[14],
        DONE,
        [ADMITTED, NOT_KEPT, ADMITTED, THROTTLED, ADMITTED],
    ),
    (
        &[15],
        DONE,
        [ADMITTED, ADMITTED, THROTTLED, THROTTLED, NOT_KEPT],
    ),
    // No call has this number.
    (
        &[16],
        DONE,
        [ADMITTED, ADMITTED, THROTTLED, THROTTLED, ADMITTED],
    ),
];

// The script whose call of the keeper of this number fails.
fn script(alloc: Global, fails: u32) -> Result<String, Fail> {
    let mut script = format!(in alloc; "keepfails {fails}\n{COMMANDS}")?;
    for moment in MOMENTS {
        let call = format!(in alloc;
            "call {moment} 0 GET%20/a/s%20HTTP/1.1%0D%0Ahost:%20localhost%0D%0Ax-api-key:%20kk%0D%0A%0D%0A\n"
        )?;
        script.push_str(call.as_str())?;
    }
    Ok(script)
}

fn wanted(alloc: Global, commands: &str, answers: &[&str]) -> Result<String, Fail> {
    let mut wanted = String::from_str(alloc, commands)?;
    for answer in answers {
        wanted.push_str(answer)?;
    }
    Ok(wanted)
}

#[test]
fn a_change_that_is_not_kept_is_told(rt: HostRuntime) -> Result<(), Fail> {
    let alloc = rt.alloc();
    for (numbers, commands, answers) in &ROWS {
        let wanted = wanted(alloc, commands, answers)?;
        for number in *numbers {
            let (status, said) = play(&rt, alloc, script(alloc, *number)?.as_str())?;
            assert_eq!(rt; said.bytes(), wanted.as_bytes(), "call {number}");
            assert_eq!(rt; status, 0);
        }
    }
    Ok(())
}

#[test]
fn a_load_that_fails_is_told(rt: HostRuntime) -> Result<(), Fail> {
    let alloc = rt.alloc();
    let (status, said) = play(&rt, alloc, script(alloc, 0)?.as_str())?;
    assert_eq!(rt; said.bytes(), b"fault keeper\n".as_slice());
    assert_eq!(rt; status, 3);
    Ok(())
}
