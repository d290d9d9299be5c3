// The lines of a load.
ghost use Rattle.std.specs.Prelude.{◌≡◌, ◌<◌, length, IfOk};
ghost use Rattle.load_command.specs.Lines.{call_line as call_line_of, first_lines as first_lines_of};

use gw_base::{Memory, Text};
use std::alloc::Global;

/// The lines that a load begins with.
#[tactic(auto, unfolding(crate::specs::Lines::first_lines))]
pub fn first_lines() -> &'static [u8]
    ensures lines { result.now ≡ first_lines_of }
    ensures within { length result.now < 4294967296 }
{
    b"api 0 load {\"version\":1,\"resources\":{\"/\":{\"GET\":{\"apiKeyRequired\":true,\"integration\":{\"type\":\"MOCK\",\"templates\":{\"application/json\":\"{\\\"statusCode\\\":200}\"},\"responses\":[{\"status\":200}]}}}}}\ndeploy 0 load\ndeploy 0 load\nstage 0 load s 1\ncanary 0 load s 2 2500\nkey 0 k0 load-key-0 on\nkey 0 k1 load-key-1 on\nkey 0 k2 load-key-2 on\nkey 0 k3 load-key-3 on\nkey 0 k4 load-key-4 on\nkey 0 k5 load-key-5 on\nkey 0 k6 load-key-6 on\nkey 0 k7 load-key-7 on\nplan 0 p 5:10 1000:0:DAY load/s\njoin 0 p k0\njoin 0 p k1\njoin 0 p k2\njoin 0 p k3\njoin 0 p k4\njoin 0 p k5\njoin 0 p k6\njoin 0 p k7"
}

/// The line of the call of a number, by its word.
#[tactic(auto, unfolding(crate::specs::Lines::call_line))]
pub fn call_line(alloc: Global, number: u64, word: u64) -> Result<Text, Memory>
    requires { number < 300000 }
    ensures { IfOk result (λ line. line ≡ call_line_of number word) }
{
    let moment = 10 * number + (word / 256) % 10;
    let chance = word / 65_536;
    let key = word % 8;
    let line = format!(in alloc;
        "call {moment} {chance} GET%20/load/s%20HTTP/1.1%0D%0Ahost:%20localhost%0D%0Ax-api-key:%20load-key-{key}%0D%0A%0D%0A"
    )?;
    Ok(Text::of(line))
}
