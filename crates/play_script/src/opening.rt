// How a script opens.
ghost use Rattle.std.specs.Prelude.{◌≡◌, ◌⊎◌, ◌+◌, ◌-◌, ◌≤◌, ◌<◌, ◌^◌, ◌∷◌, length, Some, IfOk, IfSome};
ghost use Rattle.script_records.specs.Coding.{lines_of, lines_left};
ghost use Rattle.script_records.specs.Records.{fails_in as fails_in_line};
ghost use Rattle.play_script.specs.Play.{opening_by, opening_of};

use gw_base::Memory;
use script_records::{fails_in, first_line, is_passed_over};
use std::alloc::Global;

/// The keeper's calls that fail, and the lines behind what tells them, the first of which has this number.
#[derive(Drop)]
pub struct Opening<'a> {
    pub fails: Vec<u32>,
    pub number: u64,
    pub lines: Option<&'a [u8]>,
}

/// Reads a script's `keepfails`, where its first record is one.
pub fn open<'a>(alloc: Global, script: &'a [u8]) -> Result<Opening<'a>, Memory>
    requires { length script.now < 2 ^ 63 }
    ensures opening { IfOk result (λ o. opening_of script.now ≡ record { number = o.number; fails = o.fails.items; lines = lines_left o.lines }) }
    ensures count { IfOk result (λ o. IfSome o.lines (λ rest. o.number + length rest.now ≤ length script.now + 1)) }
{
    let mut rest = script;
    let mut number: u64 = 1;
    'lines: loop {
        let (line, more) = first_line(rest);
        if !is_passed_over(line) {
            return open_at(alloc, number, rest, line, more);
        }
        let Some(next) = more else {
            return Ok(Opening {
                fails: Vec::new(alloc),
                number: number + 1,
                lines: None,
            });
        };
        rest = next;
        number += 1;
    }
}

// Where the first record stands at the front of what is left.
fn open_at<'a>(
    alloc: Global,
    number: u64,
    rest: &'a [u8],
    line: &[u8],
    more: Option<&'a [u8]>,
) -> Result<Opening<'a>, Memory>
    requires number { number < 2 ^ 64 - 1 }
    requires first { lines_of rest.now ≡ line.now ∷ lines_left more }
    ensures opening { IfOk result (λ o. opening_by number line.now (lines_left more.entry) (fails_in_line line.now) ≡ record { number = o.number; fails = o.fails.items; lines = lines_left o.lines }) }
    ensures place { IfOk result (λ o. ((o.number ≡ number + 1) × (o.lines ≡ more.entry)) ⊎ ((o.number ≡ number) × (o.lines ≡ Some rest.entry))) }
{
    match fails_in(alloc, line)? {
        Some(fails) => Ok(Opening {
            fails,
            number: number + 1,
            lines: more,
        }),
        None => Ok(Opening {
            fails: Vec::new(alloc),
            number,
            lines: Some(rest),
        }),
    }
}
