// What a command prints, and its status.
ghost use Rattle.std.specs.Prelude.{◌≡◌, IfOk};
ghost use Rattle.play_script.specs.Play.{too_long as too_long_of};

use gw_base::{Memory, Text};
use std::alloc::Global;

/// What a command prints, and its status.
#[derive(Drop)]
pub struct Shown {
    pub text: Text,
    pub status: u8,
}

/// What is printed of a file over its limit.
pub fn too_long(alloc: Global) -> Result<Shown, Memory>
    ensures output { IfOk result (λ shown. too_long_of ≡ record { text = shown.text; status = shown.status }) }
    ensures known { IfOk result (λ shown. shown.status ≡ 1) }
{
    Ok(Shown {
        text: Text::of(String::from_str(alloc, "refused TooLong\n")?),
        status: 1,
    })
}
