// What the references of a template stand for.
ghost use Rattle.std.specs.Prelude.{◌≡◌, List, IfOk, OnOk, OnErr, is_some, map};
ghost use Rattle.vtl_eval.specs.Views.{stepped_of};
ghost use Rattle.vtl_eval.specs.Roots.{Meanings, Kept, kept_after};

use gw_base::{Memory, Text};
use std::alloc::Global;
use vtl_values::Value;

/// The names below which the outside gives values: `$input`, `$context`, `$util` and `$stageVariables`.
#[derive(Clone, Copy, Debug, PartialEq, Eq)]
pub enum Root {
    Input,
    Context,
    Util,
    StageVariables,
}

/// A step of a reference: `.name`, `[index]` or `.name(arguments)`, with its values evaluated.
#[derive(Drop)]
pub enum Step {
    Name(Text),
    Index(Value),
    Call(Text, Vec<Value>),
}

/// The values below the four roots, and the places below `$context` to which a template may write.
pub trait Roots {
    /// The value of each path below a root, and under which path a write is kept, where it may be written.
    ghost meanings: { Self → Meanings };

    /// What was written, by path; a further write to a path takes the place of its first.
    ghost kept: { Self → Kept };

    /// The value of a path below a root.
    fn get(&self, alloc: Global, root: Root, path: &[Step]) -> Result<Value, Memory>
        ensures { IfOk result (λ v. v ≡ (meanings self.now).value root (map stepped_of path.now)) };

    /// Writes a value to a path below `$context`, and answers whether the path may be written.
    fn write(&mut self, alloc: Global, path: &[Text], value: &Value) -> Result<bool, Memory>
        ensures answer { IfOk result (λ b. b ≡ is_some ((meanings self.old).kept_at path.now)) }
        ensures meanings { meanings self.new ≡ meanings self.old }
        ensures ok { OnOk result (kept self.new ≡ kept_after ((meanings self.old).kept_at path.now) (kept self.old) value.now) }
        ensures err { OnErr result (kept self.new ≡ kept self.old) };
}
