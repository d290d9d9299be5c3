// The arguments of macros.
ghost use Rattle.std.specs.Prelude.{◌≡◌, ◌<◌, IsTrue, length, Some, None, IfSome, MatchOption};
ghost use Rattle.vtl_grammar.specs.Expanded.{expr_with};
ghost use Rattle.vtl_reader.specs.Nodes.{expr_of};
ghost use Rattle.vtl_words.specs.Names.{place_of};
ghost use Rattle.vtl_eval.specs.Frames.{arguments_of, is_sound, placed_in};
ghost use Rattle.vtl_eval.specs.declared.frame.Frame.{size-Frame};

use vtl_reader::Arena;
use vtl_words::names::Names;

/// What a macro's body is evaluated in: the arguments of its call, or none at the top. Arguments are expressions of the
/// caller, and evaluated in the caller's frame at each use.
#[derive(Drop)]
pub enum Frame<'a> {
    /// Outside macros.
    Top,
    /// The macro's parameters, the arguments of its call, and the frame of the call.
    Call(&'a Names, &'a [usize], &'a Frame<'a>),
}

// The argument in the place of this parameter.
fn placed(params: &Names, ids: &[usize], name: &str) -> Option<usize>
    ensures { result ≡ placed_in ids.now (place_of params.now name.now) }
{
    let n = params.place(name.as_bytes())?;
    ids.get(n).copied()
}

/// The argument that stands for a name, and the frame that it is evaluated in.
pub fn argument<'a>(
    arena: &Arena,
    frame: &'a Frame<'a>,
    name: &str,
) -> Option<(usize, &'a Frame<'a>)>
    requires frame { IsTrue (is_sound (length arena.now.exprs) frame.now) }
    ensures found { MatchOption result (arguments_of arena.now.exprs frame.now name.now ≡ None) (λ p. arguments_of arena.now.exprs frame.now name.now ≡ Some (expr_with (arguments_of arena.now.exprs p.1.now) (expr_of arena.now.exprs p.0))) }
    ensures stands { IfSome result (λ p. p.0 < length arena.now.exprs) }
    ensures caller { IfSome result (λ p. IsTrue (is_sound (length arena.now.exprs) p.1.now)) }
    ensures smaller { IfSome result (λ p. size-Frame p.1.now < size-Frame frame.now) }
{
    match frame {
        Frame::Top => None,
        Frame::Call(params, ids, caller) => match placed(params, ids, name) {
            Some(k) => Some((k, *caller)),
            None => None,
        },
    }
}
