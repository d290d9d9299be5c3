// The steps of a path.
ghost use Rattle.std.specs.Prelude.{◌≡◌};
ghost use Rattle.std.specs.List.{list_any};
ghost use Rattle.jsonpath_core.specs.Steps.{is_star as is_star_of};
ghost use Rattle.jsonpath_core.specs.Views.{step_view};

use gw_base::Text;

/// One step of a path.
#[derive(Drop)]
pub enum Step {
    /// To the member of this name.
    Name(Text),
    /// To the item at this place, counted from 0.
    Index(u32),
    /// To an item past those of every list: the digits of its place, which is 2^32 or more.
    Past(Text),
    /// To each item of a list, or the value of each member of an object.
    Star,
}

/// Whether it is the star.
fn is_star(step: &Step) -> bool
    ensures { result ≡ is_star_of (step_view step.now) }
{
    matches!(step, Step::Star)
}

/// Whether a star stands among the steps.
pub fn starred(steps: &[Step]) -> bool
    ensures { result ≡ list_any (λ step. is_star_of (step_view step)) steps.now }
{
    steps.iter().any(|step| is_star(step))
}
