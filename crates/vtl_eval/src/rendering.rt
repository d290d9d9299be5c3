// A template over roots.
ghost use Rattle.std.specs.Prelude.{◌≡◌, ◌≢◌, ◌≤◌, ℕ, Ok, Err, IfOk, IfErr};
ghost use Rattle.vtl_grammar.specs.Templates.{tree_of};
ghost use Rattle.vtl_grammar.specs.Expanded.{expanded};
ghost use Rattle.vtl_eval.specs.Cuts.{kept_in};
ghost use Rattle.vtl_eval.specs.Meaning.{rendering, stop_of};
ghost use Rattle.vtl_eval.specs.Views.{scene_of};

use crate::frame::Frame;
use crate::idle::{MOST_INSIDE, idle_rows};
use crate::items::run_items;
use crate::roots::Roots;
use crate::run::{Run, begin_run};
use crate::stop::{Fail, Limit, Rendered, Stop};
use gw_base::{Memory, Text};
use std::alloc::Global;
use vtl_reader::Template;

fn stop_at(limit: Limit) -> Stop
    ensures { result ≡ stop_of limit }
{
    match limit {
        Limit::Steps => Stop::Steps,
        Limit::Bytes => Stop::Bytes,
        Limit::Depth => Stop::Depth,
    }
}

/// Renders a template over roots, within a budget of steps.
///
/// # Errors
///
/// [`Stop::Steps`], [`Stop::Bytes`] or [`Stop::Depth`], whichever limit is met first in order of evaluation; what was
/// written below `$context` before stays. [`Stop::Memory`] where there is no memory; what was written before stays too,
/// as if the budget had ended there.
#[tactic(auto, unfolding(crate::specs::Meaning::rendering))]
pub fn render<R: Roots>(
    alloc: Global,
    template: &Template,
    roots: &mut R,
    budget: u64,
) -> Result<Rendered, Stop>
    // The text, its cost, and what is written, as the tree without macros is run; or the limit that is met first, and
    // what is written before.
    ensures made { IfOk result (λ r. rendering budget (R.meanings roots.old) (expanded (tree_of template.now)) (R.kept roots.old) ≡ Ok (r, R.kept roots.new)) }
    ensures stop { IfErr result (λ e. e ≢ Stop.Memory → rendering budget (R.meanings roots.old) (expanded (tree_of template.now)) (R.kept roots.old) ≡ Err (e, R.kept roots.new)) }

    // Where memory ran out, what is written is what the same render leaves within some smaller budget.
    ensures lacking { IfErr result (λ e. e ≡ Stop.Memory → (n : ℕ) × (n ≤ budget) × (kept_in (rendering n (R.meanings roots.old) (expanded (tree_of template.now)) (R.kept roots.old)) ≡ R.kept roots.new)) }

    // The roots mean what they meant.
    ensures meanings { R.meanings roots.new ≡ R.meanings roots.old }
{
    let (arena, macros, items) = template.parts_with_macros();
    let idle = match idle_rows(alloc, arena, macros) {
        Ok(rows) => rows,
        Err(Memory) => return Err(Stop::Memory),
    };
    let frame = Frame::Top;
    let mut run = begin_run(alloc);
    match run_items(
        alloc,
        roots,
        arena,
        macros,
        &idle,
        &frame,
        MOST_INSIDE,
        budget,
        &mut run,
        items,
        arena.item_count(),
    ) {
        Ok(_) => Ok(finish(run)),
        Err(Fail::Memory) => Err(Stop::Memory),
        Err(Fail::Met(limit)) => Err(stop_at(limit)),
    }
}

// The text and its cost.
fn finish(run: Run) -> Rendered
    ensures { result ≡ record { text = (scene_of run).text; steps = (scene_of run).nodes } }
{
    let Run {
        text,
        names: _,
        turn: _,
        nodes,
        made: _,
        literals: _,
    } = run;
    Rendered {
        text: Text::of(text),
        steps: nodes,
    }
}
