// The answers of a pattern over the statuses.
ghost use Rattle.std.specs.Prelude.{◌≡◌, ◌<◌, ◌≤◌, false, true, IfErr, IfOk, OnOk};
ghost use Rattle.pattern_core.specs.Search.{anchored as anchored_of};
ghost use Rattle.status_table.specs.Statuses.{AreAnswers, is_whole_pattern, takes};

use gw_base::{Memory, Text};
use pattern_core::{Pattern, PatternFault, Searcher};
use std::alloc::Global;
use std::marker::Model;

/// The answers of a pattern over the statuses 100 to 999. A contract sees it as the pattern's text.
#[derive(Drop)]
pub struct StatusTable {
    pattern: Text,
    answers: Vec<bool>,
}

impl Model for StatusTable {
    ghost use Rattle.std.specs.Prelude.{ℕ, List};
    ghost use Rattle.status_table.specs.Statuses.{AreAnswers};

    ghost Value = { List ℕ };

    ghost view = { λ t. t.pattern };

    ghost invariant = { λ t. AreAnswers t.pattern 900 t.answers.items };
}

fn copied(alloc: Global, text: &str) -> Result<Text, Memory>
    ensures { IfOk result (λ copy. copy ≡ text.now) }
{
    Ok(Text::of(String::from_str(alloc, text)?))
}

/// The pattern `^(?:P)$` of a pattern `P`: it has a match just where `P` matches the whole text.
pub fn anchored(alloc: Global, pattern: &str) -> Result<Pattern, PatternFault>
    ensures whole { IfOk result (λ p. p ≡ anchored_of pattern.now) }
    ensures read { OnOk result (is_whole_pattern pattern.now ≡ true) }
    ensures bad { IfErr result (λ e. e ≡ PatternFault.BadPattern → is_whole_pattern pattern.now ≡ false) }
{
    let _alone = Pattern::build(alloc, pattern)?;
    let Ok(text) = format!(in alloc; "^(?:{pattern})$") else {
        return Err(PatternFault::Memory);
    };
    Pattern::build(alloc, text.as_str())
}

// Whether a pattern that is anchored takes the status.
#[tactic(auto, unfolding(crate::specs::Statuses::takes))]
fn takes_status(
    alloc: Global,
    pattern: &str,
    anchored: &mut Searcher<'_>,
    status: u16,
) -> Result<bool, Memory>
    requires { anchored.old ≡ anchored_of pattern.now }
    ensures taken { IfOk result (λ b. b ≡ takes pattern.now status) }
    ensures same { anchored.new ≡ anchored.old }
{
    let Ok(text) = format!(in alloc; "{status}") else {
        return Err(Memory);
    };
    Ok(anchored.searches(text.as_str()))
}

// The answers for the statuses 100 to 999, by one searcher for all.
fn answers(alloc: Global, pattern: &str, anchored: &Pattern) -> Result<Vec<bool>, Memory>
    requires { anchored.now ≡ anchored_of pattern.now }
    ensures { IfOk result (λ v. AreAnswers pattern.now 900 v.items) }
{
    let mut searcher = anchored.searcher(alloc)?;
    let mut answers = Vec::with_capacity(alloc, 900)?;
    for n in 0..900 {
        answers.push(takes_status(alloc, pattern, &mut searcher, 100 + n)?)?;
    }
    Ok(answers)
}

impl StatusTable {
    /// Compiles a pattern, and tries it at each status from 100 to 999.
    ///
    /// # Errors
    ///
    /// - [`PatternFault::BadPattern`] where the pattern `P`, or `^(?:P)$`, is no pattern of `regex`.
    /// - [`PatternFault::Memory`] where memory is wanting, or the compiled form would pass the bound of `regex`.
    pub fn build(alloc: Global, pattern: &str) -> Result<StatusTable, PatternFault>
        ensures pattern { IfOk result (λ table. table ≡ pattern.now) }
        ensures read { OnOk result (is_whole_pattern pattern.now ≡ true) }
        ensures bad { IfErr result (λ e. e ≡ PatternFault.BadPattern → is_whole_pattern pattern.now ≡ false) }
    {
        let whole = anchored(alloc, pattern)?;
        let Ok(answers) = answers(alloc, pattern, &whole) else {
            return Err(PatternFault::Memory);
        };
        match copied(alloc, pattern) {
            Ok(pattern) => Ok(StatusTable { pattern, answers }),
            Err(_) => Err(PatternFault::Memory),
        }
    }

    /// Whether the pattern matches the whole text of the status. It takes no memory.
    pub fn holds(&self, status: u16) -> bool
        requires { (100 ≤ status) × (status < 1000) }
        ensures { result ≡ takes self.now status }
    {
        self.answers[(status - 100) as usize]
    }
}
