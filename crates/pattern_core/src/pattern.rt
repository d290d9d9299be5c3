// A compiled pattern, and what searches for it.
ghost use Rattle.std.specs.Prelude.{◌≡◌, true, false, IfOk, IfErr};
ghost use Rattle.pattern_core.specs.Search.{is_pattern, matches};

use gw_base::Memory;
use regex::{Error, Matcher, Regex};
use std::alloc::Global;
use std::marker::Model;

/// A compiled pattern. A contract sees it as its source.
#[derive(Drop)]
pub struct Pattern {
    compiled: Regex,
}

impl Model for Pattern {
    ghost use Rattle.std.specs.Prelude.{◌≡◌, ℕ, List};
    ghost use Rattle.regex.specs.Strings.{regex_source, regex_config, IsReadFromSource};
    ghost use Rattle.regex.specs.Patterns.{default_config};

    ghost Value = { List ℕ };

    ghost view = { λ p. regex_source p.compiled };

    ghost invariant = { λ p. (regex_config p.compiled ≡ default_config) × IsReadFromSource p.compiled };
}

/// Why a source is not compiled.
#[derive(Clone, Copy, PartialEq, Eq, Debug, Drop)]
pub enum PatternFault {
    /// The source is no pattern of `regex`, or is nested deeper than 250 levels.
    BadPattern,
    /// Memory ran out, or the compiled form would pass the bound that `regex` sets on its memory.
    Memory,
}

impl Pattern {
    /// Compiles a pattern.
    pub fn build(alloc: Global, source: &str) -> Result<Pattern, PatternFault>
        ensures source { IfOk result (λ p. p ≡ source.now) }
        ensures read { IfOk result (λ p. is_pattern source.now ≡ true) }
        ensures bad { IfErr result (λ e. e ≡ PatternFault.BadPattern → is_pattern source.now ≡ false) }
    {
        match Regex::new(alloc, source) {
            Ok(compiled) => Ok(Pattern { compiled }),
            Err(Error::Syntax(_)) => Err(PatternFault::BadPattern),
            Err(_) => Err(PatternFault::Memory),
        }
    }

    /// Whether the pattern has a match somewhere in the text. For many texts, one [`Searcher`] is far cheaper.
    pub fn searches(&self, alloc: Global, text: &str) -> Result<bool, Memory>
        ensures { IfOk result (λ found. found ≡ matches self.now text.now) }
    {
        let mut searcher = self.searcher(alloc)?;
        Ok(searcher.searches(text))
    }

    /// What searches many texts, one after the other.
    pub fn searcher(&self, alloc: Global) -> Result<Searcher<'_>, Memory>
        ensures { IfOk result (λ searcher. searcher ≡ self.now) }
    {
        match self.compiled.matcher(alloc) {
            Ok(matcher) => Ok(Searcher {
                pattern: self,
                matcher,
            }),
            Err(_) => Err(Memory),
        }
    }
}

/// What searches many texts for one pattern: it keeps the memory that a search takes, and what earlier searches found out.
/// A contract sees it as the pattern's source.
#[derive(Drop)]
pub struct Searcher<'p> {
    pattern: &'p Pattern,
    matcher: Matcher<'p>,
}

impl<'p> Model for Searcher<'p> {
    ghost use Rattle.std.specs.Prelude.{ℕ, List};
    ghost use Rattle.regex.specs.Strings.{matcher_pattern};
    ghost use Rattle.pattern_core.specs.Search.{IsFoundBy};

    ghost Value = { List ℕ };

    ghost view = { λ s. s.pattern.now };

    ghost invariant = { λ s. IsFoundBy s.pattern.now (matcher_pattern s.matcher) };
}

impl<'p> Searcher<'p> {
    /// Whether the pattern has a match somewhere in the text.
    pub fn searches(&mut self, text: &str) -> bool
        ensures found { result ≡ matches self.old text.now }
        ensures same { self.new ≡ self.old }
    {
        self.matcher.is_match(text)
    }
}
