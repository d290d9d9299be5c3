//! Laws of the definitions: each function's contract is a law, and its body is empty.
ghost use Rattle.json_subset.specs.Laws.{OneTree, ReadIsSpelled, SpelledIsRead, TextIsNoSyntaxFault, CompactSpellsTheSame, SyntaxIsLeast, OneSyntaxPlace, SyntaxIsAnswered, PartSpellsItself};

/// Bytes spell at most one tree.
pub fn one_tree()
    ensures { OneTree }
{}

/// What the reading function reads is spelled by the grammar.
pub fn what_is_read_is_spelled()
    ensures { ReadIsSpelled }
{}

/// What the grammar spells, the reading function reads.
pub fn what_is_spelled_is_read()
    ensures { SpelledIsRead }
{}

/// What is of the grammar, whatever its depth and its names, is never a syntax fault.
pub fn a_text_is_no_syntax_fault()
    ensures { TextIsNoSyntaxFault }
{}

/// The compact text of a document spells the same tree but for places.
pub fn the_compact_text_spells_the_same_tree()
    ensures { CompactSpellsTheSame }
{}

/// A syntax fault is at the least place such that no document begins with the bytes up to and including it.
pub fn a_syntax_fault_is_at_the_least_dead_place()
    ensures { SyntaxIsLeast }
{}

/// Bytes have at most one such place.
pub fn one_syntax_place()
    ensures { OneSyntaxPlace }
{}

/// Where there is such a place, the reading function answers it, or a limit that is met before it.
pub fn a_syntax_place_is_answered()
    ensures { SyntaxIsAnswered }
{}

/// The bytes of a part of a document spell that part but for places.
pub fn a_part_spells_itself()
    ensures { PartSpellsItself }
{}
