// What holds of the grammar and of reading.
ghost use Rattle.vtl_grammar.specs.Laws.{ReadsOnlyTemplates, ReadsEachTemplate, HasOneTree};

/// What is read is a template of its tree.
pub fn what_is_read_is_a_template()
    ensures { ReadsOnlyTemplates }
{}

/// Each template is read, with just its tree.
pub fn each_template_is_read()
    ensures { ReadsEachTemplate }
{}

/// A text is a template of one tree at most.
pub fn a_template_has_one_tree()
    ensures { HasOneTree }
{}
