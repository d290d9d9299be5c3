//! Good tables stay good: no command and no call writes a row that a later start refuses.
//!
//! A book starts from tables without a bad row (`bad_row` of `book_rules`). Each row has its form, what a row names is there, keys have
//! different values, deployments are numbered from 1 without gaps, and no key has two plans for one stage.
//!
//! | An event that writes | keeps |
//! |---|---|
//! | a definition | that it is stated, by a document or a text; that is what the law asks of a history |
//! | a deployment | the numbers of its API without a gap |
//! | a stage, a canary, a promotion | deployments that stand, and variables that are read back from their column |
//! | a key | a value that no other key has |
//! | a plan | stages that stand and are read back from their column, levels that are full at most, and one plan a stage for each key |
//! | a join, an admission, a grant | its plan and its key, a level that is full at most, and a period that has begun and is not overused |
//!
//! What is promised, as a law over every history from good tables whose rows are in the order of their keys:
//! [`laws::good_tables_stay_good`]. It would fail for a command that writes a bad row.
//!
//! Left out: that a book's own events put stated definitions only, which the type of a definition says and no contract of a book repeats.
#![tactic(auto)]

pub mod laws;
