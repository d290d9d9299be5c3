// The names of the tables.
use std::fmt;

/// A table of the store.
#[derive(Clone, Copy, Debug, PartialEq, Eq)]
pub enum Table {
    /// One row: the version of the store.
    Meta,
    /// The APIs, each with its definition as it stands.
    Apis,
    /// The deployments of APIs.
    Deployments,
    /// The stages of APIs.
    Stages,
    /// The API keys.
    Keys,
    /// The usage plans.
    Plans,
    /// The keys that joined plans, each with its use so far.
    Joins,
}

impl fmt::Display for Table {
    ghost use Rattle.std.specs.Prelude.{Some};
    ghost use Rattle.keeper_core.specs.Printed.{table_name};

    ghost output = { λ table. Some (table_name table) };

    fn fmt<W: fmt::Write>(&self, f: &mut fmt::Formatter<W>) -> fmt::Result {
        f.write_str(match self {
            Table::Meta => "meta",
            Table::Apis => "apis",
            Table::Deployments => "deployments",
            Table::Stages => "stages",
            Table::Keys => "keys",
            Table::Plans => "plans",
            Table::Joins => "joins",
        })
    }
}
