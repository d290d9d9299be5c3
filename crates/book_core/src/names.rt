// What a variable may be.
ghost use Rattle.std.specs.Prelude.{◌≡◌};
ghost use Rattle.book_rules.specs.Names.{are_variables as are_variables_of, is_variable as is_variable_of};

use call_facts::Vars;
use gw_base::{Text, is_name};

/// The most bytes of a variable's value.
const VALUE_LIMIT: usize = 2048;

#[tactic(auto, unfolding(book_rules::specs::Names::is_variable))]
fn is_variable(name: &Text, value: &Text) -> bool
    ensures { result ≡ is_variable_of (record { 0 = name.now; 1 = value.now }) }
{
    let text = value.as_str();
    is_name(name.as_str()) && text.len() <= VALUE_LIMIT
}

/// Whether each variable has a name, and a value of at most 2,048 bytes.
pub fn are_variables(variables: &Vars) -> bool
    ensures { result ≡ are_variables_of variables.now.pairs }
{
    variables
        .pairs
        .as_slice()
        .iter()
        .all(|pair| is_variable(&pair.0, &pair.1))
}
