// What holds of the outcome of the program.
ghost use Rattle.gateway_cli.specs.Commands.{HasOneOutcome, FrontsAreOfTheOutcome};

use gate_walk::laws::a_connection_comes_to_one_thing;

/// What the words ask for, the input and the files come to one outcome.
pub fn there_is_one_outcome()
    ensures { HasOneOutcome }
{
    // Each line that is a connection comes to one thing.
    a_connection_comes_to_one_thing();
}

/// What is written where the program is cut short is a front of the outcome.
pub fn a_front_is_of_the_outcome()
    ensures { FrontsAreOfTheOutcome }
{
    a_connection_comes_to_one_thing();
}
