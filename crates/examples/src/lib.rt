// Worked examples of the definitions.
#![tactic(auto)]

ghost use Rattle.examples.specs.Examples.{WorkedExamples};

/// Turns of a small mesh, routes on it, openings under load, a short run, best routes, and plans, computed from the
/// definitions.
///
/// It computes nothing when it runs: its contract is the statement.
pub fn worked_examples()
    ensures { WorkedExamples }
{}
