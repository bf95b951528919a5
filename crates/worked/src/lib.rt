#![tactic(auto)]

ghost use Rattle.worked.specs.Examples.{Worked};
ghost use Rattle.worked.specs.Stories.{Told};

// The numbers and the bytes of the rules, in cases that were worked out by hand.
pub fn worked_facts()
    ensures { Worked }
{}

// Whole runs, with the answers that were worked out by hand.
pub fn stories()
    ensures { Told }
{}
