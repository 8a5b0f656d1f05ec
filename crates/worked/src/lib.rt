// Worked boards: some proved of the rules, some compared by tests.
#![tactic(auto)]

ghost use Rattle.worked.specs.Worked.{Worked};

// Does nothing: it promises a theorem, that the worked boards hold of the rules.
pub fn worked_boards()
    ensures { Worked }
{}

#[cfg(test)]
mod board_tests;
#[cfg(test)]
mod script_tests;
