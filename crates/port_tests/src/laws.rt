//! What holds of tests of ports. The function does nothing: it is there for its clause.

ghost use Rattle.port_tests.specs.Laws.{TestsAreLow};

/// The test of 512 ports is no higher than 11.
pub fn tests_are_low()
    ensures { TestsAreLow }
{}
