ghost use Rattle.run_headline.specs.Law.{LinkedProgramsKeepTheClaims};

use p4_parser_states::laws::reaches_is_exact;

/// A linker's programs keep all that the headline claims of them.
pub fn linked_programs_keep_the_claims()
    ensures { LinkedProgramsKeepTheClaims }
{
    reaches_is_exact();
}
