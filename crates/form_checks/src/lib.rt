// The checks of a query in either form that calls take.
#![tactic(auto)]

ghost use Rattle.link_query.specs.Answers.{CheckedBy};
ghost use Rattle.call_limits.specs.Forms.{form_of};

use query::Layout;
use refusals::Refusal;

// The checks of a query's bytes: with three links, or in the form of 01.
pub fn checked(three: bool, query: &[u8]) -> Result<Layout, Refusal>
    ensures { CheckedBy (form_of three) result query.now }
{
    if three {
        return link_query::check_links(query);
    }
    query_checks::check(query)
}
