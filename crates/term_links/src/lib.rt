// The links that section 1 of a query says.
#![tactic(auto)]

ghost use Rattle.std.specs.Prelude.{◌≡◌, ◌<◌, ℕ, MatchOption};
ghost use Rattle.logic.specs.Facts.{links_of};
ghost use Rattle.theory.proofs.Query.Tied.{Accepted};
ghost use Rattle.link_rows.specs.Cube.{cube};
ghost use Rattle.link_query.specs.Said.{said, Within};
ghost use Rattle.term_links.specs.Argument.{argument_by};

use link_rows::Link;
use query::Layout;
use rows::Term;

// "Term byte 255 now names nil" (02, R-3)
const NIL: usize = 255;

// The term that a term is f of, by its byte: none for a variable and for nil.
fn argument(byte: usize) -> Option<Term>
    ensures { MatchOption result (argument_by byte ≡ 0) (λ a. (0 < a.0) × (a.0 ≡ argument_by byte)) }
{
    if byte == 0 || byte == NIL {
        return None;
    }
    Some(Term(byte))
}

// f(a) = b by its link for each term b that is f of a term a.
pub fn links_of(query: &[u8], layout: Layout) -> [u32; 51]
    requires { Within layout query.now × Accepted (said layout query.now) }
    ensures { (k : ℕ) → cube result k ≡ ((links_of (said layout query.now)).graph k).link }
{
    let mut link = [0u32; 51];
    for b in 1..layout.terms + 1 {
        if let Some(a) = argument(link_query::entry(query, layout.links, Term(b))) {
            let k = link_query::entry_link(query, layout.links, Term(b));
            link_rows::add(&mut link, Link(k), a, Term(b));
        }
    }
    link
}
