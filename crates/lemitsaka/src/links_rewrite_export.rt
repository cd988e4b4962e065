// The rewriting of queries with link 1, for C.
ghost use Rattle.std.specs.Prelude.{length};
ghost use Rattle.link_rewriting.specs.Call.{links_rewrite_call};
ghost use Rattle.lemitsaka.specs.RewritePromise.{RewriteCodes};

// The call for C.
pub fn lemitsaka_links_rewrite(old: &[u8], query: &mut [u8]) -> u64
    ensures { RewriteCodes (links_rewrite_call old.now (length query.old)) result query.new }
{
    answer_codes::rewrite_number(link_rewriter::rewrite(old, query))
}
