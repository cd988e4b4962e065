// The rewriting of old queries, for C.
ghost use Rattle.std.specs.Prelude.{length};
ghost use Rattle.rewriting.specs.Call.{rewrite_call};
ghost use Rattle.lemitsaka.specs.RewritePromise.{RewriteCodes};

// The rewriting call for C.
pub fn lemitsaka_rewrite(old: &[u8], query: &mut [u8]) -> u64
    ensures { RewriteCodes (rewrite_call old.now (length query.old)) result query.new }
{
    answer_codes::rewrite_number(rewriter::rewrite(old, query))
}
