// Why a call refuses, and where: the refusals of 01 and 02, each with its number and a place.
#![tactic(auto)]

ghost use Rattle.std.specs.Prelude.{◌≡◌};
ghost use Rattle.refusals.specs.Numbers.{number_of, refusal_at};

// What is wrong with what a call is lent. 10 is withdrawn (02, R-5).
#[derive(Clone, Copy, PartialEq, Eq)]
pub enum Fault {
    // 1: "The order list is not eight bytes with each of 1 to 8 once."
    OrderList = 1,
    // 2: "The query ends before a count or inside a section (place: its length)."
    QueryEnds = 2,
    // 3: "A count is above its section's limit (place: that count)."
    CountAboveLimit = 3,
    // 4: "Bytes follow section 5 (place: the first of them)."
    TrailingBytes = 4,
    // 5: "A term byte is not below its own term's number."
    TermByte = 5,
    // 6: "A sign is neither 0 nor 1."
    Sign = 6,
    // 7: "A term number in sections 2 to 4 is 0 or above the term count."
    TermNumber = 7,
    // 8: "A field or boolean number is not 1 to 8."
    FieldNumber = 8,
    // 9: "The heap report's buffer has fewer than 53 bytes"
    ReportBuffer = 9,
    // 11: "A derivation was asked for and the query is satisfiable."
    NothingToDerive = 11,
    // 12: "The derivation has more than 16,000 lines or its buffer cannot hold it."
    DerivationBuffer = 12,
    // 13: "a report not well formed"
    HeapReport = 13,
    // 14: "buffer too short"
    TextBuffer = 14,
    // 15: "wrong length or count" of a precedence sheet
    SheetLength = 15,
    // 16: "a rule number not 1 to 8" in a precedence sheet
    SheetRule = 16,
    // 17: "text too long", "outside the grammar" or "naming an absent literal"
    FormulaText = 17,
    // 18: "too deep (the 33rd parenthesis open at once)"
    FormulaDepth = 18,
    // 19: "more than 64 conjunctions"
    Conjunctions = 19,
    // 20: "length not 2 plus 4 times the count, or count above 16,000"
    DerivationLength = 20,
    // 21: "more than five terms"
    BetweenTerms = 21,
    // 22: "a reachability link not 1 to 3, a term's link not 0 before 0 or 255, or not 1 to 3 before another byte"
    LinkByte = 22,
    // 23: "a pair list of wrong length or count, or with a term its query lacks"
    PairList = 23,
    // 24: "a limit passed or output buffer too short" where two queries are joined
    JoinRoom = 24,
    // 25: "the line does not begin with 9 or names no literal of either"
    ClashLine = 25,
    // 26: "a boolean count above 0 (that count's place), instead of 3"
    BooleanCount = 26,
    // 27: "no room for the term, the literals or the output"
    RewriteRoom = 27,
}

impl Fault {
    // Its number in the papers.
    pub fn number(self) -> usize
        ensures { result ≡ number_of self }
    {
        self as usize
    }

    // The refusal for it at a place.
    pub fn at(self, place: usize) -> Refusal
        ensures { result ≡ refusal_at self place }
    {
        Refusal { fault: self, place }
    }
}

// A refusal: what is wrong, and its place.
#[derive(Clone, Copy, PartialEq, Eq)]
pub struct Refusal {
    pub fault: Fault,
    pub place: usize,
}
