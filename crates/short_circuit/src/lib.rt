// AND before OR, from left to right, with the rest of a chain skipped once it is decided.
#![tactic(auto)]

ghost use Rattle.std.specs.Prelude.{◌≡◌};
ghost use Rattle.query_text.specs.Tree.{live, total, step};
ghost use Rattle.short_circuit.specs.Walk.{state_of, initial};

use query_text::join::Join;
use terminal::operator::BoolOp;

// What the closed and the open chains have come to so far, outermost first.
#[derive(Clone, Copy)]
pub struct Chains {
    pub ors: bool,
    pub ands: bool,
    pub group_ors: bool,
    pub group_ands: bool,
}

// What a comparison or a query comes to, and its steps.
#[derive(Drop)]
pub struct Told {
    pub holds: bool,
    pub steps: usize,
}

// Before the first comparison.
pub fn start() -> Chains
    ensures { state_of result ≡ initial }
{
    Chains {
        ors: false,
        ands: true,
        group_ors: false,
        group_ands: true,
    }
}

// Whether the next comparison is judged: nothing before it has decided its chains.
pub fn is_live(c: Chains) -> bool
    ensures { result ≡ live (state_of c) }
{
    (!c.ors & c.ands) & (!c.group_ors & c.group_ands)
}

// What a query comes to whose last comparison comes to `holds`.
#[tactic(auto, unfolding(query_text::specs::Tree::total))]
pub fn finish(c: Chains, holds: bool) -> bool
    ensures { result ≡ total (state_of c) holds }
{
    c.ors | (c.ands & (c.group_ors | (c.group_ands & holds)))
}

// After a comparison that comes to `holds` and what follows it.
#[tactic(auto, unfolding(query_text::specs::Tree::step))]
pub fn advance(c: Chains, j: Join, holds: bool) -> Chains
    ensures { state_of result ≡ step j (state_of c) holds }
{
    match j {
        Join::Last => c,
        Join::Inner(BoolOp::And) => Chains {
            group_ands: c.group_ands & holds,
            ..c
        },
        Join::Inner(BoolOp::Or) => Chains {
            group_ors: c.group_ors | (c.group_ands & holds),
            group_ands: true,
            ..c
        },
        Join::Outer(BoolOp::And) => Chains {
            ors: c.ors,
            ands: c.ands & (c.group_ors | (c.group_ands & holds)),
            ..start()
        },
        Join::Outer(BoolOp::Or) => Chains {
            ors: finish(c, holds),
            ..start()
        },
    }
}
