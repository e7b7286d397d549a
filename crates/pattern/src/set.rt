// The members of a set.
ghost use Rattle.std.specs.Prelude.{false, drop};
ghost use Rattle.pattern.specs.Reading.{escaped, member, range};
ghost use Rattle.pattern.specs.Answers.{GivesMember, GivesRange, ReadsMembers};

use crate::character::{BACKSLASH, CLOSE_SET, HYPHEN, is_at};

// The character after a backslash, and the offset after it.
#[tactic(auto, using(crate::proofs::Sets::escaped_end, crate::proofs::Sets::escaped_one))]
pub(crate) fn read_escaped(s: &[u32], at: usize) -> Option<(usize, u32)>
    ensures { GivesMember s.now result (escaped (drop at s.now)) }
{
    if s.len() <= at {
        return None;
    }
    Some((at + 1, s[at]))
}

#[tactic(auto, using(crate::proofs::Sets::member_end, crate::proofs::Sets::member_escaped, crate::proofs::Sets::member_special, crate::proofs::Sets::member_plain))]
pub(crate) fn read_member(s: &[u32], at: usize) -> Option<(usize, u32)>
    ensures { GivesMember s.now result (member (drop at s.now)) }
{
    if s.len() <= at {
        return None;
    }
    match s[at] {
        BACKSLASH => read_escaped(s, at + 1),
        HYPHEN | CLOSE_SET => None,
        x => Some((at + 1, x)),
    }
}

// A character or a range: the offset after it, and its ends.
#[tactic(auto, using(crate::proofs::Sets::range_none, crate::proofs::Sets::range_one, crate::proofs::Sets::range_open, crate::proofs::Sets::range_reversed, crate::proofs::Sets::range_both))]
pub(crate) fn read_range(s: &[u32], at: usize) -> Option<(usize, u32, u32)>
    ensures { GivesRange s.now result (range (drop at s.now)) }
{
    let (middle, low) = read_member(s, at)?;
    if !is_at(s, middle, HYPHEN) {
        return Some((middle, low, low));
    }
    let (end, high) = read_member(s, middle + 1)?;
    if high < low {
        return None;
    }
    Some((end, low, high))
}

// The members of a set up to its `]`: the offset after it, and whether the character c is in them.
#[tactic(auto, using(crate::proofs::Sets::members_bad, crate::proofs::Sets::members_close, crate::proofs::Sets::members_more, crate::proofs::Sets::range_further))]
pub(crate) fn read_members(s: &[u32], at: usize, c: u32) -> Option<(usize, bool)>
    ensures { ReadsMembers s.now at c false result }
{
    let mut i = at;
    let mut hit = false;
    loop {
        let (end, low, high) = read_range(s, i)?;
        hit |= (low <= c) & (c <= high);
        if is_at(s, end, CLOSE_SET) {
            return Some((end + 1, hit));
        }
        i = end;
    }
}
