// The stack of an expression, by value: a digit of two bits for each operand, the latest lowest.
// The digits are 1 false, 2 true, 3 a list of SIDs; so 0 is no operand, and 62 bits hold 31. Only
// the latest operand has a place: a list that another operand covers is never asked again.
ghost use Rattle.std.specs.Prelude.{◌≡◌, ◌≤◌, ◌&&◌, ◌||◌, cond, List, ◌∷◌};
ghost use Rattle.conditions.specs.Condition.{Item, push, negated, paired, ended};
ghost use Rattle.conditions.specs.Scanning.{weighed};
ghost use Rattle.conditions.specs.Stack.{word_of, coded, item_of, truth_in, Steps};

use crate::fault::Fault;

// The operands, and where the latest stands if it is a list; else 0 and 0.
// kept: 0 and 0 and no Option: `coded` of specs says so, and the word tells what the latest is.
#[derive(Clone, Copy)]
pub(crate) struct Stack {
    pub word: u64,
    pub from: usize,
    pub to: usize,
}

// An operand: a truth, or a list of SIDs, from a place up to another.
#[derive(Clone, Copy)]
pub(crate) enum Operand {
    Truth(bool),
    Sids(usize, usize),
}

impl Operand {
    // The stack with this operand on the operands of a word.
    fn on(self, rest: u64) -> Stack
        requires { rest ≤ 0x3fffffffffffffff }
        ensures { (st : List Item) → rest ≡ word_of st → result ≡ coded (item_of self ∷ st) }
    {
        match self {
            Operand::Truth(b) => Stack {
                word: 4 * rest + 1 + u64::from(b),
                from: 0,
                to: 0,
            },
            Operand::Sids(from, to) => Stack {
                word: 4 * rest + 3,
                from,
                to,
            },
        }
    }
}

// The place after a token, and the operands then; or its fault.
pub(crate) type Step = Result<(usize, Stack), Fault>;

// One operand more; "a stack deeper than 32 is broken".
pub(crate) fn push(rest: u64, x: Operand, next: usize) -> Step
    ensures { Steps rest (push next (item_of x)) result }
{
    if 0x3fff_ffff_ffff_ffff < rest {
        return Err(Fault::Broken);
    }
    Ok((next, x.on(rest)))
}

// The truth that stands latest.
fn truth(word: u64) -> Result<bool, Fault>
    ensures { result ≡ truth_in word }
{
    match word % 4 {
        1 => Ok(false),
        2 => Ok(true),
        _ => Err(Fault::Broken),
    }
}

// Not: takes a truth.
pub(crate) fn negated(word: u64, next: usize) -> Step
    ensures { Steps word (negated next) result }
{
    let b = truth(word)?;
    push(word / 4, Operand::Truth(!b), next)
}

// And, or: take two truths.
pub(crate) fn paired(every: bool, word: u64, next: usize) -> Step
    ensures { Steps word (paired every next) result }
{
    let b = truth(word)?;
    let a = truth(word / 4)?;
    push(word / 16, Operand::Truth(joined(every, a, b)), next)
}

// Both of two truths, or either.
// kept: `every` is a truth, since the definition `paired` takes one; a closure would be longer.
fn joined(every: bool, a: bool, b: bool) -> bool
    ensures { result ≡ cond every (a && b) (a || b) }
{
    if every { a && b } else { a || b }
}

// "The end needs exactly one truth".
// kept: `truth` reads the lowest digit and this the whole word, since nothing may stand below it.
pub(crate) fn ended(word: u64) -> Result<bool, Fault>
    ensures { (st : List Item) → word ≡ word_of st → result ≡ weighed (ended st) }
{
    match word {
        1 => Ok(false),
        2 => Ok(true),
        _ => Err(Fault::Broken),
    }
}
