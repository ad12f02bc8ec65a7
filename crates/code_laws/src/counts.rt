//! How much code queues and draws at most.

ghost use Rattle.std.specs.Prelude.{◌≡◌, ◌+◌, ◌*◌, ◌^◌, ◌<◌, min, max};
ghost use Rattle.code_laws.specs.Counts.{events_of, words_of};
ghost use Rattle.code_laws.specs.Limit.{limited};

use game_code::Statement;

/// The greatest count that is told apart.
pub const MOST_COUNTED: u32 = 1_000_000;

/// How many events a statement queues at most, or `MOST_COUNTED` where that are more.
pub fn events_of(statement: &Statement) -> u32
    ensures { result ≡ limited (events_of statement.now) }
{
    match statement {
        Statement::Then(first, second) => plus(events_of(first), events_of(second)),
        Statement::Let(_, body) => events_of(body),
        Statement::Roll(_, body) => events_of(body),
        Statement::If(_, one, other) => greater(events_of(one), events_of(other)),
        Statement::For(most, _, _, body) => times(*most, events_of(body)),
        Statement::Queue(_) => 1,
        _ => 0,
    }
}

/// How many random words a statement draws at most, or `MOST_COUNTED` where that are more.
pub fn words_of(statement: &Statement) -> u32
    ensures { result ≡ limited (words_of statement.now) }
{
    match statement {
        Statement::Then(first, second) => plus(words_of(first), words_of(second)),
        Statement::Let(_, body) => words_of(body),
        Statement::Roll(_, body) => plus(1, words_of(body)),
        Statement::If(_, one, other) => greater(words_of(one), words_of(other)),
        Statement::For(most, _, _, body) => times(*most, words_of(body)),
        Statement::Shuffle(_, _, most) => u32::from(*most).saturating_sub(1),
        _ => 0,
    }
}

/// A count, as far as it is told apart.
fn limit(count: u64) -> u32
    ensures { result ≡ limited count }
{
    if count < 1_000_000 {
        count as u32
    } else {
        MOST_COUNTED
    }
}

fn plus(one: u32, other: u32) -> u32
    ensures { result ≡ limited (one + other) }
{
    limit(u64::from(one) + u64::from(other))
}

fn times(one: u32, other: u32) -> u32
    ensures { result ≡ limited (one * other) }
{
    limit(u64::from(one) * u64::from(other))
}

fn greater(one: u32, other: u32) -> u32
    ensures { result ≡ max one other }
{
    if one < other { other } else { one }
}
