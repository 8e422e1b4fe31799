//! The least of some logs.

ghost use Rattle.std.specs.Prelude.{[], ◌≡◌, cond, MatchOption};
ghost use Rattle.grammar.specs.Order as spec;
ghost use Rattle.grammar.specs.Runs.{IsLeast};
ghost use Rattle.grammar.specs.Threads.{logs};

use crate::machine::{Event, Thread};

fn is_same(x: Event, y: Event) -> bool
    ensures { result ≡ spec.is_same x y }
{
    x.at == y.at && x.action == y.action
}

fn is_before(x: Event, y: Event) -> bool
    ensures { result ≡ spec.is_before x y }
{
    x.at < y.at || (x.at == y.at && x.action < y.action)
}

/// Whether the log comes first, or is the other.
fn is_up_to(log: &[Event], other: &[Event]) -> bool
    ensures { result ≡ spec.is_up_to log.now other.now }
{
    for (at, event) in log.iter().enumerate() {
        if at >= other.len() {
            return false;
        }
        if !is_same(*event, other[at]) {
            return is_before(*event, other[at]);
        }
    }
    true
}

fn lesser<'a>(log: &'a [Event], other: &'a [Event]) -> &'a [Event]
    ensures { result.now ≡ cond (spec.is_up_to log.now other.now) log.now other.now }
{
    if is_up_to(log, other) { log } else { other }
}

/// The least log of the threads.
pub(crate) fn least(threads: &[Thread]) -> Option<&[Event]>
    ensures { MatchOption result (threads.now ≡ []) (λ log. IsLeast log.now (logs threads.now)) }
{
    let mut least = threads.first()?.log.as_slice();
    for thread in threads {
        least = lesser(least, thread.log.as_slice());
    }
    Some(least)
}
