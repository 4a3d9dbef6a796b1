ghost use Rattle.std.specs.Prelude.{◌≡◌};
ghost use Rattle.spec_script.specs.Ranges.{within, is_at_most, are_parts_of_16, is_node_in_range, is_in_range};

use spec_script::{NodeLine, ScriptLine};

/// The greatest id of a task, an object or a callback routine.
const MAX_ID: u64 = 16;

/// The greatest id of a cyclic handler.
const MAX_CYCLIC: u64 = 8;

/// The greatest period and the greatest phase of a cyclic handler, in ticks.
const MAX_PERIOD: u64 = 1000000;

/// The least urgent priority of a task.
const MAX_PRIORITY: u64 = 16;

/// The greatest maximum of a semaphore.
const MAX_COUNT: u64 = 65535;

/// The greatest capacity of a data queue.
const MAX_CAPACITY: u64 = 1024;

/// The greatest number of ticks of a script.
const MAX_TICKS: u64 = 400000;

/// The greatest position at which a line of sequence positions begins.
const MAX_TOP: u64 = 2000000000;

/// A link's fates are told in parts of so many packets.
const PARTS: u64 = 16;

/// The greatest delay of a link, in ticks.
const MAX_DELAY: u64 = 1000;

/// The greatest number of 32 bits.
const MAX_U32: u64 = 4294967295;

/// Whether the number is there and from low to high.
pub fn is_within(low: u64, number: Option<u64>, high: u64) -> bool
    ensures { result ≡ within low number high }
{
    match number {
        Some(number) => low <= number && number <= high,
        None => false,
    }
}

fn is_at_most(number: Option<u64>, other: Option<u64>) -> bool
    ensures { result ≡ is_at_most number other }
{
    match (number, other) {
        (Some(number), Some(other)) => number <= other,
        (None, _) | (_, None) => false,
    }
}

/// Whether the link loses so many of 16 packets, and brings so many others twice.
fn are_parts(lose: Option<u64>, twice: Option<u64>) -> bool
    ensures { result ≡ are_parts_of_16 lose twice }
{
    match (lose, twice) {
        (Some(lose), Some(twice)) => lose <= PARTS && twice <= PARTS - lose,
        (None, _) | (_, None) => false,
    }
}

fn is_node_in_range(node: NodeLine) -> bool
    ensures { result ≡ is_node_in_range node }
{
    let addr = node.addr.map(u64::from);
    is_within(1, addr, MAX_U32)
        && is_within(0, node.isn0, MAX_U32)
        && is_within(0, node.top0, MAX_TOP)
}

/// Whether each number of the line is in its range.
pub fn is_in_range(line: &ScriptLine) -> bool
    ensures { result ≡ is_in_range line.now }
{
    match line {
        ScriptLine::Link {
            key,
            lose,
            twice,
            delay,
        } => {
            is_within(0, *key, u64::MAX)
                && are_parts(*lose, *twice)
                && is_within(0, *delay, MAX_DELAY)
        }
        ScriptLine::Ticks { ticks } => is_within(0, *ticks, MAX_TICKS),
        ScriptLine::FirstNode(node) | ScriptLine::SecondNode(node) => is_node_in_range(*node),
        ScriptLine::Sem { id, init, max, .. } => {
            is_within(1, *id, MAX_ID) && is_at_most(*init, *max) && is_within(1, *max, MAX_COUNT)
        }
        ScriptLine::Flg { id, init, .. } => {
            is_within(1, *id, MAX_ID) && is_within(0, *init, MAX_U32)
        }
        ScriptLine::Dtq { id, cap, .. } => {
            is_within(1, *id, MAX_ID) && is_within(0, *cap, MAX_CAPACITY)
        }
        ScriptLine::Task { id, pri, .. } => {
            is_within(1, *id, MAX_ID) && is_within(1, *pri, MAX_PRIORITY)
        }
        ScriptLine::Cyc {
            id,
            period,
            phase,
            ..
        } => {
            is_within(1, *id, MAX_CYCLIC)
                && is_within(1, *period, MAX_PERIOD)
                && is_within(0, *phase, MAX_PERIOD)
        }
        ScriptLine::Cbr { id } => is_within(1, *id, MAX_ID),
        ScriptLine::Body { fits, .. } => *fits,
        ScriptLine::Itron | ScriptLine::End => true,
    }
}
