ghost use Rattle.std.specs.Prelude.{◌≡◌, IfOk};
ghost use Rattle.it_types.specs.Cursor.{Gives};
ghost use Rattle.it_types.specs.Numbers.{below_or_0};
ghost use Rattle.s_script.specs.LineKinds.{itron_line, link_line, ticks_line, node_at, first_node_line, second_node_line, either_node_line, number_field, choice_at, choice_field, order_field, sem_line, flg_line, dtq_line, task_line, cyc_line, cbr_line, fill_line, loop_line, line_by, until_line, kinds, by_word, call_line, line_of};

use crate::ranges::is_within;
use crate::sending::{DATA_LIMIT, sender_line};
use it_types::NoMemory;
use it_types::cursor::{after, at_end, is_word, split_word};
use it_types::numbers::{address_at, number_at};
use it_types::reading::call_of;
use spec_script::{Line, NodeLine, ScriptLine};
use std::alloc::Global;

/// The most bytes that `fill` sets the buffer to.
const MAX_FILL: u32 = 65280;

/// The most rounds of a loop.
const MAX_ROUNDS: u32 = 65535;

#[tactic(auto, unfolding(it_types::specs::Cursor::and_then, crate::specs::LineKinds::itron_line))]
fn itron_line(bytes: &[u8]) -> Option<ScriptLine>
    ensures { result ≡ itron_line bytes.now }
{
    let rest = after(b" 1", bytes)?;
    at_end(rest, ScriptLine::Itron)
}

#[tactic(auto, unfolding(it_types::specs::Cursor::and_then, crate::specs::LineKinds::link_line))]
fn link_line(bytes: &[u8]) -> Option<ScriptLine>
    ensures { result ≡ link_line bytes.now }
{
    let (key, rest) = number_field(bytes)?;
    let (lose, rest) = number_field(rest)?;
    let (twice, rest) = number_field(rest)?;
    let (delay, rest) = number_field(rest)?;
    at_end(
        rest,
        ScriptLine::Link {
            key,
            lose,
            twice,
            delay,
        },
    )
}

#[tactic(auto, unfolding(it_types::specs::Cursor::and_then, crate::specs::LineKinds::ticks_line))]
fn ticks_line(bytes: &[u8]) -> Option<ScriptLine>
    ensures { result ≡ ticks_line bytes.now }
{
    let rest = after(b" ", bytes)?;
    let (ticks, rest) = number_at(rest)?;
    at_end(rest, ScriptLine::Ticks { ticks })
}

#[tactic(auto, unfolding(it_types::specs::Cursor::and_then, crate::specs::LineKinds::node_at))]
fn node_at(bytes: &[u8]) -> Option<(NodeLine, &[u8])>
    ensures { Gives (λ x. (x.0, x.1.now)) result (node_at bytes.now) }
{
    let (addr, rest) = address_at(bytes)?;
    let rest = after(b" ", rest)?;
    let (isn0, rest) = number_at(rest)?;
    let rest = after(b" ", rest)?;
    let (top0, rest) = number_at(rest)?;
    Some((NodeLine { addr, isn0, top0 }, rest))
}

#[tactic(auto, unfolding(it_types::specs::Cursor::and_then, crate::specs::LineKinds::first_node_line))]
fn first_node_line(bytes: &[u8]) -> Option<ScriptLine>
    ensures { result ≡ first_node_line bytes.now }
{
    let rest = after(b" 0 ", bytes)?;
    let (node, rest) = node_at(rest)?;
    at_end(rest, ScriptLine::FirstNode(node))
}

#[tactic(auto, unfolding(it_types::specs::Cursor::and_then, crate::specs::LineKinds::second_node_line))]
fn second_node_line(bytes: &[u8]) -> Option<ScriptLine>
    ensures { result ≡ second_node_line bytes.now }
{
    let rest = after(b" 1 ", bytes)?;
    let (node, rest) = node_at(rest)?;
    at_end(rest, ScriptLine::SecondNode(node))
}

#[tactic(auto, unfolding(crate::specs::LineKinds::either_node_line))]
fn either_node_line(bytes: &[u8]) -> Option<ScriptLine>
    ensures { result ≡ either_node_line bytes.now }
{
    match first_node_line(bytes) {
        Some(line) => Some(line),
        None => second_node_line(bytes),
    }
}

#[tactic(auto, unfolding(it_types::specs::Cursor::and_then, crate::specs::LineKinds::number_field))]
fn number_field(bytes: &[u8]) -> Option<(Option<u64>, &[u8])>
    ensures { Gives (λ x. (x.0, x.1.now)) result (number_field bytes.now) }
{
    number_at(after(b" ", bytes)?)
}

#[tactic(auto, unfolding(crate::specs::LineKinds::choice_at))]
fn choice_at<'a>(one: &[u8], other: &[u8], bytes: &'a [u8]) -> Option<(bool, &'a [u8])>
    ensures { Gives (λ x. (x.0, x.1.now)) result (choice_at one.now other.now bytes.now) }
{
    if let Some(rest) = after(one, bytes) {
        Some((true, rest))
    } else {
        let rest = after(other, bytes)?;
        Some((false, rest))
    }
}

/// Whether the first of two words stands after the space at the front, or the other, and the bytes after it.
#[tactic(auto, unfolding(it_types::specs::Cursor::and_then, crate::specs::LineKinds::choice_field))]
fn choice_field<'a>(one: &[u8], other: &[u8], bytes: &'a [u8]) -> Option<(bool, &'a [u8])>
    ensures { Gives (λ x. (x.0, x.1.now)) result (choice_field one.now other.now bytes.now) }
{
    choice_at(one, other, after(b" ", bytes)?)
}

fn order_field(bytes: &[u8]) -> Option<(bool, &[u8])>
    ensures { Gives (λ x. (x.0, x.1.now)) result (order_field bytes.now) }
{
    choice_field(b"pri", b"fifo", bytes)
}

#[tactic(auto, unfolding(it_types::specs::Cursor::and_then, crate::specs::LineKinds::sem_line))]
fn sem_line(bytes: &[u8]) -> Option<ScriptLine>
    ensures { result ≡ sem_line bytes.now }
{
    let (id, rest) = number_field(bytes)?;
    let (pri, rest) = order_field(rest)?;
    let (init, rest) = number_field(rest)?;
    let (max, rest) = number_field(rest)?;
    at_end(rest, ScriptLine::Sem { id, pri, init, max })
}

#[tactic(auto, unfolding(it_types::specs::Cursor::and_then, crate::specs::LineKinds::flg_line))]
fn flg_line(bytes: &[u8]) -> Option<ScriptLine>
    ensures { result ≡ flg_line bytes.now }
{
    let (id, rest) = number_field(bytes)?;
    let (pri, rest) = order_field(rest)?;
    let (many, rest) = choice_field(b"many", b"one", rest)?;
    let (clr, rest) = choice_field(b"clr", b"keep", rest)?;
    let (init, rest) = number_field(rest)?;
    at_end(
        rest,
        ScriptLine::Flg {
            id,
            pri,
            many,
            clr,
            init,
        },
    )
}

#[tactic(auto, unfolding(it_types::specs::Cursor::and_then, crate::specs::LineKinds::dtq_line))]
fn dtq_line(bytes: &[u8]) -> Option<ScriptLine>
    ensures { result ≡ dtq_line bytes.now }
{
    let (id, rest) = number_field(bytes)?;
    let (pri, rest) = order_field(rest)?;
    let (cap, rest) = number_field(rest)?;
    at_end(rest, ScriptLine::Dtq { id, pri, cap })
}

#[tactic(auto, unfolding(it_types::specs::Cursor::and_then, crate::specs::LineKinds::task_line))]
fn task_line(bytes: &[u8]) -> Option<ScriptLine>
    ensures { result ≡ task_line bytes.now }
{
    let (id, rest) = number_field(bytes)?;
    let (pri, rest) = number_field(rest)?;
    let (act, rest) = choice_field(b"act", b"dor", rest)?;
    at_end(rest, ScriptLine::Task { id, pri, act })
}

#[tactic(auto, unfolding(it_types::specs::Cursor::and_then, crate::specs::LineKinds::cyc_line))]
fn cyc_line(bytes: &[u8]) -> Option<ScriptLine>
    ensures { result ≡ cyc_line bytes.now }
{
    let (id, rest) = number_field(bytes)?;
    let (period, rest) = number_field(rest)?;
    let (phase, rest) = number_field(rest)?;
    let (on, rest) = choice_field(b"on", b"off", rest)?;
    at_end(
        rest,
        ScriptLine::Cyc {
            id,
            period,
            phase,
            on,
        },
    )
}

#[tactic(auto, unfolding(it_types::specs::Cursor::and_then, crate::specs::LineKinds::cbr_line))]
fn cbr_line(bytes: &[u8]) -> Option<ScriptLine>
    ensures { result ≡ cbr_line bytes.now }
{
    let (id, rest) = number_field(bytes)?;
    at_end(rest, ScriptLine::Cbr { id })
}

/// The number, where it is below the limit; otherwise 0.
fn below_or_0(limit: u32, number: Option<u64>) -> u32
    ensures { result ≡ below_or_0 limit number }
{
    match number {
        Some(number) if number < u64::from(limit) => number as u32,
        Some(_) | None => 0,
    }
}

#[tactic(auto, unfolding(it_types::specs::Cursor::and_then, crate::specs::LineKinds::fill_line))]
fn fill_line(bytes: &[u8]) -> Option<ScriptLine>
    ensures { result ≡ fill_line bytes.now }
{
    let (size, rest) = number_field(bytes)?;
    let line = Line::Fill(below_or_0(MAX_FILL + 1, size));
    let fits = is_within(0, size, u64::from(MAX_FILL));
    at_end(rest, ScriptLine::Body { line, fits })
}

#[tactic(auto, unfolding(it_types::specs::Cursor::and_then, crate::specs::LineKinds::loop_line))]
fn loop_line(bytes: &[u8]) -> Option<ScriptLine>
    ensures { result ≡ loop_line bytes.now }
{
    let (rounds, rest) = number_field(bytes)?;
    let line = Line::Loop(below_or_0(MAX_ROUNDS + 1, rounds));
    let fits = is_within(1, rounds, u64::from(MAX_ROUNDS));
    at_end(rest, ScriptLine::Body { line, fits })
}

/// The line of a body that these bytes alone tell.
#[tactic(auto, unfolding(it_types::specs::Cursor::and_then, crate::specs::LineKinds::line_by))]
fn line_by(word: &[u8], line: Line, bytes: &[u8]) -> Option<ScriptLine>
    ensures { result ≡ line_by word.now line bytes.now }
{
    let rest = after(word, bytes)?;
    at_end(rest, ScriptLine::Body { line, fits: true })
}

#[tactic(auto, unfolding(crate::specs::LineKinds::until_line))]
fn until_line(bytes: &[u8]) -> Option<ScriptLine>
    ensures { result ≡ until_line bytes.now }
{
    if let Some(line) = line_by(b" end", Line::UntilEnd, bytes) {
        Some(line)
    } else if let Some(line) = line_by(b" fail", Line::UntilFail, bytes) {
        Some(line)
    } else {
        line_by(b" empty", Line::UntilEmpty, bytes)
    }
}

/// The line that begins with the word and goes on with the bytes, where it is no call.
fn other_line(word: &[u8], bytes: &[u8]) -> Option<ScriptLine>
    ensures { result ≡ by_word kinds word.now bytes.now }
{
    if is_word(word, b"itron") {
        itron_line(bytes)
    } else if is_word(word, b"link") {
        link_line(bytes)
    } else if is_word(word, b"ticks") {
        ticks_line(bytes)
    } else if is_word(word, b"node") {
        either_node_line(bytes)
    } else if is_word(word, b"sem") {
        sem_line(bytes)
    } else if is_word(word, b"flg") {
        flg_line(bytes)
    } else if is_word(word, b"dtq") {
        dtq_line(bytes)
    } else if is_word(word, b"task") {
        task_line(bytes)
    } else if is_word(word, b"cyc") {
        cyc_line(bytes)
    } else if is_word(word, b"cbr") {
        cbr_line(bytes)
    } else if is_word(word, b"fill") {
        fill_line(bytes)
    } else if is_word(word, b"loop") {
        loop_line(bytes)
    } else if is_word(word, b"pool") {
        at_end(
            bytes,
            ScriptLine::Body {
                line: Line::Pool,
                fits: true,
            },
        )
    } else if is_word(word, b"until") {
        until_line(bytes)
    } else if is_word(word, b"end") {
        at_end(bytes, ScriptLine::End)
    } else {
        None
    }
}

fn call_line(alloc: Global, bytes: &[u8]) -> Result<Option<ScriptLine>, NoMemory>
    ensures { IfOk result (λ line. line ≡ call_line bytes.now) }
{
    match call_of(alloc, DATA_LIMIT, bytes)? {
        Some((req, fits)) => Ok(Some(ScriptLine::Body {
            line: Line::Call {
                req,
                buf: false,
                peer: false,
            },
            fits,
        })),
        None => Ok(None),
    }
}

/// The line that bytes without LF are read as, if they are one.
#[tactic(auto, unfolding(crate::specs::LineKinds::line_of))]
pub fn line_of(alloc: Global, bytes: &[u8]) -> Result<Option<ScriptLine>, NoMemory>
    ensures { IfOk result (λ line. line ≡ line_of bytes.now) }
{
    let (word, rest) = split_word(bytes);
    if let Some(line) = other_line(word, rest) {
        return Ok(Some(line));
    }
    match sender_line(alloc, word, rest)? {
        Some(line) => Ok(Some(line)),
        None => call_line(alloc, bytes),
    }
}
