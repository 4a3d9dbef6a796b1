ghost use Rattle.std.specs.Prelude.{◌≡◌, true, IfOk, Some, ℕ};
ghost use Rattle.it_types.specs.declared.request.Req.{Req as ARequest};
ghost use Rattle.it_types.specs.Requests.{word_in};
ghost use Rattle.it_types.specs.Lines.{call_of, if_fits, is_writable, request_text, trace_limit, IsSpelled, ReadsWhole};

use crate::cursor::{at_end, is_word, split_word};
use crate::line::Line;
use crate::stop::Stop;
use crate::{ALL_WORDS, NoMemory, Req, Word};
use std::alloc::Global;

/// The most bytes of data of a call in a trace.
const TRACE_LIMIT: usize = 65280;

fn word_in(bytes: &[u8]) -> Option<Word>
    ensures { result ≡ word_in bytes.now }
{
    ALL_WORDS
        .iter()
        .copied()
        .find(|word| is_word(bytes, word.text()))
}

#[tactic(auto, unfolding(crate::specs::Cursor::and_then, crate::specs::Lines::call_of))]
fn read_whole(alloc: Global, limit: usize, bytes: &[u8]) -> Result<(Req, bool), Stop>
    ensures { ReadsWhole (call_of limit bytes.now) result }
{
    let (word, rest) = split_word(bytes);
    let word = word_in(word).ok_or(Stop::NoRequest)?;
    let mut line = Line {
        limit,
        fits: true,
        rest,
    };
    let request = line.request(alloc, word)?;
    at_end(line.rest, (request, line.fits)).ok_or(Stop::NoRequest)
}

/// The request that a line without its LF is read as, with data of at most `limit` bytes, and whether each of its fields is in
/// its range; a field that isn't has another value in its place. None where the line has not the form of a call.
pub fn call_of(alloc: Global, limit: usize, line: &[u8]) -> Result<Option<(Req, bool)>, NoMemory>
    ensures { IfOk result (λ found. found ≡ call_of limit line.now) }
{
    match read_whole(alloc, limit, line) {
        Ok(read) => Ok(Some(read)),
        Err(Stop::NoRequest) => Ok(None),
        Err(Stop::NoMemory) => Err(NoMemory),
    }
}

fn if_fits(request: Req, fits: bool) -> Option<Req>
    ensures { result ≡ if_fits request fits }
{
    if fits { Some(request) } else { None }
}

/// The request that a line of a trace, without its LF, spells: data has at most 65,280 bytes, a time-out is from 1 to 1,000,000
/// ticks, a delay at most 1,000,000 ticks, a system time below 2^63, a port below 2^16, and any other number below 2^32. None
/// exactly where it spells none.
#[tactic(auto, using(crate::proofs::LineLaws::spelled, crate::proofs::LineLaws::nothing))]
pub fn read_call(alloc: Global, line: &[u8]) -> Result<Option<Req>, NoMemory>
    ensures { IfOk result (λ found. IsSpelled found line.now) }
{
    match call_of(alloc, TRACE_LIMIT, line)? {
        Some((request, fits)) => Ok(if_fits(request, fits)),
        None => Ok(None),
    }
}

/// A request that can be spelled is read back from its text.
#[tactic(auto, using(crate::proofs::LineLaws::read_again))]
pub fn read_back()
    ensures { (limit : ℕ) (r : ARequest) → is_writable limit r ≡ true → call_of limit (request_text r) ≡ Some (r, true) }
{}
