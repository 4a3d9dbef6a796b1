ghost use Rattle.std.specs.Prelude.{◌≡◌, ◌≢◌, ◌↔◌, ◌-◌, ℕ, List, take, IfOk};
ghost use Rattle.spec_script.specs.declared.script.Script.{Script as AScript};
ghost use Rattle.spec_script.specs.Lines.{script_text};
ghost use Rattle.spec_script.specs.Ranges.{IsGood};
ghost use Rattle.spec_script.specs.Text.{split_lines, IsReadAs};
ghost use Rattle.s_script.specs.Reading.{Reads, take_line, at_line, at_end_of_text, finished, read_text};
ghost use Rattle.s_script.specs.FirstWrong.{first_lines, CanClose, IsFront};

use crate::draft::{Draft, Stage};
use crate::line::line_of;
use crate::lines::{cut, is_skipped};
use crate::{ReadBad, Why};
use spec_script::Script;
use std::alloc::Global;

/// Adds a line of the text to the draft.
#[tactic(auto, unfolding(crate::specs::Reading::take_line))]
fn take_line(alloc: Global, draft: &mut Draft, number: usize, line: &[u8]) -> Result<(), ReadBad>
    ensures { Reads (λ u. draft.new) result (at_line number (take_line draft.old line.now)) }
{
    if is_skipped(line) {
        return Ok(());
    }
    let Some(line) = line_of(alloc, line)? else {
        return Err(ReadBad::Refused(number, Why::Form));
    };
    if let Some(why) = draft.cause(&line) {
        return Err(ReadBad::Refused(number, why));
    }
    draft.add(alloc, line)?;
    Ok(())
}

/// The script, where the draft is whole and nothing is left.
fn finish(draft: Draft, number: usize, rest: &[u8]) -> Result<Script, ReadBad>
    ensures { Reads (λ s. s) result (finished (at_end_of_text number draft rest.now)) }
{
    let Draft {
        stage,
        link,
        ticks,
        first,
        node,
        owner: _,
        body: _,
        depth: _,
    } = draft;
    match (stage, first, rest) {
        (Stage::Declares, Some(first), []) => Ok(Script {
            link,
            ticks,
            nodes: [first, node],
        }),
        _ => Err(ReadBad::Refused(number, Why::Missing)),
    }
}

fn read_lines(alloc: Global, text: &[u8]) -> Result<Script, ReadBad>
    ensures { Reads (λ s. s) result (read_text text.now) }
{
    let mut draft = Draft::new(alloc);
    let mut rest = text;
    let mut number = 1;
    while let Some((line, more)) = cut(rest) {
        take_line(alloc, &mut draft, number, line)?;
        rest = more;
        number += 1;
    }
    finish(draft, number, rest)
}

/// The script that the text is read as; else the first wrong line, counted from 1, with its first cause. Skipped lines
/// count, and a text whose last line has no LF is wrong at that line.
pub fn read(alloc: Global, text: &[u8]) -> Result<Script, ReadBad>
    ensures read { IfOk result (λ s. IsReadAs text.now s) }
    ensures not_read { (l : ℕ) (w : Why) → result ≡ Err (ReadBad.Refused l w) → (s : Script) → IsReadAs text.now s → ⊥ }
    ensures refused { (l : ℕ) (w : Why) → result ≡ Err (ReadBad.Refused l w) → read_text text.now ≡ Err (l, w) }
{
    read_lines(alloc, text)
}

/// Each text is read as a script exactly where it is the script's printed form, up to skipped lines, and the script is good.
pub fn reading()
    ensures { (text : List ℕ) (s : Script) → (read_text text ≡ Ok s) ↔ IsReadAs text s }
{}

/// The printed form of a good script is read as that script.
pub fn printing()
    ensures { (s : AScript) → IsGood s → read_text (script_text s) ≡ Ok s }
{}

/// The first wrong line is the first with which the text is no front of a good script: none begins with the lines before it and
/// that line, and some good script begins with the lines before it, where an open body has room for the ends of its open
/// loops. (A body of a thousand lines may leave a loop open: no good script begins so, and the line after them is wrong.) Where
/// lines are missing, the whole text is such a front.
pub fn first_wrong()
    ensures before { (text : List ℕ) (l : ℕ) (w : Why) → read_text text ≡ Err (l, w) → CanClose (take (l - 1) (split_lines text).0) → IsFront (first_lines (l - 1) text) }
    ensures wrong { (text : List ℕ) (l : ℕ) (w : Why) → read_text text ≡ Err (l, w) → w ≢ Why.Missing → IsFront (first_lines l text) → ⊥ }
{}
