//! What the replies of a work's session come to.
ghost use Rattle.std.specs.Prelude.{◌≡◌, ◌++◌, ◌||◌, ◌==◌, false, IfOk, OnOk, map};
ghost use Rattle.ks_base.specs.Text.{number_text};
ghost use Rattle.script_lines.specs.Lines.{lines_of};
ghost use Rattle.ksplice_calls.specs.Answer.{answer_of};
ghost use Rattle.ksplice_calls.specs.Works.{count_with, counts_line, summary, summary_answer, summary_status, work_line};

use crate::reply_lines::{count_with, last_three, parts_of, put_lines, without_empty_last};
use crate::status::Status;
use ks_base::Line;
use std::alloc::{AllocError, Global};
use work_gen::function_count;

/// The summary of a work's session, and the status with which the call ends.
#[derive(Drop)]
pub(crate) struct Summary {
    pub(crate) text: Vec<u8>,
    pub(crate) status: Status,
}

/// Sums up what the session of the work of a number replied.
pub(crate) fn sum_up(alloc: Global, number: u32, replies: &[u8]) -> Result<Summary, AllocError>
    ensures answer { IfOk result
        (λ sum. answer_of sum.text.items sum.status.code ≡ summary_answer number (lines_of replies.now)) }
    ensures status { IfOk result (λ sum. (sum.status.code == 5 || sum.status.code == 6) ≡ false) }
{
    let parts = parts_of(alloc, replies)?;
    let lines = without_empty_last(&parts);
    let text = summary_text(alloc, number, lines)?;
    let status = status_of(lines);
    Ok(Summary { text, status })
}

/// The summary of the lines that were replied.
#[tactic(auto, unfolding(crate::specs::Works::summary))]
fn summary_text(alloc: Global, number: u32, lines: &[&[u8]]) -> Result<Vec<u8>, AllocError>
    ensures { IfOk result (λ text. text.items ≡ summary number (map (λ line. line.now) lines.now)) }
{
    let mut head = Line::new(alloc);
    put_work(&mut head, number)?;
    put_counts(&mut head, lines)?;
    let mut text = Vec::from_slice(alloc, head.bytes())?;
    put_lines(&mut text, last_three(lines))?;
    Ok(text)
}

/// Appends the line of the work: its number, and how many functions it has.
#[tactic(auto, unfolding(crate::specs::Works::work_line))]
fn put_work(to: &mut Line, number: u32) -> Result<(), AllocError>
    ensures { OnOk result (to.new ≡ to.old ++ work_line number) }
{
    put_count(to, "gen ", number as usize)?;
    put_count(to, " functions ", function_count(number) as usize)?;
    to.put_text("\n")
}

/// Appends the line of the counts: all lines, and those that say that an update was made, taken back or refused.
#[tactic(auto, unfolding(crate::specs::Works::counts_line))]
fn put_counts(to: &mut Line, lines: &[&[u8]]) -> Result<(), AllocError>
    ensures { OnOk result (to.new ≡ to.old ++ counts_line (map (λ line. line.now) lines.now)) }
{
    put_count(to, "lines ", lines.len())?;
    put_count(to, " applied ", count_with(lines, b"applied "))?;
    put_count(to, " undone ", count_with(lines, b"undone "))?;
    put_count(to, " refused ", count_with(lines, b"refused "))?;
    to.put_text("\n")
}

/// Appends what is counted, and the count.
fn put_count(to: &mut Line, what: &str, count: usize) -> Result<(), AllocError>
    ensures { OnOk result (to.new ≡ to.old ++ what.now ++ number_text count) }
{
    to.put_text(what)?;
    to.put_number(count as u64)
}

/// The status by the lines that were replied: whether one of them is a refusal.
fn status_of(lines: &[&[u8]]) -> Status
    ensures code { result.code ≡ summary_status (map (λ line. line.now) lines.now) }
    ensures replied { (result.code == 5 || result.code == 6) ≡ false }
{
    if count_with(lines, b"refused ") == 0 {
        Status::DONE
    } else {
        Status::REFUSED
    }
}
