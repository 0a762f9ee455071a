//! The lines.
ghost use Rattle.std.specs.Prelude.{◌≡◌, ◌++◌, ◌+◌, ◌≤◌, ◌<◌, ◌^◌, OnOk};
ghost use Rattle.std.specs.List.{flat_map, range_with_len};
ghost use Rattle.ksplice_session.specs.Lines.{spawned_line, stepped_line, turns_line};
ghost use Rattle.ksplice_session.specs.Lines.{thread_line, count_line, threads_lines, peeked, peeked_at, peek_line};
ghost use Rattle.ksplice_session.specs.Lines.{replaced_line, added_line, dropped_line, applied_line, applied_lines};
ghost use Rattle.ksplice_session.specs.Lines.{hook_line, hooked_lines, marked_lines, tailed_line, sealed_line};
ghost use Rattle.ksplice_session.specs.Lines.{undone_line, update_line, updates_line, list_lines};
ghost use Rattle.frame_watch.specs.declared.types.Verdict.TheVariants.{Broken};
ghost use Rattle.ksplice_session.specs.Lines.{rule_text, verdict_text, watch_line};

use crate::places::{put_place, put_state};
use frame_watch::{Rule, Verdict};
use ia32_step::Thread;
use image_memory::{Kind, Space};
use ks_base::{Added, HookReport, HookRun, Line, Name, Replaced, Report};
use std::alloc::AllocError;
use symbol_table::SymbolTable;
use update_stack::Update;

/// A thread was started: `spawned`, its number, and where it stands.
#[tactic(auto, unfolding(crate::specs::Lines::spawned_line))]
pub fn put_spawned(
    line: &mut Line,
    symbols: &SymbolTable,
    thread: &Thread,
) -> Result<(), AllocError>
    ensures { OnOk result (line.new ≡ line.old ++ spawned_line symbols.now.symbols thread.now) }
{
    line.put_text("spawned ")?;
    line.put_number(u64::from(thread.number))?;
    line.put_text(" ")?;
    put_place(line, symbols, thread.pc)?;
    line.put_text("\n")
}

/// A thread made steps: `stepped`, its number, how many, and its state now.
#[tactic(auto, unfolding(crate::specs::Lines::stepped_line))]
pub fn put_stepped(
    line: &mut Line,
    symbols: &SymbolTable,
    thread: &Thread,
    steps: u32,
) -> Result<(), AllocError>
    ensures { OnOk result (line.new ≡ line.old ++ stepped_line symbols.now.symbols thread.now steps) }
{
    line.put_text("stepped ")?;
    line.put_number(u64::from(thread.number))?;
    line.put_text(" ")?;
    line.put_number(u64::from(steps))?;
    put_state(line, symbols, thread)?;
    line.put_text("\n")
}

/// The threads made steps in turn: `rr` and how many.
#[tactic(auto, unfolding(crate::specs::Lines::turns_line))]
pub fn put_turns(line: &mut Line, steps: u32) -> Result<(), AllocError>
    ensures { OnOk result (line.new ≡ line.old ++ turns_line steps) }
{
    line.put_text("rr ")?;
    line.put_number(u64::from(steps))?;
    line.put_text("\n")
}

#[tactic(auto, unfolding(crate::specs::Lines::thread_line))]
fn put_thread(line: &mut Line, symbols: &SymbolTable, thread: &Thread) -> Result<(), AllocError>
    ensures { OnOk result (line.new ≡ line.old ++ thread_line symbols.now.symbols thread.now) }
{
    line.put_text("thread ")?;
    line.put_number(u64::from(thread.number))?;
    put_state(line, symbols, thread)?;
    line.put_text("\n")
}

#[tactic(auto, unfolding(crate::specs::Lines::count_line))]
fn put_count(line: &mut Line, count: usize) -> Result<(), AllocError>
    ensures { OnOk result (line.new ≡ line.old ++ count_line count) }
{
    line.put_text("threads ")?;
    line.put_number(count as u64)?;
    line.put_text("\n")
}

fn put_each_thread(
    line: &mut Line,
    symbols: &SymbolTable,
    threads: &[Thread],
) -> Result<(), AllocError>
    ensures { OnOk result (line.new ≡ line.old ++ flat_map (thread_line symbols.now.symbols) threads.now) }
{
    for thread in threads {
        put_thread(line, symbols, thread)?;
    }
    Ok(())
}

/// Each thread in order: `thread`, its number and its state; then `threads` and how many they are.
#[tactic(auto, unfolding(crate::specs::Lines::threads_lines))]
pub fn put_threads(
    line: &mut Line,
    symbols: &SymbolTable,
    threads: &[Thread],
) -> Result<(), AllocError>
    ensures { OnOk result (line.new ≡ line.old ++ threads_lines symbols.now.symbols threads.now) }
{
    put_each_thread(line, symbols, threads)?;
    put_count(line, threads.len())
}

fn put_peeked(line: &mut Line, seen: Option<(Kind, u8)>) -> Result<(), AllocError>
    ensures { OnOk result (line.new ≡ line.old ++ peeked seen) }
{
    match seen {
        None => line.put_text(" --"),
        Some((_, byte)) => {
            line.put_text(" ")?;
            line.put_byte(byte)
        }
    }
}

fn put_byte_at<S: Space>(line: &mut Line, space: &S, address: u64) -> Result<(), AllocError>
    requires { address < 2 ^ 32 }
    ensures { OnOk result (line.new ≡ line.old ++ peeked_at (S.contents space.now).pieces address) }
{
    put_peeked(line, space.look(address as u32))
}

fn put_each_byte<S: Space>(
    line: &mut Line,
    space: &S,
    address: u32,
    count: u32,
) -> Result<(), AllocError>
    requires { address + count ≤ 2 ^ 32 }
    ensures { OnOk result (line.new
        ≡ line.old ++ flat_map (peeked_at (S.contents space.now).pieces) (range_with_len address count)) }
{
    let low = u64::from(address);
    for at in low..low + u64::from(count) {
        put_byte_at(line, space, at)?;
    }
    Ok(())
}

/// The bytes from an address on, of which none lies above 0xFFFFFFFF: the address, a colon, and each byte in two
/// digits, or two dashes where no piece holds it.
#[tactic(auto, unfolding(crate::specs::Lines::peek_line))]
pub fn put_peek<S: Space>(
    line: &mut Line,
    space: &S,
    address: u32,
    count: u32,
) -> Result<(), AllocError>
    requires { address + count ≤ 2 ^ 32 }
    ensures { OnOk result (line.new ≡ line.old ++ peek_line (S.contents space.now).pieces address count) }
{
    line.put_hex(address)?;
    line.put_text(":")?;
    put_each_byte(line, space, address, count)?;
    line.put_text("\n")
}

#[tactic(auto, unfolding(crate::specs::Lines::replaced_line))]
fn put_replaced(line: &mut Line, replaced: &Replaced) -> Result<(), AllocError>
    ensures { OnOk result (line.new ≡ line.old ++ replaced_line replaced.now) }
{
    line.put_text(" replaced ")?;
    line.put_name(&replaced.function)?;
    line.put_text(" ")?;
    line.put_hex(replaced.home)?;
    line.put_text(" ")?;
    line.put_hex(replaced.base)?;
    line.put_text(" ")?;
    line.put_number(u64::from(replaced.length))?;
    line.put_text("\n")
}

fn put_each_replaced(line: &mut Line, functions: &[Replaced]) -> Result<(), AllocError>
    ensures { OnOk result (line.new ≡ line.old ++ flat_map replaced_line functions.now) }
{
    for function in functions {
        put_replaced(line, function)?;
    }
    Ok(())
}

#[tactic(auto, unfolding(crate::specs::Lines::added_line))]
fn put_added(line: &mut Line, added: &Added) -> Result<(), AllocError>
    ensures { OnOk result (line.new ≡ line.old ++ added_line added.now) }
{
    line.put_text(" added ")?;
    line.put_name(&added.function)?;
    line.put_text(" ")?;
    line.put_hex(added.base)?;
    line.put_text("\n")
}

fn put_each_added(line: &mut Line, functions: &[Added]) -> Result<(), AllocError>
    ensures { OnOk result (line.new ≡ line.old ++ flat_map added_line functions.now) }
{
    for function in functions {
        put_added(line, function)?;
    }
    Ok(())
}

#[tactic(auto, unfolding(crate::specs::Lines::dropped_line))]
fn put_dropped(line: &mut Line, function: &Name) -> Result<(), AllocError>
    ensures { OnOk result (line.new ≡ line.old ++ dropped_line function.now) }
{
    line.put_text(" dropped ")?;
    line.put_name(function)?;
    line.put_text("\n")
}

fn put_each_dropped(line: &mut Line, functions: &[Name]) -> Result<(), AllocError>
    ensures { OnOk result (line.new ≡ line.old ++ flat_map dropped_line functions.now) }
{
    for function in functions {
        put_dropped(line, function)?;
    }
    Ok(())
}

#[tactic(auto, unfolding(crate::specs::Lines::applied_line))]
fn put_accepted(line: &mut Line, name: &Name, tries: u32) -> Result<(), AllocError>
    ensures { OnOk result (line.new ≡ line.old ++ applied_line name.now tries) }
{
    line.put_text("applied ")?;
    line.put_name(name)?;
    line.put_text(" tries ")?;
    line.put_number(u64::from(tries))?;
    line.put_text("\n")
}

/// An update was made: `applied`, its name, and at which try; then a line for each function that it replaced, added and
/// dropped, in the report's order: `replaced` with the function's name, its home, its new base and the length of the
/// version that ran until then, `added` with its name and base, `dropped` with its name.
#[tactic(auto, unfolding(crate::specs::Lines::applied_lines))]
pub fn put_applied(
    line: &mut Line,
    name: &Name,
    tries: u32,
    report: &Report,
) -> Result<(), AllocError>
    ensures { OnOk result (line.new ≡ line.old ++ applied_lines name.now tries report.now) }
{
    put_accepted(line, name, tries)?;
    put_each_replaced(line, report.replaced.as_slice())?;
    put_each_added(line, report.added.as_slice())?;
    put_each_dropped(line, report.dropped.as_slice())
}

#[tactic(auto, unfolding(crate::specs::Lines::hook_line))]
fn put_hook(line: &mut Line, run: &HookRun) -> Result<(), AllocError>
    ensures { OnOk result (line.new ≡ line.old ++ hook_line run.now) }
{
    line.put_text(" hook ")?;
    line.put_name(&run.function)?;
    line.put_text(" steps ")?;
    line.put_number(u64::from(run.steps))?;
    line.put_text("\n")
}

fn put_each_hook(line: &mut Line, runs: &[HookRun]) -> Result<(), AllocError>
    ensures { OnOk result (line.new ≡ line.old ++ flat_map hook_line runs.now) }
{
    for run in runs {
        put_hook(line, run)?;
    }
    Ok(())
}

/// An update was made at the first try, as [`put_applied`] has it; then a line for each function that was run: `hook` with
/// its name, and how many steps it made.
#[tactic(auto, unfolding(crate::specs::Lines::hooked_lines))]
pub fn put_hooked(line: &mut Line, name: &Name, done: &HookReport) -> Result<(), AllocError>
    ensures { OnOk result (line.new ≡ line.old ++ hooked_lines name.now done.now) }
{
    put_applied(line, name, 1, &done.report)?;
    put_each_hook(line, done.hooks.as_slice())
}

/// The first write of an update was made: `marked` and its name; then a line for each function that it replaced, as
/// [`put_applied`] has it.
#[tactic(auto, unfolding(crate::specs::Lines::marked_lines))]
pub fn put_marked(line: &mut Line, name: &Name, report: &Report) -> Result<(), AllocError>
    ensures { OnOk result (line.new ≡ line.old ++ marked_lines name.now report.now) }
{
    line.put_text("marked ")?;
    line.put_name(name)?;
    line.put_text("\n")?;
    put_each_replaced(line, report.replaced.as_slice())
}

/// The second write of an update was made: `tailed` and its name.
#[tactic(auto, unfolding(crate::specs::Lines::tailed_line))]
pub fn put_tailed(line: &mut Line, name: &Name) -> Result<(), AllocError>
    ensures { OnOk result (line.new ≡ line.old ++ tailed_line name.now) }
{
    line.put_text("tailed ")?;
    line.put_name(name)?;
    line.put_text("\n")
}

/// The third write of an update was made: `sealed` and its name.
#[tactic(auto, unfolding(crate::specs::Lines::sealed_line))]
pub fn put_sealed(line: &mut Line, name: &Name) -> Result<(), AllocError>
    ensures { OnOk result (line.new ≡ line.old ++ sealed_line name.now) }
{
    line.put_text("sealed ")?;
    line.put_name(name)?;
    line.put_text("\n")
}

/// An update was taken back: `undone` and its name.
#[tactic(auto, unfolding(crate::specs::Lines::undone_line))]
pub fn put_undone(line: &mut Line, name: &Name) -> Result<(), AllocError>
    ensures { OnOk result (line.new ≡ line.old ++ undone_line name.now) }
{
    line.put_text("undone ")?;
    line.put_name(name)?;
    line.put_text("\n")
}

#[tactic(auto, unfolding(crate::specs::Lines::update_line))]
fn put_update(line: &mut Line, update: &Update) -> Result<(), AllocError>
    ensures { OnOk result (line.new ≡ line.old ++ update_line update.now) }
{
    line.put_text("update ")?;
    line.put_name(&update.name)?;
    line.put_text(" ")?;
    line.put_number(update.report.replaced.len() as u64)?;
    line.put_text("\n")
}

fn put_each_update(line: &mut Line, updates: &[Update]) -> Result<(), AllocError>
    ensures { OnOk result (line.new ≡ line.old ++ flat_map update_line updates.now) }
{
    for update in updates {
        put_update(line, update)?;
    }
    Ok(())
}

#[tactic(auto, unfolding(crate::specs::Lines::updates_line))]
fn put_update_count(line: &mut Line, count: usize) -> Result<(), AllocError>
    ensures { OnOk result (line.new ≡ line.old ++ updates_line count) }
{
    line.put_text("updates ")?;
    line.put_number(count as u64)?;
    line.put_text("\n")
}

/// Each live update, the oldest first: `update`, its name, and how many functions it replaced; then `updates` and how
/// many they are.
#[tactic(auto, unfolding(crate::specs::Lines::list_lines))]
pub fn put_updates(line: &mut Line, updates: &[Update]) -> Result<(), AllocError>
    ensures { OnOk result (line.new ≡ line.old ++ list_lines updates.now) }
{
    put_each_update(line, updates)?;
    put_update_count(line, updates.len())
}

fn put_rule(line: &mut Line, rule: Rule) -> Result<(), AllocError>
    ensures { OnOk result (line.new ≡ line.old ++ rule_text rule) }
{
    match rule {
        Rule::Start => line.put_text("start"),
        Rule::Return => line.put_text("return"),
        Rule::Arrival => line.put_text("arrival"),
        Rule::Slot => line.put_text("slot"),
    }
}

fn put_break(line: &mut Line, event: u64, thread: u32, rule: Rule) -> Result<(), AllocError>
    ensures { OnOk result (line.new ≡ line.old ++ verdict_text (Broken event thread rule)) }
{
    line.put_text("broken event ")?;
    line.put_number(event)?;
    line.put_text(" thread ")?;
    line.put_number(u64::from(thread))?;
    line.put_text(" ")?;
    put_rule(line, rule)
}

fn put_verdict(line: &mut Line, verdict: Verdict) -> Result<(), AllocError>
    ensures { OnOk result (line.new ≡ line.old ++ verdict_text verdict) }
{
    match verdict {
        Verdict::Disciplined => line.put_text("disciplined"),
        Verdict::Broken {
            event,
            thread,
            rule,
        } => put_break(line, event, thread, rule),
    }
}

/// Whether the run so far has kept the discipline: `watch disciplined`; or `watch broken event`, the event's number
/// from 1 on, `thread` and the thread's number, and the first rule that it broke: `start`, `return`, `arrival` or
/// `slot`.
#[tactic(auto, unfolding(crate::specs::Lines::watch_line))]
pub fn put_watch(line: &mut Line, verdict: Verdict) -> Result<(), AllocError>
    ensures { OnOk result (line.new ≡ line.old ++ watch_line verdict) }
{
    line.put_text("watch ")?;
    put_verdict(line, verdict)?;
    line.put_text("\n")
}
