//! What is known of each piece, and the attempts that are due.
#![tactic(auto)]

ghost use Rattle.std.specs.Prelude.{◌≡◌, ℕ, ◌+◌, ◌<◌, ◌≤◌, ◌^◌, ◌++◌, ◌∷◌, ◌==◌, ◌||◌, [], false, length, map, reverse, IfOk, OnOk, All};
ghost use Rattle.dc_crew.specs.States.{no_state, undone, state_of, task_for, tasks_of, tasks_again, hits, AreKnown, SameDone, SameFailed, SmallEnded, SameEnded, numbers_of, tally, part_for};
ghost use Rattle.dc_crew.specs.Jobs.{task_of};

use crate::crew::Task;
use dc_kills::KillPlan;
use dc_path::{List, OutOfMemory};
use dc_pieces::Part;
use dc_pool::Receipt;
use std::alloc::Global;

/// The failed attempts after which a piece is given up.
pub const MAX_FAILED: u64 = 4;

/// What came of a piece so far.
#[derive(Clone, Copy)]
pub struct State {
    /// The attempts that were begun and did not succeed.
    pub ended: u64,
    /// Those of them that failed.
    pub failed: u64,
    /// Whether it is done.
    pub done: bool,
}

/// States of so many pieces, at none of which an attempt was begun.
pub(crate) fn fresh_states(alloc: Global, count: usize) -> Result<Vec<State>, OutOfMemory>
    ensures len { IfOk result (λ states. length states.items ≡ count) }
    ensures fresh { IfOk result (λ states. (p : ℕ) → state_of states.items p ≡ no_state) }
{
    let none = State {
        ended: 0,
        failed: 0,
        done: false,
    };
    let states = vec![in alloc; none; count]?;
    Ok(states)
}

/// The numbers of the pieces that are not done, in ascending order.
pub(crate) fn not_done(alloc: Global, states: &[State]) -> Result<List<u32>, OutOfMemory>
    requires { length states.now < 2 ^ 32 }
    ensures { IfOk result (λ numbers. numbers ≡ undone states.now) }
{
    let mut numbers = List::new(alloc);
    for place in 0..states.len() {
        if !states[place].done {
            numbers.add(place as u32)?;
        }
    }
    Ok(numbers)
}

// Adds the next attempt at a piece, if one is due.
fn add_task(
    tasks: &mut Vec<Task>,
    kills: &KillPlan,
    piece: u32,
    state: State,
) -> Result<(), OutOfMemory>
    requires { state.ended < 2 ^ 31 }
    ensures { OnOk result (tasks.new.items ≡ tasks.old.items ++ task_for kills.now piece state) }
{
    if state.done || state.failed >= MAX_FAILED {
        return Ok(());
    }
    let attempt = state.ended as u32 + 1;
    tasks.push(Task {
        piece,
        attempt,
        stop: kills.stop_at(piece, attempt),
    })?;
    Ok(())
}

/// The next attempts at all pieces that are neither done nor given up, in order.
pub(crate) fn due(
    alloc: Global,
    kills: &KillPlan,
    states: &[State],
) -> Result<Vec<Task>, OutOfMemory>
    requires few { length states.now < 2 ^ 32 }
    requires small { SmallEnded states.now }
    ensures { IfOk result (λ tasks. tasks.items ≡ tasks_of kills.now states.now) }
{
    let mut tasks = Vec::new(alloc);
    for place in 0..states.len() {
        add_task(&mut tasks, kills, place as u32, states[place])?;
    }
    Ok(tasks)
}

/// The next attempts at those pieces of these tasks that are neither done nor given up, in the same order.
pub(crate) fn due_again(
    alloc: Global,
    kills: &KillPlan,
    states: &[State],
    tasks: &[Task],
) -> Result<Vec<Task>, OutOfMemory>
    requires known { All (λ t. t.piece < length states.now) tasks.now }
    requires small { SmallEnded states.now }
    ensures { IfOk result (λ again. again.items ≡ tasks_again kills.now states.now tasks.now) }
{
    let mut again = Vec::new(alloc);
    for task in tasks {
        add_task(&mut again, kills, task.piece, states[task.piece as usize])?;
    }
    Ok(again)
}

/// Whether a piece of these tasks has failed as often as it may.
pub(crate) fn is_any_failed(states: &[State], tasks: &[Task]) -> bool
    requires { All (λ t. t.piece < length states.now) tasks.now }
    ensures { result ≡ false → All (λ t. (state_of states.now t.piece).failed < 4) tasks.now }
{
    for task in tasks {
        if states[task.piece as usize].failed >= MAX_FAILED {
            return true;
        }
    }
    false
}

/// Counts attempts that were killed.
pub(crate) fn count_killed(states: &mut [State], tasks: &[Task], numbers: &[u32])
    requires known { AreKnown (length states.old) tasks.now numbers.now }
    requires small { SmallEnded states.old }
    ensures len { length states.new ≡ length states.old }
    ensures ended { (p : ℕ) → (state_of states.new p).ended ≡ (state_of states.old p).ended + hits tasks.now p numbers.now }
    ensures failed { SameFailed states.old states.new }
    ensures done { SameDone states.old states.new }
{
    for number in numbers {
        let piece = tasks[*number as usize].piece as usize;
        states[piece].ended += 1;
    }
}

/// Counts attempts that failed.
pub(crate) fn count_failed(states: &mut [State], tasks: &[Task], numbers: &[u32])
    requires known { AreKnown (length states.old) tasks.now numbers.now }
    requires small { (p : ℕ) → ((state_of states.old p).ended < 2 ^ 62) × ((state_of states.old p).failed < 2 ^ 62) }
    ensures len { length states.new ≡ length states.old }
    ensures ended { (p : ℕ) → (state_of states.new p).ended ≡ (state_of states.old p).ended + hits tasks.now p numbers.now }
    ensures failed { (p : ℕ) → (state_of states.new p).failed ≡ (state_of states.old p).failed + hits tasks.now p numbers.now }
    ensures done { SameDone states.old states.new }
{
    for number in numbers {
        let piece = tasks[*number as usize].piece as usize;
        states[piece].ended += 1;
        states[piece].failed += 1;
    }
}

// The piece of the task with a number.
fn piece_of(tasks: &[Task], number: u32) -> u32
    requires { number < length tasks.now }
    ensures { result ≡ (task_of tasks.now number).piece }
{
    tasks[number as usize].piece
}

// Keeps the part of a piece that is done.
fn keep_one<P: Drop>(
    states: &mut [State],
    parts: &mut Vec<Part<P>>,
    piece: u32,
    part: P,
) -> Result<(), OutOfMemory>
    requires { piece < length states.old }
    ensures len { length states.new ≡ length states.old }
    ensures ended { SameEnded states.old states.new }
    ensures failed { SameFailed states.old states.new }
    ensures done { OnOk result ((p : ℕ) → (state_of states.new p).done ≡ (p == piece || (state_of states.old p).done)) }
    ensures parts { OnOk result (parts.new.items ≡ parts.old.items ++ record { piece = piece; part = part } ∷ []) }
{
    parts.push(Part { piece, part })?;
    states[piece as usize].done = true;
    Ok(())
}

/// Keeps the parts of pieces that are done. At `Err` some are kept.
pub(crate) fn keep_done<P: Drop>(
    states: &mut [State],
    parts: &mut Vec<Part<P>>,
    tasks: &[Task],
    done: List<Receipt<P>>,
) -> Result<(), OutOfMemory>
    requires known { AreKnown (length states.old) tasks.now (numbers_of done) }
    requires once { (p : ℕ) → tally (state_of states.old p).done + hits tasks.now p (numbers_of done) ≤ 1 }
    ensures len { length states.new ≡ length states.old }
    ensures ended { SameEnded states.old states.new }
    ensures failed { SameFailed states.old states.new }
    ensures done { OnOk result ((p : ℕ) → tally (state_of states.new p).done ≡ tally (state_of states.old p).done + hits tasks.now p (numbers_of done)) }
    ensures parts { OnOk result (parts.new.items ≡ parts.old.items ++ reverse (map (part_for tasks.now) done)) }
{
    let mut receipts = done.into_vec();
    while let Some(receipt) = receipts.pop() {
        let piece = piece_of(tasks, receipt.number);
        keep_one(states, parts, piece, receipt.value)?;
    }
    Ok(())
}
