// The checks of the calls, in their order, the first to fail given: those of the lent buffers (`lent_verdict`), and those that go by the numbers
// and the records of buffers known to be sound.
#![tactic(auto, unfolding(ledger::specs::Refusals::first_to_fail, ledger::specs::Refusals::is_rectangle))]

ghost use Rattle.std.specs.Prelude.{◌≡◌, ◌&&◌, not, [], ◌∷◌, ◌<◌, ◌≤◌, ◌^◌, leb, nat_abs, pos, ◌+ℤ◌, ◌-ℤ◌, length};
ghost use Rattle.std.specs.Int.Signed.{le_z};
ghost use Rattle.ints.specs.Whole.{between};
ghost use Rattle.grid.specs.Reports.{is_time, is_id, is_position};
ghost use Rattle.grid.specs.Units.{capacity, longest_window};
ghost use Rattle.records.specs.Records.{records_of, now_of};
ghost use Rattle.records.specs.Soundness.{IsStore};
ghost use Rattle.records.specs.Words.{words};
ghost use Rattle.ledger.specs.Refusals.{check, first_to_fail, bad_step_time, out_of_ask_range, bad_ask_time, bad_window};
ghost use Rattle.ledger.specs.Refusals.{bad_ask, is_rectangle, clock_checks, bad_numbers, held_checks, ask_number_checks};
ghost use Rattle.ledger.specs.declared.Refusal.TheVariants.{AlreadyHeld, NotHeld, Full};
ghost use Rattle.engine.specs.Checks.{wrong_length, open_checks, lent_checks, checks_of_change};
ghost use Rattle.engine.specs.Sound.{CanJudge};

use grid::{LAST_ID, LAST_POSITION, LAST_TIME, Query, Range, Rect, When};
use ledger::{Ask, Change, Refusal};

// A corner of a rectangle is compared in 64 bits. (`as`, since `From` is no constant function.)
const LAST_CORNER: i64 = LAST_POSITION as i64;

// How far before and after now an ask may lie, in seconds.
const ASK_BEFORE: i64 = 3600;

const ASK_AFTER: i64 = 7200;

// How long a window may be, in seconds.
const LONGEST_WINDOW: i64 = 3600;

// 1: a buffer of another length.
pub fn wrong_length(store: &[i32], table: &[i16]) -> bool
    ensures { result ≡ wrong_length (words store.now table.now) }
{
    store.len() != records::STORE_WORDS || table.len() != rows::TABLE_WORDS
}

pub fn is_time(t: i32) -> bool
    ensures { result ≡ is_time t }
{
    (0..=LAST_TIME).contains(&t)
}

// Of a drop, which has an id alone: records judges whole reports (`in_range`).
fn is_id(id: i32) -> bool
    ensures { result ≡ is_id id }
{
    (1..=LAST_ID).contains(&id)
}

// 3, for the calls that step to time t.
fn bad_step_time(store: &[i32], t: i32) -> bool
    requires { 0 < length store.now }
    ensures { result ≡ bad_step_time (now_of store.now) t }
{
    !is_time(t) || i64::from(t) < records::now_of(store)
}

// Whether an ask lies near enough to the time of the store.
fn is_near(time: i64, asked: i64) -> bool
    requires { nat_abs time ≤ 2 ^ 31 }
    ensures { result ≡ between (time -ℤ pos 3600) (time +ℤ pos 7200) asked }
{
    (time - ASK_BEFORE..=time + ASK_AFTER).contains(&asked)
}

// Whether a time of an ask is outside its range: no time, or too far from the time of the store.
fn out_of_ask_range(store: &[i32], t: i32) -> bool
    requires { 0 < length store.now }
    ensures { result ≡ out_of_ask_range (now_of store.now) t }
{
    !is_time(t) || !is_near(records::now_of(store), i64::from(t))
}

// 3, for ask: of a window, either time.
fn bad_ask_time(store: &[i32], query: Query) -> bool
    requires { 0 < length store.now }
    ensures { result ≡ bad_ask_time (now_of store.now) query }
{
    match query.when {
        When::At(t) => out_of_ask_range(store, t),
        When::During(first, last) => out_of_ask_range(store, first)
            || out_of_ask_range(store, last),
    }
}

// Whether a window's last time is not before its first, and not too long after it.
fn is_span(first: i32, last: i32) -> bool
    ensures { result ≡ between first (first +ℤ pos longest_window) last }
{
    let from = i64::from(first);
    (from..=from + LONGEST_WINDOW).contains(&i64::from(last))
}

// 10, for a window.
fn bad_window(query: Query) -> bool
    ensures { result ≡ bad_window query }
{
    match query.when {
        When::At(_) => false,
        When::During(first, last) => !is_span(first, last),
    }
}

fn is_position(z: i64) -> bool
    ensures { result ≡ is_position z }
{
    (0..=LAST_CORNER).contains(&z)
}

fn in_sea(range: Range) -> bool
    ensures { result ≡ is_position range.low && is_position range.high }
{
    is_position(range.low) && is_position(range.high)
}

fn in_order(q: Rect) -> bool
    ensures { result ≡ le_z q.x.low q.x.high && le_z q.y.low q.y.high }
{
    q.x.low <= q.x.high && q.y.low <= q.y.high
}

// Both corners in the sea, low not above high.
fn is_rectangle(q: Rect) -> bool
    ensures { result ≡ is_rectangle q }
{
    in_sea(q.x) && in_sea(q.y) && in_order(q)
}

fn is_method(method: i32) -> bool
    ensures { result ≡ between (pos 0) (pos 3) method }
{
    (0..=3).contains(&method)
}

// 4, for ask.
fn bad_ask(ask: Ask) -> bool
    ensures { result ≡ bad_ask ask }
{
    !is_method(ask.method) || !is_rectangle(ask.query.rect)
}

// 1 and 2.
pub fn lent_verdict(store: &[i32], table: &[i16]) -> Result<(), Refusal>
    ensures { result ≡ first_to_fail (lent_checks (words store.now table.now) []) }
{
    if wrong_length(store, table) {
        return Err(Refusal::WrongLength);
    }
    if !records::soundness::is_sound(store, table) {
        return Err(Refusal::Unsound);
    }
    Ok(())
}

pub fn open_verdict(store: &[i32], table: &[i16], t: i32) -> Result<(), Refusal>
    ensures { result ≡ first_to_fail (open_checks (words store.now table.now) t) }
{
    if wrong_length(store, table) {
        return Err(Refusal::WrongLength);
    }
    if !is_time(t) {
        return Err(Refusal::BadTime);
    }
    Ok(())
}

pub fn clock_verdict(store: &[i32], t: i32) -> Result<(), Refusal>
    requires { IsStore store.now }
    ensures { result ≡ first_to_fail (clock_checks (now_of store.now) t) }
{
    if bad_step_time(store, t) {
        return Err(Refusal::BadTime);
    }
    Ok(())
}

// 4, for a change.
fn bad_numbers(c: Change) -> bool
    ensures { result ≡ bad_numbers c }
{
    match c {
        Change::Add(r) | Change::Report(r) => !records::soundness::in_range(r),
        Change::Drop(id, _) => !is_id(id),
    }
}

// 5 and 7: of an add.
fn add_verdict(is_held: bool, held: usize) -> Result<(), Refusal>
    ensures { result ≡ first_to_fail (check is_held AlreadyHeld ∷ check (leb capacity held) Full ∷ []) }
{
    if is_held {
        return Err(Refusal::AlreadyHeld);
    }
    if records::CAPACITY <= held {
        return Err(Refusal::Full);
    }
    Ok(())
}

// 6: of a report or a drop.
fn held_verdict(is_held: bool) -> Result<(), Refusal>
    ensures { result ≡ first_to_fail (check (not is_held) NotHeld ∷ []) }
{
    if !is_held {
        return Err(Refusal::NotHeld);
    }
    Ok(())
}

// 5 to 7, by whether the float is held and how many are.
fn verdict_by_held(c: Change, is_held: bool, held: usize) -> Result<(), Refusal>
    ensures { result ≡ first_to_fail (held_checks c is_held held) }
{
    match c {
        Change::Add(_) => add_verdict(is_held, held),
        Change::Report(_) | Change::Drop(_, _) => held_verdict(is_held),
    }
}

// Who is held, and how many are, is judged after the clock step, which is not made yet: `left` is how many floats stay at it.
pub fn change_verdict(store: &[i32], c: Change, left: usize) -> Result<(), Refusal>
    requires { CanJudge store.now c left }
    ensures { result ≡ first_to_fail (checks_of_change (now_of store.now) (records_of store.now) c) }
{
    if bad_step_time(store, c.time()) {
        return Err(Refusal::BadTime);
    }
    if bad_numbers(c) {
        return Err(Refusal::BadNumber);
    }
    let is_held = retiring::has_left(store, c.id(), c.time());
    verdict_by_held(c, is_held, left)
}

// The checks of an ask but the last, which wants the ids found.
pub fn ask_verdict(store: &[i32], ask: Ask) -> Result<(), Refusal>
    requires { IsStore store.now }
    ensures { result ≡ first_to_fail (ask_number_checks (now_of store.now) ask) }
{
    if bad_ask_time(store, ask.query) {
        return Err(Refusal::BadTime);
    }
    if bad_window(ask.query) {
        return Err(Refusal::BadWindow);
    }
    if bad_ask(ask) {
        return Err(Refusal::BadNumber);
    }
    Ok(())
}
