// Whether a store and a table are sound: document 01, "Store and table", the sentence "Sound means". Every function here reads only, and
// is_sound takes slices of every length. Positions are centimetres, speeds centimetres per second, times seconds.
ghost use Rattle.std.specs.Prelude.{◌≡◌, ◌&&◌, true, ◌<◌, ◌+◌, ◌*◌, length, drop};
ghost use Rattle.grid.specs.Units.{id_marks};
ghost use Rattle.grid.specs.Reports.{is_time, is_position, is_speed, in_range};
ghost use Rattle.rows.specs.Row.{drift_of};
ghost use Rattle.records.specs.Records.{record_words, store_words, now_of, held_of, all_records, records_of};
ghost use Rattle.records.specs.Order.{is_sorted};
ghost use Rattle.records.specs.Soundness.{all_zero, key_is_right, is_sound_record, all_sound, ids_distinct, is_sound_header, is_sound_store, in_own_row, speeds_in_rows, is_sound, all_ranged};
ghost use Rattle.records.specs.Needs.{mark_bit, is_marked, with_mark, CanJudgeKey, CanFindRow, CanFindRows, HasHeader};

use crate::order::{is_sorted, key_by, number_of_key, phase_at, phase_of_key, slot_of_key};
use crate::{CAPACITY, RECORD_WORDS, Record, STORE_WORDS, held_of};
use grid::{CurveNumbers, LAST_ID, LAST_POSITION, LAST_TIME, Report};
use rows::{Drift, Row};

// The bytes of the marks of all ids, eight to a byte.
const MARK_BYTES: usize = grid::ID_MARKS / 8;

// The most floats held, as a word.
const MOST_HELD: i32 = CAPACITY as i32;

// This and the next are two, since each has the name of its definition in its contract: `is_position`, `is_speed`.
fn are_positions(x: i32, y: i32) -> bool
    ensures { result ≡ is_position x && is_position y }
{
    let positions = 0..=LAST_POSITION;
    positions.contains(&x) && positions.contains(&y)
}

fn are_speeds(vx: i32, vy: i32) -> bool
    ensures { result ≡ is_speed vx && is_speed vy }
{
    let limit = i32::from(Row::LIMIT);
    let speeds = -limit..=limit;
    speeds.contains(&vx) && speeds.contains(&vy)
}

// Whether id, position and speed are in their ranges.
pub fn in_range(r: Report) -> bool
    ensures { result ≡ in_range r }
{
    (1..=LAST_ID).contains(&r.id) && are_positions(r.x, r.y) && are_speeds(r.vx, r.vy)
}

// Whether all words are zero, in one pass without a branch.
fn all_zero(words: &[i32]) -> bool
    ensures { result ≡ all_zero words.now }
{
    let mut zero = true;
    for w in words {
        zero &= *w == 0;
    }
    zero
}

// Whether the key is right for a live phase not before that of t.
fn key_is_right(curve: &CurveNumbers, time: i32, r: Record) -> bool
    requires { CanJudgeKey time r }
    ensures { result ≡ key_is_right time r }
{
    let p = phase_of_key(phase_at(time), r.key);
    phase_at(r.report.t) <= p && r.key == key_by(curve, p, r.report)
}

// Ranges, t at most now, key right.
fn is_sound_record(curve: &CurveNumbers, time: i32, r: Record) -> bool
    requires { is_time time ≡ true }
    ensures { result ≡ is_sound_record time r }
{
    in_range(r.report) && (0..=time).contains(&r.report.t) && key_is_right(curve, time, r)
}

// Whether each record of some words is sound, in one pass.
fn all_sound(words: &[i32], time: i32) -> bool
    requires { is_time time ≡ true }
    ensures { result ≡ all_sound time (all_records words.now) }
{
    let curve = CurveNumbers::new();
    words
        .chunks_exact(RECORD_WORDS)
        .all(|w| is_sound_record(&curve, time, Record::read_from(w, 0)))
}

// The bit of an id in its byte of marks.
fn bit_of(id: usize) -> u8
    ensures { result ≡ mark_bit id }
{
    1 << (id % 8)
}

fn is_marked(marks: &[u8; MARK_BYTES], id: usize) -> bool
    requires { id < id_marks }
    ensures { result ≡ is_marked marks.now id }
{
    marks[id / 8] & bit_of(id) != 0
}

fn mark(marks: &mut [u8; MARK_BYTES], id: usize)
    requires { id < id_marks }
    ensures { marks.new ≡ with_mark marks.old id }
{
    marks[id / 8] |= bit_of(id);
}

// Whether the ids of some records differ, in one pass: a mark for each id seen, eight to a byte.
fn ids_distinct(words: &[i32]) -> bool
    requires { all_ranged (all_records words.now) ≡ true }
    ensures { result ≡ ids_distinct (all_records words.now) }
{
    let mut marks = [0u8; MARK_BYTES];
    for w in words.chunks_exact(RECORD_WORDS) {
        let id = Record::read_from(w, 0).report.id as usize;
        if is_marked(&marks, id) {
            return false;
        }
        mark(&mut marks, id);
    }
    true
}

// What a row takes in of a report.
pub fn drift_of(r: Report) -> Drift
    requires { in_range r ≡ true }
    ensures { result ≡ drift_of r }
{
    Drift {
        vx: r.vx as i16,
        vy: r.vy as i16,
    }
}

// Whether the row of a record's cell holds its speeds.
fn is_in_row(table: &[i16], r: Record) -> bool
    requires { CanFindRow table.now r }
    ensures { result ≡ in_own_row table.now r }
{
    let row = Row::read(table, slot_of_key(r.key), number_of_key(r.key));
    row.holds(drift_of(r.report))
}

// Whether the row of each of some records holds its speeds, in one pass.
fn speeds_in_rows(table: &[i16], words: &[i32]) -> bool
    requires { CanFindRows table.now (all_records words.now) }
    ensures { result ≡ speeds_in_rows table.now (all_records words.now) }
{
    words
        .chunks_exact(RECORD_WORDS)
        .all(|w| is_in_row(table, Record::read_from(w, 0)))
}

// Record 0: now, floats held, five zeros.
fn is_sound_header(store: &[i32]) -> bool
    requires { length store.now ≡ store_words }
    ensures { result ≡ is_sound_header store.now }
{
    (0..=LAST_TIME).contains(&store[0])
        && (0..=MOST_HELD).contains(&store[1])
        && all_zero(&store[2..RECORD_WORDS])
}

// The words of the floats held.
fn floats_of(store: &[i32]) -> &[i32]
    requires { HasHeader store.now }
    ensures held { length result.now ≡ record_words * held_of store.now }
    ensures records { all_records result.now ≡ records_of store.now }
{
    &store[RECORD_WORDS..RECORD_WORDS * (held_of(store) + 1)]
}

// The records of a store whose record 0 is sound, and its unused words.
fn is_sound_body(store: &[i32]) -> bool
    requires { HasHeader store.now }
    ensures { result ≡ (all_sound (now_of store.now) (records_of store.now) && is_sorted (records_of store.now))
        && (ids_distinct (records_of store.now) && all_zero (drop (record_words * (held_of store.now + 1)) store.now)) }
{
    let floats = floats_of(store);
    let unused = &store[RECORD_WORDS + floats.len()..];
    all_sound(floats, store[0]) && is_sorted(floats) && ids_distinct(floats) && all_zero(unused)
}

// Whether a store is sound by itself. It may have any length.
pub fn is_sound_store(store: &[i32]) -> bool
    ensures { result ≡ is_sound_store store.now }
{
    store.len() == STORE_WORDS && is_sound_header(store) && is_sound_body(store)
}

// Whether a store and a table are sound. Each may have any length.
pub fn is_sound(store: &[i32], table: &[i16]) -> bool
    ensures { result ≡ is_sound store.now table.now }
{
    table.len() == rows::TABLE_WORDS
        && is_sound_store(store)
        && lanes::all_valid(table)
        && speeds_in_rows(table, floats_of(store))
}
