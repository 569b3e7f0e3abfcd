// Phases, their reference times and their slots: document 01, "Phases and speed rows". Times are seconds.
ghost use Rattle.std.specs.Prelude.{◌≡◌, ◌≤◌};
ghost use Rattle.rows.specs.Phases.{phase_of, last_phase, reference_time, is_live, slot_of};

use crate::{MID_PHASE, PHASE_SECONDS, SLOTS};

// The phase in which a time lies.
pub fn phase_of(t: i64) -> usize
    ensures { result ≡ phase_of t }
{
    if t < 0 {
        return 0;
    }
    (t as usize) / PHASE_SECONDS
}

// The reference time of a phase.
pub fn reference_time(p: usize) -> i64
    requires { p ≤ last_phase }
    ensures { result ≡ reference_time p }
{
    (PHASE_SECONDS * p + MID_PHASE) as i64
}

pub fn is_live(c: usize, p: usize) -> bool
    requires { p ≤ last_phase }
    ensures { result ≡ is_live c p }
{
    (p..=p + 2).contains(&c)
}

pub fn slot_of(p: usize) -> usize
    ensures { result ≡ slot_of p }
{
    p % SLOTS
}
