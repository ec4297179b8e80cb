//! The rule of the queue, and what its steps tell.
use crate::hand::Hand;
use adr_delivery::Job;
use crossbeam_queue::protocol::{Join, Lesson, Outcome, Protocol, Split};

pub struct Fair;

impl Protocol<Job, Hand> for Fair {
    ghost use Rattle.std.specs.Prelude.{[]};
    ghost use Rattle.adr_work.specs.Fair.{hand, all_parts, Balanced};

    ghost holds = { Balanced };

    ghost first = { hand all_parts [] [] [] };
}

/// One part goes with the new seat.
pub struct Cut;

impl Split<Hand> for Cut {
    ghost use Rattle.std.specs.Prelude.{◌-◌, []};
    ghost use Rattle.adr_work.specs.Fair.{hand};

    ghost left = { λ v. hand (v.parts - 1) v.put v.taken v.left };

    ghost right = { λ v. hand 1 [] [] [] };
}

impl Join<Hand> for Cut {
    ghost use Rattle.std.specs.Prelude.{◌+◌, ◌++◌, []};
    ghost use Rattle.adr_work.specs.Fair.{hand};

    ghost both = { λ v w. hand (v.parts + w.parts) (v.put ++ w.put) (v.taken ++ w.taken) (v.left ++ w.left) };

    ghost spent = { hand 0 [] [] [] };
}

pub struct Puts;

impl Outcome<Job, Hand> for Puts {
    ghost use Rattle.std.specs.Prelude.{◌≡◌, [], ◌∷◌, ◌++◌};
    ghost use Rattle.adr_work.specs.Fair.{hand};

    ghost then = { λ v x w. w ≡ hand v.parts (v.put ++ x ∷ []) v.taken v.left };
}

impl Lesson<Job, Hand> for Puts {
    ghost use Rattle.std.specs.Prelude.{⊤};

    ghost fact = { λ v items. ⊤ };
}

pub struct Takes;

impl Outcome<Job, Hand> for Takes {
    ghost use Rattle.std.specs.Prelude.{◌≡◌, [], ◌∷◌, ◌++◌};
    ghost use Rattle.adr_work.specs.Fair.{hand};

    ghost then = { λ v x w. w ≡ hand v.parts v.put (v.taken ++ x ∷ []) v.left };
}

impl Lesson<Job, Hand> for Takes {
    ghost use Rattle.std.specs.Prelude.{⊤};

    ghost fact = { λ v items. ⊤ };
}

/// A job that is taken out when all have ended.
pub struct Clears;

impl Outcome<Job, Hand> for Clears {
    ghost use Rattle.std.specs.Prelude.{◌≡◌, [], ◌∷◌, ◌++◌};
    ghost use Rattle.adr_work.specs.Fair.{hand};

    ghost then = { λ v x w. w ≡ hand v.parts v.put v.taken (v.left ++ x ∷ []) };
}

impl Lesson<Job, Hand> for Clears {
    ghost use Rattle.adr_work.specs.Fair.{Whole};

    ghost fact = { Whole };
}
