// What moving keeps: a whole file that can make the journey has the same records in the wished version, and comes back byte for byte.
#![tactic(auto)]

ghost use Rattle.outbox_move_claims.specs.Claims.{FilesMove, MovableWhen};

// For every whole file whose payloads are within the wished version's limit.
pub fn files_move()
    ensures { FilesMove }
{}

// What that asks for, from the facts.
pub fn movable_when()
    ensures { MovableWhen }
{}
