//! Laws of the locks. No program needs to call them.

ghost use Rattle.std.specs.Prelude.{◌≡◌, ◌<◌, ℕ, List, [], None, Some, Contains, length};
ghost use Rattle.std.specs.FinMap as map;
ghost use Rattle.lockmachine.specs.declared.states.InodeLocks.{InodeLocks};
ghost use Rattle.capbits.specs.declared.ids.ClientId.{ClientId};
ghost use Rattle.capbits.specs.declared.ids.Ino.{Ino};
ghost use Rattle.capbits.specs.declared.ids.Ticket.{Ticket};
ghost use Rattle.capbits.specs.declared.cap.Part.{Part};
ghost use Rattle.captable.specs.declared.entry.EntryRow.{EntryRow};
ghost use Rattle.lockmachine.specs.declared.request.Operation.{Operation};
ghost use Rattle.lockmachine.specs.declared.request.Request.{Request};
ghost use Rattle.lockmachine.specs.declared.moves.Move.{Move};
ghost use Rattle.lockmachine.specs.declared.moves.Move.TheVariants.{Serve, Settled};
ghost use Rattle.lockmachine.specs.Inodes.{in_sync};
ghost use Rattle.lockmachine.specs.Scene.{Scene};
ghost use Rattle.lockmachine.specs.Locks.{IsLockMap, LockMap, TakesOnly, oldest_of, request_at, requests_of, with_request, without_request};
ghost use Rattle.lockmachine.specs.Locks.{without_requests_of};
ghost use Rattle.lockmachine.specs.Moves.{IsAtRest, IsFirstServed, WaitAtLocks, first_move, moved, with_moved};
ghost use Rattle.lockmachine.specs.Runs.{AreFew, EndLittle, MoveLittle, Runs};
ghost use Rattle.lockmachine.specs.Rows.{IsInRow};

/// Where no move applies, and who waits, waits for a lock that is there, the locks are at rest: each is stable at its
/// target and nobody waits for it, or it gathers and some caps are still to be acknowledged or released. Where they are at rest, no move
/// applies; nor where nobody has an entry, nobody waits, and the locks are in SYNC.
pub fn settled_is_at_rest()
    ensures rest { (s : Scene) → WaitAtLocks s → first_move s ≡ Settled → IsAtRest s }
    ensures settled { (s : Scene) → IsAtRest s → first_move s ≡ Settled }
    ensures idle { (s : Scene) → s.table.rows ≡ [] → s.locks.queue ≡ []
        → ((ino : ℕ) (locks : InodeLocks) → map.get s.locks.states ino ≡ Some locks → locks ≡ in_sync)
        → first_move s ≡ Settled }
{}

/// Between two servings each lock begins at most one gather and ends at most two. Moves between two servings and further ones before
/// the next are moves between two servings; and so are gathers that end.
pub fn between_servings_locks_move_little()
    ensures few { (s t : Scene) (steps : List Move) → Runs s steps t → AreFew steps }
    ensures then { (a b c : Scene) → MoveLittle a b → MoveLittle b c → MoveLittle a c }
    ensures ends { (old new : Scene) → EndLittle old new → MoveLittle old new }
    ensures ends_then { (a b c : Scene) → EndLittle a b → EndLittle b c → EndLittle a c }
{}

/// Moves keep what is held in the rows of the states that locks have, or leave in a gather: a beginning leaves a state, and
/// a gather ends only where nothing is held outside the row of its target.
pub fn moves_keep_rows()
    ensures one { (s : Scene) (row : EntryRow) (part : Part) → Contains s.table.rows row
        → IsInRow s row part → IsInRow (with_moved s (first_move s)) row part }
    ensures all { (s t : Scene) (steps : List Move) (row : EntryRow) (part : Part) → Runs s steps t
        → Contains s.table.rows row → IsInRow s row part → IsInRow t row part }
{}

/// A request that waits is found by its number, and by it taken out of the queue, and no other is; the locks and the last number
/// stay. The request that is served has the least number of all that may be.
pub fn a_number_names_its_request()
    ensures found { (locks : LockMap) (q : Request) → IsLockMap locks → Contains locks.queue q
        → request_at locks q.ticket.0 ≡ Some q }
    ensures taken { (locks : LockMap) (q : Request) → IsLockMap locks → Contains locks.queue q
        → TakesOnly q locks (without_request locks q.ticket.0) }
    ensures least { (s : Scene) (ticket : Ticket) → IsLockMap s.locks → first_move s ≡ Serve ticket
        → (q : Request) × (q.ticket ≡ ticket) × IsFirstServed s.locks q }
{}

/// Each move keeps the order of the queue. And so does a new request, where there is room for it; and the dropping of a client's
/// requests. Where the client has none, nothing changes.
pub fn the_queue_keeps_its_order()
    ensures moved { (locks : LockMap) (step : Move) → IsLockMap locks → IsLockMap (moved locks step) }
    ensures new { (locks : LockMap) (client : ClientId) (ino : Ino) (operation : Operation) → IsLockMap locks
        → length locks.queue < 1024 → IsLockMap (with_request locks client ino operation) }
    ensures dropped { (locks : LockMap) (client : ClientId) → IsLockMap locks → IsLockMap (without_requests_of locks client) }
    ensures none { (locks : LockMap) (client : ClientId)
        → oldest_of locks client ≡ None
        → (requests_of locks client ≡ []) × (without_requests_of locks client ≡ locks) }
{}
