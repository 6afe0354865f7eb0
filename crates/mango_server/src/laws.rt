//! What the services of the program answer, as the contract of a function that does nothing.
ghost use Rattle.std.specs.Prelude.{◌⊎◌, ℕ, List};
ghost use Rattle.mg_face.specs.Answer.{IsLack};
ghost use Rattle.mg_face.specs.Face.{Serves};
ghost use Rattle.mg_face.specs.Seats.{IsAnsweredAfter};
ghost use Rattle.mg_live.specs.SeatView.{SeatLooks, SeatView};
ghost use Rattle.mg_wire.specs.declared.request.Request.{Request};
ghost use Rattle.mg_wire.specs.declared.response.Response.{Response};
ghost use Rattle.mango_server.specs.Stored.{StoredAnswer};

/// A face over a seat whose commits are kept answers as the definition does, at the world after a list of commits that begins with those that
/// the seat had seen. For want of memory, or if a write may or may not be stored, it answers 503, and nothing else.
pub fn a_stored_seat_answers_as_defined()
    ensures { (db : List ℕ) (old : SeatView) (request : Request) (response : Response) (new : SeatView)
        → Serves (StoredAnswer db) (SeatLooks db) db old request response new
        → IsAnsweredAfter db old request response new ⊎ IsLack response }
{}
