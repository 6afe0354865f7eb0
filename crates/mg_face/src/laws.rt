//! Laws of the face, each the contract of a function that does nothing.
ghost use Rattle.std.specs.Prelude.{◌≡◌, ◌⊎◌, ◌≤◌, ℕ, List, None, Some, codes, IsUtf8};
ghost use Rattle.http1.specs.Fields.{Header};
ghost use Rattle.mg_value.specs.Held.{IsHeld};
ghost use Rattle.mg_value.specs.Text.{compact};
ghost use Rattle.mg_value.specs.Value.{Value, depth};
ghost use Rattle.mg_revtree.specs.Revision.{Revision, revision_text};
ghost use Rattle.mg_engine.specs.Bodies.{line_of};
ghost use Rattle.mg_engine.specs.Bulk.{done_entry, refused_entry};
ghost use Rattle.mg_engine.specs.Commands.{ok_answer};
ghost use Rattle.mg_engine.specs.Refusals.{refusal_line};
ghost use Rattle.mg_live.specs.SeatView.{SeatView, Answered, SeatLooks};
ghost use Rattle.mg_wire.specs.declared.request.Request.{Request};
ghost use Rattle.mg_wire.specs.declared.response.Response.{Response};
ghost use Rattle.mg_wire.specs.declared.status.Status.TheVariants as Status;
ghost use Rattle.mg_face.specs.declared.edited.Change.{Change};
ghost use Rattle.mg_face.specs.Answer.{IsLack, document_answer, json};
ghost use Rattle.mg_face.specs.Edited.{edited, list_with, made_answer, no_entry, one_entry};
ghost use Rattle.mg_face.specs.Face.{Serves};
ghost use Rattle.mg_face.specs.Json.{string_at};
ghost use Rattle.mg_face.specs.Seats.{IsAnsweredAfter};
ghost use Rattle.mg_face.specs.Replica.{made_entry};
ghost use Rattle.mg_face.specs.Shown.{shown};
ghost use Rattle.mg_face.specs.Way as Way;

/// A face over a seat answers as the definition does, at the world after a list of commits that begins with those that the seat had seen. For
/// want of memory it answers 503, and nothing else.
pub fn a_seat_answers_as_defined()
    ensures { (db : List ℕ) (old : SeatView) (request : Request) (response : Response) (new : SeatView)
        → Serves (Answered db) (SeatLooks db) db old request response new
        → IsAnsweredAfter db old request response new ⊎ IsLack response }
{}

/// A document that is shown has its own revision as `ETag`, and is 304 for a client that has this revision, if the code can hold it and it nests
/// at most 127 deep.
pub fn a_tag_is_the_revision_shown()
    ensures { (db : List ℕ) (fields : List Header) (v : Value) → IsHeld v → depth v ≤ 127 → IsUtf8 (compact v)
        → shown db fields Way.document (ok_answer v)
        ≡ document_answer fields (string_at (codes "_rev") v) (json Status.Ok (line_of v)) }
{}

/// One edit is shown as what became of it: at its revision if it was made; if it was refused, as 409 for the reason of its refusal. That of a
/// replica, of which the answer to its bulk is silent if it was made, is then shown at the revision that it names.
pub fn an_edit_is_shown()
    ensures made { (db id : List ℕ) (change : Change) (r : Revision)
        → IsUtf8 (compact (list_with (done_entry id r)))
        → edited db change None (one_entry (done_entry id r))
        ≡ made_answer db change (done_entry id r) (revision_text r) }
    ensures refused { (db error id reason : List ℕ) (change : Change)
        → IsUtf8 (compact (list_with (refused_entry error id reason)))
        → edited db change None (one_entry (refused_entry error id reason))
        ≡ json Status.Conflict (refusal_line error reason) }
    ensures replicated { (db id revision : List ℕ) (change : Change)
        → edited db change (Some (made_entry id revision)) no_entry
        ≡ made_answer db change (made_entry id revision) revision }
{}
