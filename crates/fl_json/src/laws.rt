//! What the pieces are into which a text is cut.
ghost use Rattle.std.specs.Prelude.{◌≡◌, ℕ, List, flat_map, true};
ghost use Rattle.std.specs.List.{AllByRecursion as Each};
ghost use Rattle.fl_json.specs.Numbers.{pieces};
ghost use Rattle.fl_json.specs.Pieces.{is_piece};

/// The pieces of a text make it up, and each is a string, a number token or another byte.
pub fn pieces_make_up_their_text()
    ensures whole { (text : List ℕ) → flat_map (λ piece. piece) (pieces text) ≡ text }
    ensures each { (text : List ℕ) → Each (λ piece. is_piece piece ≡ true) (pieces text) }
{}
