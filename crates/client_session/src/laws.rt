//! Laws that show that the definitions mean what they should. Each function does nothing: its
//! contract is the law.

ghost use Rattle.std.specs.Prelude.{◌≡◌, ◌<◌, ◌≤◌, ℕ, List, []};
ghost use Rattle.std.specs.Option.{MatchOption};
ghost use Rattle.std.specs.List.{All, Contains};
ghost use Rattle.log_base.specs.declared.numbers.Position.{Position};
ghost use Rattle.log_base.specs.Draws.{number_of_draw};
ghost use Rattle.client_session.specs.Sessions.{Drawing, after_notes};

/// No number is drawn twice, in one run or in two.
pub fn numbers_differ()
    ensures { (run other_run draw other_draw : ℕ) → draw < 65536 → other_draw < 65536
        → number_of_draw run draw ≡ number_of_draw other_run other_draw
        → (run ≡ other_run) × (draw ≡ other_draw) }
{}

/// From a session that noted nothing, the greatest position after notes is one of those noted, and
/// none of them is greater. There is none where nothing was noted.
pub fn greatest_is_noted()
    ensures { (session : Drawing) (positions : List Position) → session.greatest ≡ None
        → MatchOption (after_notes session positions).greatest (positions ≡ [])
        (λ (greatest : Position). Contains positions greatest × All (λ (position : Position). position.0 ≤ greatest.0) positions) }
{}
