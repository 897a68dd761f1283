//! Laws about the definitions. Each function has an empty body, and its contract is the law.
ghost use Rattle.std.specs.Prelude.{◌≡◌, ◌≤◌, ◌↔◌, ℕ, List, [], ◌∷◌, ◌++◌, length, flat_map, sum_by, All, true, false, Some, None};
ghost use Rattle.session_log.specs.declared.line.Line.{Line as AnyLine};
ghost use Rattle.authn_core.specs.Turn.{Start};
ghost use Rattle.authn_core.specs.Views.{Needed};
ghost use Rattle.token_session.specs.declared.input.Timed.{Timed as OneInput};
ghost use Rattle.token_session.specs.History.{append_inputs};
ghost use Rattle.token_session.specs.Noise.{HasTicksForNoise};
ghost use Rattle.session_log.specs.Check.{first_comparison, check_history};
ghost use Rattle.session_log.specs.Grammar.{IsLogLineText};
ghost use Rattle.session_log.specs.Check.{IsFirstDifference, found_groups, input_lines, sent_groups};
ghost use Rattle.session_log.specs.Check.{inputs};
ghost use Rattle.session_log.specs.Lines.{lines};
ghost use Rattle.session_log.specs.Replay.{fault_of, play_all};
ghost use Rattle.session_log.specs.Semantics.{need_lines, pieces_of, reports_need};
ghost use Rattle.session_log.specs.Grammar.{parsed};
ghost use Rattle.session_log.specs.Replay.{history_semantics, quiet_history};
ghost use Rattle.session_log.specs.declared.fault.LogFault.TheVariants.{Differs};

/// States that parsing a line returns exactly what the grammar defines for the line, and `None` if and only if the line
/// isn't in the grammar.
pub fn parsing_follows_the_grammar()
    ensures read { (line : List ℕ) (l : AnyLine) → (parsed line ≡ Some l) ↔ IsLogLineText line l }
    ensures refused { (line : List ℕ) → (parsed line ≡ None) ↔ ((l : AnyLine) → ¬ IsLogLineText line l) }
{}

/// States that a quiet log contains the inputs of the original log, with ticks in place of ignored inputs. If the same
/// is true for two histories, it is also true for the histories extended by the two logs.
pub fn quiet_logs_have_ticks_for_noise()
    ensures { (start : Start) (h g : List OneInput) (bytes : List ℕ)
        → (play_all (quiet_history start) h bytes).fault ≡ None → HasTicksForNoise start h g
        → HasTicksForNoise start (append_inputs (inputs (lines bytes)) h)
        (append_inputs (inputs (lines (play_all (quiet_history start) h bytes).text)) g) }
{}

/// States that `quiet` doesn't change its own output after the same history, and returns no error.
pub fn making_quiet_is_idempotent()
    ensures faultless { (start : Start) (h : List OneInput) (bytes : List ℕ)
        → (play_all (quiet_history start) h bytes).fault ≡ None
        → (play_all (quiet_history start) h (play_all (quiet_history start) h bytes).text).fault ≡ None }
    ensures text { (start : Start) (h : List OneInput) (bytes : List ℕ)
        → (play_all (quiet_history start) h bytes).fault ≡ None
        → (play_all (quiet_history start) h (play_all (quiet_history start) h bytes).text).text
        ≡ (play_all (quiet_history start) h bytes).text }
{}

/// States that in a log without differences, the packets before the first input and after each input are exactly those
/// that the definitions in specs/ give for the history, and the counts are the numbers of its inputs and packets.
pub fn logs_without_differences_have_the_specified_packets()
    ensures same { (start : Start) (h : List OneInput) (bytes : List ℕ)
        → fault_of (check_history start) (play_all (check_history start) (first_comparison h) bytes) ≡ None
        → found_groups (lines bytes) ≡ [] ∷ sent_groups (history_semantics start) h (inputs (lines bytes)) }
    ensures inputs { (start : Start) (h : List OneInput) (bytes : List ℕ)
        → (play_all (check_history start) (first_comparison h) bytes).fault ≡ None
        → (play_all (check_history start) (first_comparison h) bytes).state.inputs ≡ length (inputs (lines bytes)) }
    ensures packets { (start : Start) (h : List OneInput) (bytes : List ℕ)
        → (play_all (check_history start) (first_comparison h) bytes).fault ≡ None
        → (play_all (check_history start) (first_comparison h) bytes).state.packets ≡ sum_by length (found_groups (lines bytes)) }
    // Nothing is written before the end of the log.
    ensures silent { (start : Start) (h : List OneInput) (bytes : List ℕ)
        → (play_all (check_history start) (first_comparison h) bytes).text ≡ [] }
{}

/// States that a reported difference is the first position at which the packets in the log differ from those that the
/// definitions in specs/ give for the history.
pub fn differences_are_the_first()
    ensures { (start : Start) (h : List OneInput) (bytes : List ℕ) (line packet : ℕ)
        → fault_of (check_history start) (play_all (check_history start) (first_comparison h) bytes) ≡ Some (Differs line packet)
        → IsFirstDifference (found_groups (lines bytes))
        ([] ∷ sent_groups (history_semantics start) h (inputs (lines bytes))) (0 ∷ input_lines 1 (lines bytes)) line packet }
{}

/// States that among the lines for a need, exactly the last one begins with `# need `. The bytes to sign are in pieces
/// of at most 96 bytes, whose concatenation is the bytes to sign.
pub fn needs_are_reported_once()
    ensures last { (n : Needed) → (before : List (List ℕ)) × (last : List ℕ) × (need_lines n ≡ before ++ last ∷ [])
        × (reports_need last ≡ true) × All (λ line. reports_need line ≡ false) before }
    ensures joined { (bytes : List ℕ) → flat_map (λ piece. piece) (pieces_of bytes) ≡ bytes }
    ensures short { (bytes : List ℕ) → All (λ piece. length piece ≤ 96) (pieces_of bytes) }
{}
