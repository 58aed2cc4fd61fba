//! The law that printed lines read as themselves, on a function that does nothing.

ghost use Rattle.std.specs.Prelude.{◌≡◌, ℕ, Some};
ghost use Rattle.zb_base.specs.declared.label.Layer.{Layer};
ghost use Rattle.zb_base.specs.declared.node.Role.{Role};
ghost use Rattle.zb_text.specs.Pages.{line_of_words};
ghost use Rattle.zb_sched_line.specs.Fits.{FitsEvent, FitsSentence};
ghost use Rattle.zb_sched_line.specs.Grammar.{meaning_of};
ghost use Rattle.zb_sched_line.specs.Said.{Event, Bytes, Codes, Draws, Happens, Holds, Introduces, Starts};
ghost use Rattle.zb_sched_line.specs.Texts.{event_words, code_words, counter_words, draw_words, netkey_words, node_words};

/// States that what is in its range and printed reads as itself.
pub fn printed_line_reads()
    ensures node { (name : Bytes) (role : Role) (eui short out_block in_block : ℕ)
        → FitsSentence (Introduces name role eui short out_block in_block)
        → meaning_of (line_of_words (node_words name role eui short out_block in_block))
        ≡ Some (Introduces name role eui short out_block in_block) }
    ensures code { (name code : Bytes) → FitsSentence (Codes name (Some code))
        → meaning_of (line_of_words (code_words name code)) ≡ Some (Codes name (Some code)) }
    ensures netkey { (name key : Bytes) (sequence : ℕ) → FitsSentence (Holds name key sequence)
        → meaning_of (line_of_words (netkey_words name key sequence)) ≡ Some (Holds name key sequence) }
    ensures counter { (name : Bytes) (layer : Layer) (limit : ℕ) → FitsSentence (Starts name layer limit)
        → meaning_of (line_of_words (counter_words name layer limit)) ≡ Some (Starts name layer limit) }
    ensures draw { (key : Bytes) → FitsSentence (Draws key)
        → meaning_of (line_of_words (draw_words key)) ≡ Some (Draws key) }
    ensures event { (event : Event) → FitsEvent event
        → meaning_of (line_of_words (event_words event)) ≡ Some (Happens event) }
{}
