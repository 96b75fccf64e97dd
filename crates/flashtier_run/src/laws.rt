//! Laws of the program: what `replay` alone says, which words read a trace, and parity pages after a run.
ghost use Rattle.std.specs.Prelude.{ℕ, [], ◌∷◌, List, Ok, codes};
ghost use Rattle.ft_base.specs.StreamState.{SinkState, SourceState};
ghost use Rattle.ft_base.specs.Told.{Told};
ghost use Rattle.ft_media.specs.State.{State};
ghost use Rattle.flashtier_words.specs.Command.{IsGen, IsOver, IsReplay, Text};
ghost use Rattle.flashtier_words.specs.Spoken.{AreWordsOf};
ghost use Rattle.flashtier_words.specs.declared.command.Command.{Command};
ghost use Rattle.flashtier_words.specs.declared.command.TraceForm.TheVariants.{Lines};
ghost use Rattle.flashtier_words.specs.declared.devices.FlashKind.TheVariants.{Plain};
ghost use Rattle.flashtier_words.specs.declared.devices.Parity.TheVariants.{Off};
ghost use Rattle.trace_model.specs.Backs.{AreUncut};
ghost use Rattle.cache_run.specs.Default.{IsDefault};
ghost use Rattle.flashtier_run.specs.Ends.{EndsCommand, IsOverOne, ran_by};
ghost use Rattle.flashtier_run.specs.Over.{AllHaveParity, AreOverParity};
ghost use Rattle.flashtier_run.specs.Runs.{IsMade, IsRead, IsSwept};
ghost use Rattle.flashtier_run.specs.Words.{IsAnySweep, ReadsTrace};

/// The word `replay` alone says a run over the default options, of a trace of lines of words over one disk, over plain
/// flash without parity.
pub fn default_law()
    ensures replay { (o : Told) → IsDefault o → IsReplay (codes "replay" ∷ []) o Lines 1 }
    ensures devices { IsOver (codes "replay" ∷ []) (record { flash = Plain; parity = Off }) }
{}

/// Words that say a trace to be read say a command that reads one, and words that say a made trace one that makes it.
pub fn words_law()
    ensures read { (words : List Text) (o : Told) (command : Command) → ReadsTrace words o → AreWordsOf words command → IsRead command }
    ensures made { (words : List Text) (o : Told) (number count : ℕ) (command : Command) → IsGen words o number count
        → AreWordsOf words command → IsMade command }
    ensures swept { (words : List Text) (command : Command) → AreWordsOf words command → IsSwept command
        → (o : Told) × IsAnySweep words o }
{}

/// With parity, after a command that ran every line of a trace without a stop line and a cut line, each parity page is
/// right whose block is full: the page before it isn't blank.
pub fn parity_law()
    ensures { (a b : SourceState) (x y : SinkState) (first now beneath : State) (command : Command)
        (end : EndsCommand a b x y first now command (Ok (tt {0}))) → IsOverOne command → AreUncut (ran_by a b x y first now command end)
        → AreOverParity beneath now → AllHaveParity beneath.contents now.contents }
{}
