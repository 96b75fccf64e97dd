//! The law of the words: they say at most one command, with one set of values, over one choice of devices.
ghost use Rattle.std.specs.Prelude.{◌≡◌, ℕ, List};
ghost use Rattle.ft_base.specs.Told.{Told};
ghost use Rattle.ft_base.specs.declared.power.Outcome.{Outcome};
ghost use Rattle.flashtier_words.specs.declared.command.TraceForm.{TraceForm};
ghost use Rattle.flashtier_words.specs.declared.devices.Devices.{Devices};
ghost use Rattle.flashtier_words.specs.Command.{IsCommand, IsCost, IsGen, IsInspect, IsOver, IsReplay, IsSweep, Text};

/// No words say two things: of two commands that they would say, the word and all values are the same, and so are their
/// devices.
pub fn command_law()
    ensures replay { (words : List Text) (o other : Told) → IsCommand words o → IsCommand words other → o ≡ other }
    ensures form { (words : List Text) (o other : Told) (form form_too : TraceForm) (disks disks_too : ℕ) → IsReplay words o form disks
        → IsReplay words other form_too disks_too → (form ≡ form_too) × (disks ≡ disks_too) }
    ensures costed { (words : List Text) (o other : Told) (form form_too : TraceForm) → IsCost words o form
        → IsCost words other form_too → (o ≡ other) × (form ≡ form_too) }
    ensures costed_apart { (words : List Text) (o other : Told) (form : TraceForm) → IsCost words o form → IsCommand words other → ⊥ }
    ensures costed_inspected { (words : List Text) (o other : Told) (form : TraceForm) → IsCost words o form → IsInspect words other → ⊥ }
    ensures costed_made { (words : List Text) (o other : Told) (form : TraceForm) (number count : ℕ) → IsCost words o form
        → IsGen words other number count → ⊥ }
    ensures costed_swept { (words : List Text) (o other : Told) (form : TraceForm) (outcome : Outcome) → IsCost words o form
        → IsSweep words other outcome → ⊥ }
    ensures made { (words : List Text) (o other : Told) (number number_too count count_too : ℕ) → IsGen words o number count
        → IsGen words other number_too count_too
        → (o ≡ other) × (number ≡ number_too) × (count ≡ count_too) }
    ensures inspected { (words : List Text) (o other : Told) → IsInspect words o → IsInspect words other → o ≡ other }
    ensures apart { (words : List Text) (o other : Told) (number count : ℕ) → IsCommand words o → IsGen words other number count → ⊥ }
    ensures inspected_apart { (words : List Text) (o other : Told) → IsInspect words o → IsCommand words other → ⊥ }
    ensures inspected_made { (words : List Text) (o other : Told) (number count : ℕ) → IsInspect words o → IsGen words other number count
        → ⊥ }
    ensures swept { (words : List Text) (o other : Told) (outcome outcome_too : Outcome) → IsSweep words o outcome
        → IsSweep words other outcome_too → (o ≡ other) × (outcome ≡ outcome_too) }
    ensures swept_apart { (words : List Text) (o other : Told) (outcome : Outcome) → IsSweep words o outcome → IsCommand words other → ⊥ }
    ensures swept_inspected { (words : List Text) (o other : Told) (outcome : Outcome) → IsSweep words o outcome → IsInspect words other → ⊥ }
    ensures swept_made { (words : List Text) (o other : Told) (outcome : Outcome) (number count : ℕ) → IsSweep words o outcome
        → IsGen words other number count → ⊥ }
    ensures devices { (words : List Text) (d other : Devices) → IsOver words d → IsOver words other → d ≡ other }
{}
