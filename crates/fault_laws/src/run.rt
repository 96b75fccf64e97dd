//! The runs of a trace.
ghost use Rattle.std.specs.Prelude.{◌≡◌, ◌⊎◌, Result, IfErr};
ghost use Rattle.ft_base.specs.Count.{Rose};
ghost use Rattle.ft_base.specs.StreamState.{SinkState, SourceState};
ghost use Rattle.ft_media.specs.State.{State};
ghost use Rattle.trace_replay.specs.Causes.{EndHasCause, EndHasCauseUntraced};
ghost use Rattle.trace_replay.specs.declared.ended.Ended.{Ended};
ghost use Rattle.trace_replay.specs.declared.ended.Ended.TheVariants.{Memory, Trace};

/// A run over streams and devices of which none failed, power cuts or not, runs every line, unless a line or memory is
/// refused.
pub fn run_law()
    ensures of_a_trace { (result : Result (Unit {0}) Ended) (a b : SourceState) (x y : SinkState) (old new : State)
        → EndHasCause result a b x y old new → (Rose a.faults b.faults → ⊥) → (Rose x.faults y.faults → ⊥)
        → (Rose old.faults.flash new.faults.flash → ⊥) → (Rose old.faults.disk new.faults.disk → ⊥)
        → IfErr result (λ e. (e ≡ Trace) ⊎ (e ≡ Memory)) }
    ensures of_a_made_trace { (result : Result (Unit {0}) Ended) (x y : SinkState) (old new : State)
        → EndHasCauseUntraced result x y old new → (Rose x.faults y.faults → ⊥)
        → (Rose old.faults.flash new.faults.flash → ⊥) → (Rose old.faults.disk new.faults.disk → ⊥)
        → IfErr result (λ e. e ≡ Memory) }
{}
