//! A line of a trace, worked by hand.
ghost use Rattle.std.specs.Prelude.{◌≡◌, [], ◌∷◌, None, Some, codes};
ghost use Rattle.fixed_point.specs.declared.scale.Scale.{Scale};
ghost use Rattle.flow_base.specs.declared.fault.Fault.TheVariants as faults;
ghost use Rattle.actions.specs.declared.event.Event.TheVariants as events;
ghost use Rattle.trace_text.specs.Trace.{line_of, result_word};
ghost use Rattle.library_tests.specs.Sample.{sample_tree, sample_names, sample_marks, sample_vals};

/// The definition gives the lines that are wanted.
pub fn a_trace_line()
    ensures event { (scale : Scale) → scale.frac ≡ 8 →
        line_of sample_tree (sample_names scale) sample_marks (sample_vals scale) (1 ∷ 1 ∷ []) 1 (events.Named 0) (result_word (sample_names scale) None)
        ≡ codes "1 GO [W,W/P,W/P/A,W/Q] x=-0.5,on=true pi,pi ok\n" }
    ensures fault { (scale : Scale) → scale.frac ≡ 8 →
        line_of sample_tree (sample_names scale) sample_marks (sample_vals scale) [] 0 events.Start
        (result_word (sample_names scale) (Some (faults.Overflow 0)))
        ≡ codes "0 start [W,W/P,W/P/A,W/Q] x=-0.5,on=true - overflow x\n" }
{}
