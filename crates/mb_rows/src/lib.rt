//! The worked rows: runs of scripts, computed on the definitions of their meaning.
#![tactic(auto)]

ghost use Rattle.mb_rows.specs.Language as language;
ghost use Rattle.mb_rows.specs.BuiltIns as built_ins;
ghost use Rattle.mb_rows.specs.Membrane as membrane;
ghost use Rattle.mb_rows.specs.Turns as turns;
ghost use Rattle.mb_rows.specs.Policy as policy;
ghost use Rattle.mb_rows.specs.Proxies as proxies;
ghost use Rattle.mb_rows.specs.Symbols as symbols;
ghost use Rattle.mb_rows.specs.Collections as collections;
ghost use Rattle.mb_rows.specs.Sides as sides;
ghost use Rattle.mb_rows.specs.Traces as traces;
ghost use Rattle.mb_rows.specs.Units as units;

/// Each row is two or more scripts, perhaps with a policy, a schedule and a budget, and the text that they write.
/// The text is the definitions' text, and the trace is lawful.
pub fn worked_rows()
    ensures language { language.Rows }
    ensures built_ins { built_ins.Rows }
    ensures membrane { membrane.Rows }
    ensures turns { turns.Rows }
    ensures policy { policy.Rows }
    ensures proxies { proxies.Rows }
    ensures symbols { symbols.Rows }
    ensures collections { collections.Rows }
    ensures sides { sides.Rows }
    ensures traces { traces.Rows }
    ensures units { units.Rows }
{}
