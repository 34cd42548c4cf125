// States with equal positions and values have equal lists of traces below them: laws in specs/, and no code.
#![tactic(auto)]
