// Theorems about renumbered modules, no code: see specs/SameSession.antt and specs/SameRun.antt for the claims.
#![tactic(auto)]
