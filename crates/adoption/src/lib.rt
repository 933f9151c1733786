// What stands with a torn cable promise of the views that their cards adopt, no code: see specs/Adoption.antt.
#![tactic(auto)]
